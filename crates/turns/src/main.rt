// Turns forty zeros 9,999 times and prints the last text: the work that bench/measure counts.
#![tactic(auto)]

use std::{env, io};
use texts::digits::PlainRule;
use texts::text::Text;

// The step is the first argument, or 1.
fn step_of(rt: &HostRuntime) -> io::Result<i64> {
    let step = env::args(rt)?.nth(1);
    Ok(
        step.and_then(|step| step.as_str().parse::<i64>().ok())
            .unwrap_or(1),
    )
}

fn main(rt: HostRuntime) -> io::Result<()> {
    let step = step_of(&rt)?;
    let Ok(mut text) = Text::from_bytes(b"0000000000000000000000000000000000000000") else {
        return Ok(());
    };
    for _ in 0..9999 {
        text = text.turned(&PlainRule, step);
    }
    match std::str::from_utf8(text.as_bytes()) {
        Ok(shown) => println!(rt; "{shown}"),
        Err(_) => Ok(()),
    }
}
