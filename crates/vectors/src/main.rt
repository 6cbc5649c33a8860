// Runs outside vectors: GS1's published check digits, and what TPCL printers print when they count and suppress zeros.
#![tactic(auto)]

mod checks;
mod counting;

use std::io;

fn main(rt: HostRuntime) -> io::Result<()> {
    checks::run_all(&rt)?;
    counting::run_all(&rt)
}
