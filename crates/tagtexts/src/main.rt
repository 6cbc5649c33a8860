// Reads orders, one to a line, and prints the finished texts of each run.
#![tactic(auto)]

mod order;
mod run;

use invocation::Word;
use order::Order;
use run::print_run;
use std::io::{BufRead, BufReader, Read};
use std::process::ExitCode;
use std::{env, fs, io};

const HELP: &str = "\
usage: tagtexts [FILE]

Reads orders (from the file, or from the standard input), one to a line: RULE,TEXT,STEP,CHECK,ZEROS,COUNT.
For each it prints the finished texts of the run, or what is wrong with the order. docs/TAGTEXTS.md has the
parts.

Status: 0 also if an order was wrong, 1 if reading or writing failed, 2 if the arguments are wrong.
";

fn print_runs<R: Read + Drop>(rt: &HostRuntime, orders: R) -> io::Result<()> {
    let heap = rt.alloc();
    for (number, line) in (1u64..).zip(BufReader::new(heap, orders)?.split(heap, b'\n')) {
        let line = line?;
        if line.is_empty() {
            continue;
        }
        match Order::try_from(line.as_slice()) {
            Ok(order) => print_run(rt, number, &order)?,
            Err(wrong) => println!(rt; "line {number}: {wrong}")?,
        }
    }
    Ok(())
}

// What the arguments ask for.
#[derive(Drop)]
enum Asked {
    Help,
    Input(Option<String>),
    Unknown(String),
}

fn read_arguments(rt: &HostRuntime) -> io::Result<Asked> {
    let mut file = None;
    for word in env::args(rt)?.skip(1) {
        match Word::of(word.as_str()) {
            Word::Help => return Ok(Asked::Help),
            Word::File if file.is_none() => file = Some(word),
            Word::Option | Word::File => return Ok(Asked::Unknown(word)),
        }
    }
    Ok(Asked::Input(file))
}

fn work(rt: &HostRuntime) -> io::Result<ExitCode> {
    match read_arguments(rt)? {
        Asked::Help => print!(rt; "{HELP}")?,
        Asked::Unknown(word) => {
            eprintln!(rt; "tagtexts: {word}? tagtexts --help tells what it takes")?;
            return Ok(ExitCode::from(2));
        }
        Asked::Input(Some(file)) => match fs::open(rt, file.as_str()) {
            Ok(orders) => print_runs(rt, orders)?,
            Err(e) => {
                eprintln!(rt; "tagtexts: {file}: {e}")?;
                return Ok(ExitCode::FAILURE);
            }
        },
        Asked::Input(None) => print_runs(rt, rt.stdin())?,
    }
    Ok(ExitCode::SUCCESS)
}

fn main(rt: HostRuntime) -> io::Result<ExitCode> {
    match work(&rt) {
        // Whoever reads the output may stop before its end.
        Err(e) if e.kind() == io::ErrorKind::BrokenPipe => Ok(ExitCode::SUCCESS),
        ended => ended,
    }
}
