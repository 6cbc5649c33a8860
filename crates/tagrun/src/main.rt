// Does a job on a new station, and writes every tag's line and every refusal.
#![tactic(auto)]

use invocation::Word;
use shop_job::writing::write_job;
use std::io::{BufWriter, Read, Write};
use std::process::ExitCode;
use std::{env, fs, io};

const HELP: &str = "\
usage: tagrun [FILE]

Does a job (from the file, or from the standard input) on a new station with an empty form store. For each
tag it writes the tag's line, and for each command that is refused a line such as R,13,L,00,000105: number,
layer, form and place. docs/FAULTS.md has what each number means; jobcheck tells it for a job.

Status: 0 also if a command was refused, 1 if reading or writing failed, 2 if the arguments are wrong.
";

fn print_job(rt: &HostRuntime, job: &[u8]) -> io::Result<()> {
    let (mut out, tags) = write_job(job, BufWriter::new(rt.alloc(), rt.stdout())?);
    tags?;
    out.flush()
}

// What the arguments ask for.
#[derive(Drop)]
enum Asked {
    Help,
    Input(Option<String>),
    Unknown(String),
}

fn read_arguments(rt: &HostRuntime) -> io::Result<Asked> {
    let mut file = None;
    for word in env::args(rt)?.skip(1) {
        match Word::of(word.as_str()) {
            Word::Help => return Ok(Asked::Help),
            Word::File if file.is_none() => file = Some(word),
            Word::Option | Word::File => return Ok(Asked::Unknown(word)),
        }
    }
    Ok(Asked::Input(file))
}

fn work(rt: &HostRuntime) -> io::Result<ExitCode> {
    match read_arguments(rt)? {
        Asked::Help => print!(rt; "{HELP}")?,
        Asked::Unknown(word) => {
            eprintln!(rt; "tagrun: {word}? tagrun --help tells what it takes")?;
            return Ok(ExitCode::from(2));
        }
        Asked::Input(Some(file)) => match fs::read(rt, file.as_str()) {
            Ok(job) => print_job(rt, &job)?,
            Err(e) => {
                eprintln!(rt; "tagrun: {file}: {e}")?;
                return Ok(ExitCode::FAILURE);
            }
        },
        Asked::Input(None) => {
            let mut job = Vec::new(rt.alloc());
            rt.stdin().read_to_end(&mut job)?;
            print_job(rt, &job)?;
        }
    }
    Ok(ExitCode::SUCCESS)
}

fn main(rt: HostRuntime) -> io::Result<ExitCode> {
    match work(&rt) {
        // Whoever reads the output may stop before its end.
        Err(e) if e.kind() == io::ErrorKind::BrokenPipe => Ok(ExitCode::SUCCESS),
        ended => ended,
    }
}
