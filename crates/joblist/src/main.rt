// Reads a job and lists its commands with their parts, or why one is refused.
#![tactic(auto)]

ghost use Rattle.std.specs.Prelude.{◌<◌, length, IfOk, IfSome};

mod show;

use faults::Fault;
use invocation::Word;
use job::fault::ReadFault;
use job::read::read;
use jobparts::part::ReadRefusal;
use show::show_command;
use std::io::Read;
use std::process::ExitCode;
use std::{env, fs, io};

const HELP: &str = "\
usage: joblist [FILE]

Lists the commands of a job (from the file, or from the standard input) with the places of their parts. Each
command is read by itself, and none is done: what a station refuses of a well-formed command, jobcheck
tells.

Status: 0 also if a command was refused, 1 if reading or writing failed, 2 if the arguments are wrong.
";

// One line for a refusal: the command's place, number, layer, the place that is wrong, and what it means.
fn show_fault(rt: &HostRuntime, at: usize, fault: ReadFault) -> io::Result<()> {
    let Fault {
        refusal,
        form: _,
        place,
        next,
    } = fault.into();
    let number = refusal.number();
    let layer = char::from(refusal.layer().letter());
    println!(rt; "{at:06} refused {number:02} {layer} at {place:06}: {refusal}; next {next:06}")
}

// Lists what stands at a place of the job, and answers the place where listing goes on.
fn list_one(rt: &HostRuntime, job: &[u8], at: usize) -> io::Result<Option<usize>>
    ensures { IfOk result (λ r. IfSome r (λ next. (at < length job.now) × (at < next))) }
{
    let (answer, next) = read(job, at);
    match answer {
        Ok(command) => {
            show_command(rt, at, command)?;
            Ok(Some(next))
        }
        Err(fault) => {
            show_fault(rt, at, fault)?;
            match fault.refusal {
                ReadRefusal::OutOfBounds | ReadRefusal::AtEnd => Ok(None),
                _ => Ok(Some(next)),
            }
        }
    }
}

fn list_all(rt: &HostRuntime, job: &[u8]) -> io::Result<()> {
    let mut at = 0;
    while let Some(next) = list_one(rt, job, at)? {
        at = next;
    }
    Ok(())
}

// What the arguments ask for.
#[derive(Drop)]
enum Asked {
    Help,
    Input(Option<String>),
    Unknown(String),
}

fn read_arguments(rt: &HostRuntime) -> io::Result<Asked> {
    let mut file = None;
    for word in env::args(rt)?.skip(1) {
        match Word::of(word.as_str()) {
            Word::Help => return Ok(Asked::Help),
            Word::File if file.is_none() => file = Some(word),
            Word::Option | Word::File => return Ok(Asked::Unknown(word)),
        }
    }
    Ok(Asked::Input(file))
}

fn work(rt: &HostRuntime) -> io::Result<ExitCode> {
    match read_arguments(rt)? {
        Asked::Help => print!(rt; "{HELP}")?,
        Asked::Unknown(word) => {
            eprintln!(rt; "joblist: {word}? joblist --help tells what it takes")?;
            return Ok(ExitCode::from(2));
        }
        Asked::Input(Some(file)) => match fs::read(rt, file.as_str()) {
            Ok(job) => list_all(rt, &job)?,
            Err(e) => {
                eprintln!(rt; "joblist: {file}: {e}")?;
                return Ok(ExitCode::FAILURE);
            }
        },
        Asked::Input(None) => {
            let mut job = Vec::new(rt.alloc());
            rt.stdin().read_to_end(&mut job)?;
            list_all(rt, &job)?;
        }
    }
    Ok(ExitCode::SUCCESS)
}

fn main(rt: HostRuntime) -> io::Result<ExitCode> {
    match work(&rt) {
        // Whoever reads the output may stop before its end.
        Err(e) if e.kind() == io::ErrorKind::BrokenPipe => Ok(ExitCode::SUCCESS),
        ended => ended,
    }
}
