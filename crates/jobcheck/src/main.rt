// Does a job on a new station as tagrun does, and tells each command with its parts, and of each that is refused
// what is wrong, where, and what to do.
#![tactic(auto)]

mod findings;
mod forms;
mod parts;
mod source;
mod telling;
mod words;

use findings::Findings;
use invocation::Word;
use shop_job::running::run_job;
use source::Source;
use station::sizes::{ANSWER_BYTES, WORK_BYTES};
use std::io::{BufWriter, Read, Write};
use std::process::ExitCode;
use std::{env, fs, io};
use telling::tell;

const HELP: &str = "\
usage: jobcheck [FILE..]

Does a job on a new station, as tagrun does, and tells what each command is, with its parts. Of each command
that is refused it tells the number, the bytes with a mark under the wrong one, which part that is, what has to
stand there, and what to do.

A FILE is a source as in forms/, one command to a line, or a job of bytes, which has an ESC. Several are one
job, in their order. Without a FILE a job of bytes is read from the standard input.

Status: 0 if nothing was refused, 1 if something was, 2 if the arguments or a file are wrong.
";

// Reads what the arguments name into one job; nothing, if they are wrong or ask for help only.
fn gather(rt: &HostRuntime) -> io::Result<Result<Source, ExitCode>> {
    let mut source = Source::new(rt.alloc());
    let mut named = false;
    for word in env::args(rt)?.skip(1) {
        match Word::of(word.as_str()) {
            Word::Help => {
                print!(rt; "{HELP}")?;
                return Ok(Err(ExitCode::SUCCESS));
            }
            Word::Option => {
                eprintln!(rt;
                    "jobcheck: {word} is no option; jobcheck --help tells what there is"
                )?;
                return Ok(Err(ExitCode::from(2)));
            }
            Word::File => {
                named = true;
                match fs::read(rt, word.as_str()) {
                    Ok(bytes) => source.add(word, bytes.as_slice())?,
                    Err(e) => {
                        eprintln!(rt; "jobcheck: {word}: {e}")?;
                        return Ok(Err(ExitCode::from(2)));
                    }
                }
            }
        }
    }
    if !named {
        rt.stdin().read_to_end(&mut source.job)?;
    }
    Ok(Ok(source))
}

fn check(rt: &HostRuntime) -> io::Result<ExitCode> {
    let source = match gather(rt)? {
        Ok(source) => source,
        Err(status) => return Ok(status),
    };
    let mut findings = Findings::new(rt.alloc());
    let mut answer = [0u8; ANSWER_BYTES];
    let mut work = [0u8; WORK_BYTES];
    run_job(source.job.as_slice(), &mut answer, &mut work, &mut findings)?;
    let mut out = BufWriter::new(rt.alloc(), rt.stdout())?;
    tell(rt.alloc(), &mut out, &source, findings.heard.as_slice())?;
    out.flush()?;
    if findings.has_refusal() {
        Ok(ExitCode::FAILURE)
    } else {
        Ok(ExitCode::SUCCESS)
    }
}

fn main(rt: HostRuntime) -> io::Result<ExitCode> {
    match check(&rt) {
        Err(e) if e.kind() == io::ErrorKind::BrokenPipe => Ok(ExitCode::SUCCESS),
        ended => ended,
    }
}
