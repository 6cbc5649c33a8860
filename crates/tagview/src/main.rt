// Reads a job, does its label commands on a new label, and writes the label's picture as a file of pictures.
#![tactic(auto)]

ghost use Rattle.std.specs.Prelude.{◌<◌, length, IfOk, IfSome};

mod doing;
mod pictures;

use doing::act_at;
use faults::Refusal;
use invocation::Word;
use label::label::Label;
use limits::sizes::PICTURE_BYTES;
use pictures::{write_bmp, write_pbm};
use std::io::{Read, Write};
use std::process::ExitCode;
use std::{env, fs, io};

const HELP: &str = "\
usage: tagview [--bmp] [FILE] >PICTURE

Reads a job (from the file, or from the standard input), does its label commands, those of forms in it too,
and writes the label's picture: 432 by 400 dots, lines, boxes and areas; texts and bars are not drawn. It is
a PBM file, with --bmp a BMP file, which every desktop shows. All other commands are passed over; what is
refused is told on the standard error.

Status: 0 also if a command was refused, 1 if reading or writing failed, 2 if the arguments are wrong.
";

// What the arguments ask for.
#[derive(Drop)]
enum Asked {
    Help,
    Picture { file: Option<String>, as_bmp: bool },
    Unknown(String),
}

fn read_arguments(rt: &HostRuntime) -> io::Result<Asked> {
    let mut file = None;
    let mut as_bmp = false;
    for word in env::args(rt)?.skip(1) {
        match Word::of(word.as_str()) {
            Word::Help => return Ok(Asked::Help),
            Word::Option if word.as_str() == "--bmp" => as_bmp = true,
            Word::File if file.is_none() => file = Some(word),
            Word::Option | Word::File => return Ok(Asked::Unknown(word)),
        }
    }
    Ok(Asked::Picture { file, as_bmp })
}

// Does the command at a place of the job or tells why it is refused, and answers the place where reading goes on.
fn act_one(rt: &HostRuntime, label: &mut Label, job: &[u8], at: usize) -> io::Result<Option<usize>>
    ensures { IfOk result (λ r. IfSome r (λ next. (at < length job.now) × (at < next))) }
{
    match act_at(label, job, at) {
        Ok(next) => Ok(Some(next)),
        Err(fault) => {
            if fault.refusal != Refusal::JobEnd {
                let number = fault.refusal.number();
                let place = fault.place;
                eprintln!(rt; "refused: {number} at {place}")?;
            }
            match fault.refusal {
                Refusal::JobBounds | Refusal::JobEnd => Ok(None),
                _ => Ok(Some(fault.next)),
            }
        }
    }
}

// Does a job on a new label.
fn act_all(rt: &HostRuntime, job: &[u8]) -> io::Result<Label> {
    let mut label = Label::new();
    let mut at = 0;
    while let Some(next) = act_one(rt, &mut label, job, at)? {
        at = next;
    }
    Ok(label)
}

fn show(rt: &HostRuntime, job: &[u8], as_bmp: bool) -> io::Result<()> {
    let label = act_all(rt, job)?;
    let mut dots = vec![in rt.alloc(); 0; PICTURE_BYTES]?;
    label
        .draw(&mut dots)
        .map_err(|_| io::Error::from(io::ErrorKind::InvalidInput))?;
    let mut out = rt.stdout();
    if as_bmp {
        write_bmp(&mut out, &dots)?;
    } else {
        write_pbm(&mut out, &dots)?;
    }
    Ok(())
}

fn work(rt: &HostRuntime) -> io::Result<ExitCode> {
    match read_arguments(rt)? {
        Asked::Help => print!(rt; "{HELP}")?,
        Asked::Unknown(word) => {
            eprintln!(rt; "tagview: {word}? tagview --help tells what it takes")?;
            return Ok(ExitCode::from(2));
        }
        Asked::Picture { file, as_bmp } => {
            let job = match file {
                Some(file) => match fs::read(rt, file.as_str()) {
                    Ok(job) => job,
                    Err(e) => {
                        eprintln!(rt; "tagview: {file}: {e}")?;
                        return Ok(ExitCode::FAILURE);
                    }
                },
                None => {
                    let mut job = Vec::new(rt.alloc());
                    rt.stdin().read_to_end(&mut job)?;
                    job
                }
            };
            show(rt, &job, as_bmp)?;
        }
    }
    Ok(ExitCode::SUCCESS)
}

// A failure to read or write is told in the words of the system.
fn main(rt: HostRuntime) -> anyhow::Result<ExitCode> {
    match work(&rt) {
        // Whoever reads the picture may stop before its end.
        Err(e) if e.kind() == io::ErrorKind::BrokenPipe => Ok(ExitCode::SUCCESS),
        ended => Ok(ended?),
    }
}
