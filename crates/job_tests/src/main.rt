// Reads cases from standard input, one to a line, and writes what the reader answers to each.
// A case is a place, a number of bytes to add behind, and a job in which \hh is the byte with that number.
#![tactic(auto)]

ghost use Rattle.std.specs.Prelude.{◌≡◌, ◌+◌, ◌-◌, ◌<◌, length};
ghost use Rattle.job.specs.Reading.{before};

use faults::Fault;
use job::fault::ReadFault;
use job::read::{count_before, read};
use jobgroups::command::Command;
use jobparts::bytes::{first, rest_at};
use jobparts::values::number_of;
use std::alloc::AllocError;
use std::io;
use std::io::Read;

fn hex(b: u8) -> u8
    ensures { result < 16 }
{
    match b {
        b'0'..=b'9' => b - b'0',
        b'a'..=b'f' => b - b'a' + 10,
        _ => 0,
    }
}

// Adds the job that a case writes.
fn decode(mut text: &[u8], job: &mut Vec<u8>) -> Result<(), AllocError> {
    loop {
        match text {
            [b'\\', high, low, rest @ ..] => {
                job.push(hex(*high) * 16 + hex(*low))?;
                text = rest;
            }
            [b, rest @ ..] => {
                job.push(*b)?;
                text = rest;
            }
            [] => return Ok(()),
        }
    }
}

// Adds so many bytes that are no ESC.
fn pad(job: &mut Vec<u8>, count: u64) -> Result<(), AllocError> {
    for _ in 0..count {
        job.push(b'x')?;
    }
    Ok(())
}

fn show(rt: &HostRuntime, answer: Result<Command<'_>, ReadFault>, next: usize) -> io::Result<()> {
    match answer {
        Ok(command) => {
            let letters = command.letters();
            println!(rt; "ok {letters} {next}")
        }
        Err(fault) => {
            let Fault {
                refusal,
                form: _,
                place,
                next: _,
            } = fault.into();
            let number = refusal.number();
            println!(rt; "{number} {place} {next}")
        }
    }
}

// What stands before the first of a byte, and what behind it.
fn cut(bytes: &[u8], b: u8) -> (&[u8], &[u8])
    ensures { length result.1.now ≡ length bytes.now - (before b bytes.now + 1) }
{
    let n = count_before(bytes, b);
    (first(bytes, n), rest_at(bytes, n + 1))
}

fn one(rt: &HostRuntime, line: &[u8]) -> io::Result<()> {
    let (at, rest) = cut(line, b' ');
    let (padding, text) = cut(rest, b' ');
    let mut job = Vec::new(rt.alloc());
    decode(text, &mut job)?;
    pad(&mut job, number_of(padding))?;
    let (answer, next) = read(job.as_slice(), number_of(at) as usize);
    show(rt, answer, next)
}

fn main(rt: HostRuntime) -> io::Result<()> {
    let mut cases = Vec::new(rt.alloc());
    rt.stdin().read_to_end(&mut cases)?;
    let mut rest = cases.as_slice();
    while !rest.is_empty() {
        let (line, behind) = cut(rest, b'\n');
        one(&rt, line)?;
        rest = behind;
    }
    Ok(())
}
