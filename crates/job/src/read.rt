// Reads the command at a place of a job.
ghost use Rattle.std.specs.Prelude.{◌≡◌, ◌<◌, ◌≤◌, length, IfOk};
ghost use Rattle.job.specs.Reading.{before, next_escape, bounds_at, begin_at, ending_at, end_at, read_at, seen_answer, answer_of, next_of};

use crate::dispatch::parse;
use crate::fault::ReadFault;
use jobgroups::command::Command;
use jobparts::bytes::{first, rest_at, stands_at};
use jobparts::part::ReadRefusal;
use limits::sizes::{LONGEST_COMMAND, LONGEST_JOB};
use memchr::memchr;

const ESC: u8 = 0x1b;

const LF: u8 = 0x0a;

const NUL: u8 = 0;

/// How many bytes stand before the first of a value; all, where there is none.
pub fn count_before(bytes: &[u8], b: u8) -> usize
    ensures count { result ≡ before b bytes.now }
    ensures within { result ≤ length bytes.now }
{
    memchr(b, bytes).unwrap_or(bytes.len())
}

// The place of the first ESC behind a place, or the job's end.
fn next_escape(job: &[u8], at: usize) -> usize
    requires { at < length job.now }
    ensures { result ≡ next_escape job.now at }
{
    at + 1 + count_before(rest_at(job, at + 1), ESC)
}

/// The job is not too long, and the place not past its end: what is tested before anything else.
pub fn check_bounds(job: &[u8], at: usize) -> Result<(), ReadFault>
    ensures { result ≡ bounds_at job.now at }
{
    if job.len() > LONGEST_JOB || at > job.len() {
        return Err(ReadFault {
            refusal: ReadRefusal::OutOfBounds,
            place: at,
            next: at,
        });
    }
    Ok(())
}

// A command begins at the place.
fn begin(job: &[u8], at: usize) -> Result<(), ReadFault>
    ensures { result ≡ begin_at job.now at }
{
    match job.get(at) {
        Some(&ESC) => Ok(()),
        Some(_) => Err(ReadFault {
            refusal: ReadRefusal::NoEscape,
            place: at,
            next: next_escape(job, at),
        }),
        None => Err(ReadFault {
            refusal: ReadRefusal::AtEnd,
            place: at,
            next: at,
        }),
    }
}

// The place of the LF that ends the command at the place: the first, followed by NUL, both near enough.
fn ending(job: &[u8], at: usize) -> Result<usize, ReadFault>
    requires { at < length job.now }
    ensures answer { result ≡ ending_at job.now at }
    ensures within { IfOk result (λ end. at ≤ end × end < length job.now) }
{
    let window = first(rest_at(job, at), LONGEST_COMMAND);
    let line = count_before(window, LF);
    if !stands_at(window, line + 1, NUL) {
        return Err(ReadFault {
            refusal: ReadRefusal::NoEnding,
            place: at,
            next: next_escape(job, at),
        });
    }
    Ok(at + line)
}

// The place of the LF that ends the command at a place, once the bounds and the ESC are tested.
fn end_of(job: &[u8], at: usize) -> Result<usize, ReadFault>
    ensures answer { result ≡ end_at job.now at }
    ensures within { IfOk result (λ end. at ≤ end × end < length job.now) }
{
    check_bounds(job, at)?;
    begin(job, at)?;
    ending(job, at)
}

/// The command at a place or why there is none, and the place where reading goes on.
// Kept so: command and place as one answer of a function within would move a command of 400 bytes once more.
pub fn read<'a>(job: &'a [u8], at: usize) -> (Result<Command<'a>, ReadFault>, usize)
    ensures answer { seen_answer result.0 ≡ answer_of (read_at job.now at) }
    ensures next { result.1 ≡ next_of (read_at job.now at) }
{
    match end_of(job, at) {
        Ok(end) => (parse(first(job, end), at, at + 1, end + 2), end + 2),
        Err(fault) => (Err(fault), fault.next),
    }
}
