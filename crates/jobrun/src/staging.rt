// One step of a job: the next tag that is owed or, with none owed, the next command.
ghost use Rattle.std.specs.Prelude.{◌≡◌, ℕ, List};
ghost use Rattle.jobrun.specs.Stages.{Staged, Tagging, Sending, Again, moment, ends};

use crate::stage::Stage;
use faults::{Fault, Refusal};
use station::machine::Machine;
use station::sizes::WORK_BYTES;

// Whether a job is over at a fault: the job's bounds, the buffers or the job's end.
fn is_last(fault: &Fault) -> bool
    ensures { result ≡ ends fault.now }
{
    matches!(
        fault.refusal,
        Refusal::JobBounds | Refusal::ShortBuffer | Refusal::JobEnd
    )
}

// Kept so: the buffers are the caller's, as the call from C lends them; a struct of two `&mut` would be made anew
// at each call.

// The command at a place.
fn send<M: Machine>(
    station: &mut M,
    job: &[u8],
    at: usize,
    answer: &mut [u8],
    work: &mut [u8],
) -> Stage
    ensures { let d = moment (M.view station.old) answer.old work.old in
        Sending job.now at d result (moment (M.view station.new) answer.new work.new) }
{
    match station.command(job, at, answer, work) {
        Ok(next) => Stage::Done(next),
        Err(fault) if is_last(&fault) => Stage::Ended(fault),
        Err(fault) => Stage::Refused(fault),
    }
}

// A tag from new stock.
fn print_again<M: Machine>(station: &mut M, work: &mut [u8]) -> Stage
    ensures { (answer : List ℕ) →
        let d = moment (M.view station.old) answer work.old in
        Again d result (moment (M.view station.new) answer work.new) }
{
    station.reload();
    match station.print(work) {
        Ok(n) => Stage::Tag(n),
        Err(fault) => Stage::NoStock(fault),
    }
}

/// One step at a place of a job. A tag that is owed comes before the next command, and new stock where the printer
/// is out.
pub fn step<M: Machine>(
    station: &mut M,
    job: &[u8],
    at: usize,
    answer: &mut [u8],
    work: &mut [u8],
) -> Stage
    ensures { let d = moment (M.view station.old) answer.old work.old in
        Staged job.now at d result (moment (M.view station.new) answer.new work.new) }
{
    if station.owed() == 0 || work.len() < WORK_BYTES {
        return send(station, job, at, answer, work);
    }
    match station.print(work) {
        Ok(n) => Stage::Tag(n),
        Err(_) => print_again(station, work),
    }
}
