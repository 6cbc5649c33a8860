// One call of a run.
ghost use Rattle.std.specs.Prelude.{◌≡◌, length};
ghost use Rattle.station.specs.Steps.{Performed, command, print, answer_after, work_after, print_work, print_fault, next_line};
ghost use Rattle.ledger.specs.Log.{call_of, answer_left, work_left};

use crate::log::LentCall;
use station::machine::Machine;

// Kept so: the buffers are the caller's, who may lend any length of each; a struct of two `&mut` would be made anew
// at each call.

// A command; tells whether it was accepted.
fn send<M: Machine>(
    station: &mut M,
    job: &[u8],
    at: usize,
    answer: &mut [u8],
    work: &mut [u8],
) -> bool
    ensures step { let c = command job.now at (length answer.old) (length work.old) in
        Performed (M.view station.old) c result (M.view station.new) }
    ensures answer { let v = M.view station.old in
        answer.new ≡ answer_after v job.now at answer.old (length work.old) }
    ensures work { let v = M.view station.old in
        work.new ≡ work_after v job.now at (length answer.old) work.old }
{
    station.command(job, at, answer, work).is_ok()
}

// A print; tells whether it was accepted.
fn tag<M: Machine>(station: &mut M, work: &mut [u8]) -> bool
    ensures step { let c = print (length work.old) in
        Performed (M.view station.old) c result (M.view station.new) }
    ensures work { let v = M.view station.old in
        work.new ≡ print_work (print_fault v (length work.old)) (next_line v) work.old }
{
    station.print(work).is_ok()
}

/// Any call, lent as many bytes of the buffers as it says, at most all; tells whether it was accepted.
pub fn perform<M: Machine>(
    station: &mut M,
    call: LentCall<'_>,
    answer: &mut [u8],
    work: &mut [u8],
) -> bool
    ensures step { let c = call_of (length answer.old) (length work.old) call.entry in
        Performed (M.view station.old) c result (M.view station.new) }
    ensures answer { let v = M.view station.old in
        answer.new ≡ answer_left v call.entry answer.old work.old }
    ensures work { let v = M.view station.old in
        work.new ≡ work_left v call.entry answer.old work.old }
{
    match call {
        LentCall::Command {
            job,
            at,
            answer: lent,
            work: room,
        } => {
            let a = lent.min(answer.len());
            let w = room.min(work.len());
            send(station, job, at, &mut answer[..a], &mut work[..w])
        }
        LentCall::Print { work: room } => {
            let w = room.min(work.len());
            tag(station, &mut work[..w])
        }
        LentCall::Reload => {
            station.reload();
            true
        }
    }
}
