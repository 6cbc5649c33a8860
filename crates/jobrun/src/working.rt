// A whole job on a new station, with what it prints on its contract.
ghost use Rattle.jobrun.specs.Stages.{moment};
ghost use Rattle.jobrun.specs.Hearing.{WorkedThrough};
ghost use Rattle.jobrun.specs.Outcomes.{OneOutcome};

use crate::listener::Listener;
use crate::staging::step;
use station::machine::Machine;

/// Makes a station and works through the job on it. The station comes back as it is then, with the number of tags
/// printed, or with why the listener gave up.
pub fn work_through<M: Machine, L: Listener>(
    parts: M::Parts,
    job: &[u8],
    answer: &mut [u8],
    work: &mut [u8],
    listener: &mut L,
) -> (M, Result<u32, L::Failed>)
    ensures accounted { let u = M.made_of parts in
        let e = moment (M.view result.0) answer.new work.new in
        let k = listener.old in
        WorkedThrough L.hears u job.now answer.old work.old k result.1 e listener.new }
    ensures one_outcome { OneOutcome }
{
    let mut station = M::make(parts);
    let mut at = 0;
    let mut tags = 0;
    loop {
        let stage = step(&mut station, job, at, answer, work);
        if let Err(why) = listener.hear(&stage, work) {
            return (station, Err(why));
        }
        if stage.is_last() {
            return (station, Ok(tags));
        }
        tags += stage.tags();
        at = stage.place_after(at);
    }
}
