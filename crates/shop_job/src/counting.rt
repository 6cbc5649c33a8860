// How many tags a job prints, for whoever does not want to hear of them one by one.
ghost use Rattle.std.specs.Prelude.{◌≡◌, ⊤};
ghost use Rattle.shop_job.specs.Printing.{Told};

use crate::running::run_job;
use jobrun::listener::Listener;
use jobrun::stage::Stage;
use std::convert::Infallible;

// Hears nothing, and so never gives up.
#[derive(Drop)]
struct Silence;

impl Listener for Silence {
    type Failed = Infallible;

    ghost hears = { λ _ _ _ _. ⊤ };

    fn hear(&mut self, _stage: &Stage, _work: &[u8]) -> Result<(), Infallible> {
        Ok(())
    }
}

/// How many tags the program `tagrun` prints for a job. A job that is too long and buffers that are too short print
/// none.
pub fn count_tags(job: &[u8], answer: &mut [u8], work: &mut [u8]) -> u32
    ensures { Told job.now answer.old work.old result answer.new work.new }
{
    match run_job(job, answer, work, &mut Silence) {
        Ok(tags) => tags,
        Err(never) => match never {},
    }
}
