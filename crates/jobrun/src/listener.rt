// Whoever wants to hear what a job does while it is done.
ghost use Rattle.std.specs.Prelude.{ℕ, List, OnOk};
ghost use Rattle.jobrun.specs.declared.stage.Stage.{Stage as StageSeen};

use crate::stage::Stage;

// Kept so: a closure in its place would be a requires of a public call.
pub trait Listener {
    // Why a listener gives up, which ends the job.
    type Failed;

    // What a listener becomes that hears of a step and of what the work buffer then holds.
    ghost hears: { Self → StageSeen → List ℕ → Self → Type 0 };

    // A step was made. After a tag the front of `work` has its line.
    fn hear(&mut self, stage: &Stage, work: &[u8]) -> Result<(), Self::Failed>
        ensures { OnOk result (hears self.old stage.now work.now self.new) };
}
