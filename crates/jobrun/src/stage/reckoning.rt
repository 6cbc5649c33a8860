// Where a job stands after a step.
ghost use Rattle.std.specs.Prelude.{◌≡◌};
ghost use Rattle.jobrun.specs.Jobs.{is_last, place_after, tag_in};

use super::Stage;

impl Stage {
    // Whether the job is over.
    pub fn is_last(&self) -> bool
        ensures { result ≡ is_last self.now }
    {
        matches!(self, Stage::Ended(_) | Stage::NoStock(_))
    }

    // The place where the job goes on after a step at a place.
    pub fn place_after(&self, at: usize) -> usize
        ensures { result ≡ place_after self.now at }
    {
        match self {
            Stage::Done(next) => *next,
            Stage::Refused(fault) => fault.next,
            Stage::Tag(_) | Stage::Ended(_) | Stage::NoStock(_) => at,
        }
    }

    // The tags that the printer took.
    pub fn tags(&self) -> u32
        ensures { result ≡ tag_in self.now }
    {
        match self {
            Stage::Tag(_) => 1,
            Stage::Done(_) | Stage::Refused(_) | Stage::Ended(_) | Stage::NoStock(_) => 0,
        }
    }
}
