// What the checker hears of a job: its commands in turn, each with its refusal or none.
ghost use Rattle.std.specs.Prelude.{◌≡◌, ◌==◌};
ghost use Rattle.faults.specs.Numbers.{number_of};
ghost use Rattle.jobcheck.specs.Commands.{heard_of, Hears};

use faults::{Fault, Refusal};
use jobrun::listener::Listener;
use jobrun::stage::Stage;
use std::alloc::{AllocError, Global};

// A command at a place of the job, and why it is refused.
#[derive(Clone, Copy)]
pub(crate) struct Heard {
    pub(crate) at: usize,
    pub(crate) fault: Option<Fault>,
}

#[derive(Drop)]
pub(crate) struct Findings {
    // the place of the next command
    pub(crate) at: usize,
    pub(crate) heard: Vec<Heard>,
}

impl Findings {
    pub(crate) fn new(alloc: Global) -> Findings {
        Findings {
            at: 0,
            heard: Vec::new(alloc),
        }
    }

    pub(crate) fn has_refusal(&self) -> bool {
        self.heard.iter().any(|heard| heard.fault.is_some())
    }
}

// Whether a fault is the job's end, of which nothing is told.
fn is_end(fault: &Fault) -> bool
    ensures { result ≡ (number_of fault.now.refusal == 3) }
{
    fault.refusal == Refusal::JobEnd
}

// What a step of a job tells of the command at a place.
fn command_heard(stage: &Stage, at: usize) -> Option<Heard>
    ensures { result ≡ heard_of stage.now at }
{
    match stage {
        Stage::Done(_) => Some(Heard { at, fault: None }),
        Stage::Refused(fault) => Some(Heard {
            at,
            fault: Some(*fault),
        }),
        Stage::Ended(fault) => {
            if is_end(fault) {
                None
            } else {
                Some(Heard {
                    at,
                    fault: Some(*fault),
                })
            }
        }
        Stage::Tag(_) | Stage::NoStock(_) => None,
    }
}

impl Listener for Findings {
    type Failed = AllocError;

    ghost hears = { λ findings stage work after. Hears findings stage after };

    #[tactic(auto, using(crate::proofs::Adding::adds_none))]
    fn hear(&mut self, stage: &Stage, _work: &[u8]) -> Result<(), AllocError> {
        if let Some(heard) = command_heard(stage, self.at) {
            self.heard.push(heard)?;
        }
        self.at = stage.place_after(self.at);
        Ok(())
    }
}
