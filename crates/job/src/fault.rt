// What the reader refuses, as a fault of its own that turns into a station's.
ghost use Rattle.std.specs.Prelude.{◌≡◌};
ghost use Rattle.job.specs.Reading.{refusal_of, fault_of};

use faults::{Fault, Refusal};
use jobparts::part::ReadRefusal;

/// A refusal with its place and the place where reading goes on.
#[derive(Clone, Copy, PartialEq, Eq, Debug)]
pub struct ReadFault {
    pub refusal: ReadRefusal,
    pub place: usize,
    pub next: usize,
}

// The same among the refusals of a station.
impl From<ReadFault> for Refusal {
    ghost from_gives = { λ e r. r ≡ refusal_of e.refusal };

    fn from(e: ReadFault) -> Refusal {
        match e.refusal {
            ReadRefusal::OutOfBounds => Refusal::JobBounds,
            ReadRefusal::AtEnd => Refusal::JobEnd,
            ReadRefusal::NoEscape => Refusal::NoEscape,
            ReadRefusal::NoEnding => Refusal::NoEnding,
            ReadRefusal::UnknownLetters => Refusal::UnknownLetters,
            ReadRefusal::WrongByte => Refusal::WrongByte,
            ReadRefusal::NotAdmitted => Refusal::NotAdmitted,
        }
    }
}

impl From<ReadFault> for Fault {
    ghost from_gives = { λ e r. r ≡ fault_of e };

    fn from(e: ReadFault) -> Fault {
        Fault {
            refusal: e.into(),
            form: 0,
            place: e.place,
            next: e.next,
        }
    }
}
