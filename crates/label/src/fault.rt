// Why a label refuses a command.
ghost use Rattle.std.specs.Prelude.{◌≡◌};
ghost use Rattle.label.specs.Labels.{fault_of, refusal_of};

use faults::Refusal;
use fields::fault::FieldFault;

#[derive(Clone, Copy, PartialEq, Eq, Debug)]
pub enum LabelFault {
    Field(FieldFault),
    TooManyDrawings,
}

impl From<FieldFault> for LabelFault {
    ghost from_gives = { λ e r. r ≡ fault_of e };

    fn from(e: FieldFault) -> LabelFault {
        LabelFault::Field(e)
    }
}

impl From<LabelFault> for Refusal {
    ghost from_gives = { λ e r. r ≡ refusal_of e };

    fn from(e: LabelFault) -> Refusal {
        match e {
            LabelFault::Field(FieldFault::NoFormat) => Refusal::NoFormat,
            LabelFault::Field(FieldFault::FieldLinked) => Refusal::FieldLinked,
            LabelFault::Field(FieldFault::JoinedTooLong) => Refusal::JoinedTooLong,
            LabelFault::Field(FieldFault::OutsideCheck) => Refusal::OutsideCheck,
            LabelFault::TooManyDrawings => Refusal::TooManyDrawings,
        }
    }
}
