// How a store's fault is told to the outside.
ghost use Rattle.std.specs.Prelude.{◌≡◌};
ghost use Rattle.stores.specs.Refusals.{refusal_of};

use crate::answers::StoreFault;
use faults::Refusal;

impl From<StoreFault> for Refusal {
    ghost from_gives = { λ e r. r ≡ refusal_of e };

    fn from(why: StoreFault) -> Refusal {
        match why {
            StoreFault::NoForm => Refusal::NoSuchForm,
            StoreFault::TooLong => Refusal::FormTooLong,
            StoreFault::Full => Refusal::StoreFull,
        }
    }
}
