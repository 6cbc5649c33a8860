// Why a printer refuses.
ghost use Rattle.std.specs.Prelude.{◌≡◌};
ghost use Rattle.faults.specs.declared.Refusal.TheVariants.{OutOfStock as Told};

use faults::Refusal;

/// No stock is left; a line that no tag can have is refused alike.
#[derive(Clone, Copy, PartialEq, Eq, Debug)]
pub enum PrinterFault {
    OutOfStock,
}

impl From<PrinterFault> for Refusal {
    ghost from_gives = { λ _ r. r ≡ Told };

    fn from(why: PrinterFault) -> Refusal {
        match why {
            PrinterFault::OutOfStock => Refusal::OutOfStock,
        }
    }
}
