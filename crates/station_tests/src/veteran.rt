// A printer that has printed nearly all it ever can: two tags short of the last of all.
ghost use Rattle.std.specs.Prelude.{◌≡◌, ◌+◌, ◌-◌, ◌≤◌, cond, nat_lt, ⊤};
ghost use Rattle.std.proofs.Common.{rules};
ghost use Rattle.limits.specs.Limits.{last_tag};
ghost use Rattle.fixedvec.specs.Items.{items};

use fixedvec::FixedVec;
use limits::sizes::{LAST_TAG, LONGEST_LINE};
use printers::fault::PrinterFault;
use printers::printer::Printer;

// The tags that it still takes in all.
const SPARE: u64 = 2;

/// Its stock is one tag, at making and after a reload, and none once the last tag of all is taken.
#[derive(Drop)]
pub struct Veteran {
    used: u64,
    left: u64,
    latest: FixedVec<u8, LONGEST_LINE>,
    ghost few: { used + left ≤ 2 },
}

impl Veteran {
    pub fn new() -> Veteran
        ensures used { result.used ≡ 0 }
        ensures left { result.left ≡ 1 }
    {
        Veteran {
            used: 0,
            left: 1,
            latest: FixedVec::new(0),
        }
    }
}

impl Printer for Veteran {
    ghost paper = { λ p. record { taken = last_tag - 2 + p.used; left = p.left; latest = items p.latest } };

    ghost left_after_take = { λ p _. p.left - 1 };

    ghost left_after_reload = { λ p. cond (nat_lt p.used 2) 1 0 };

    ghost takes = { λ _ _ _ _. ⊤ };

    ghost reloads = { λ _ _. ⊤ };

    ghost stocked = { Prim.search rules };

    fn taken(&self) -> u64 {
        LAST_TAG - SPARE + self.used
    }

    fn left(&self) -> u64 {
        self.left
    }

    fn take(&mut self, line: &[u8]) -> Result<(), PrinterFault> {
        if self.left == 0 || line.is_empty() {
            return Err(PrinterFault::OutOfStock);
        }
        self.latest = FixedVec::from_slice(0, line).or(Err(PrinterFault::OutOfStock))?;
        self.left -= 1;
        self.used += 1;
        Ok(())
    }

    fn reload(&mut self) {
        self.left = if self.used < SPARE { 1 } else { 0 };
    }
}
