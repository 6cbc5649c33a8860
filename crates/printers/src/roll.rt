// A roll of tags, full at making and at each reload.
ghost use Rattle.std.specs.Prelude.{◌≡◌, ◌+◌, ◌-◌, ◌≤◌, true, false, length, MatchResult};
ghost use Rattle.limits.specs.Bytes.{between};
ghost use Rattle.limits.specs.Limits.{largest_roll, last_tag};
ghost use Rattle.faults.specs.Places.{unplaced};
ghost use Rattle.faults.specs.declared.Refusal.TheVariants.{ShortBuffer};
ghost use Rattle.printers.specs.Paper.{unused, take_answer, after_take, reloaded};
ghost use Rattle.std.proofs.Common.{rules};

use crate::fault::PrinterFault;
use crate::printer::Printer;
use crate::tally::Tally;
use faults::{Fault, Refusal, unplaced};
use limits::sizes::{LARGEST_ROLL, LAST_TAG};

/// A roll of 1 to 1,000,000 tags.
#[derive(Clone, Copy)]
pub struct Roll {
    tally: Tally,
    size: u64,
    left: u64,
    ghost some: { 1 ≤ size },
    ghost small: { size ≤ largest_roll },
    ghost loaded: { left ≤ size },
    ghost few: { tally.taken + left ≤ last_tag + largest_roll },
}

impl Roll {
    ghost use Rattle.printers.specs.Rolls.{roll_paper};

    /// A full roll of `size` tags; refused outside 1 to 1,000,000.
    pub fn new(size: u64) -> Result<Roll, Fault>
        ensures { let fits = between 1 largest_roll size in
            MatchResult result
            (λ p. (fits ≡ true) × (roll_paper p ≡ unused size) × (p.size ≡ size))
            (λ e. (fits ≡ false) × (e ≡ unplaced ShortBuffer)) }
    {
        if !(1..=LARGEST_ROLL).contains(&size) {
            return Err(unplaced(Refusal::ShortBuffer));
        }
        Ok(Roll {
            tally: Tally::new(),
            size,
            left: size,
        })
    }

    /// The line of the tag taken last; empty before any.
    pub fn latest(&self) -> &[u8]
        ensures { result.now ≡ (roll_paper self.now).latest }
    {
        self.tally.latest()
    }
}

impl Printer for Roll {
    ghost use Rattle.printers.specs.Rolls.{roll_paper, roll_again};

    ghost paper = { roll_paper };

    ghost left_after_take = { λ r _. r.left - 1 };

    ghost left_after_reload = { roll_again };

    ghost takes = { λ _ r _ s. s.size ≡ r.size };

    ghost reloads = { λ r s. s.size ≡ r.size };

    ghost stocked = { Prim.search rules };

    fn taken(&self) -> u64 {
        self.tally.taken()
    }

    fn left(&self) -> u64 {
        self.left
    }

    /// The roll stays as large as it was made, so a later reload is full again.
    fn take(&mut self, line: &[u8]) -> Result<(), PrinterFault>
        ensures answer { result ≡ take_answer (roll_paper self.old) (length line.now) }
        ensures after { let left = self.old.left - 1 in
            roll_paper self.new ≡ after_take result (roll_paper self.old) line.now left }
        ensures size { self.new.size ≡ self.old.size }
    {
        if self.left == 0 {
            return Err(PrinterFault::OutOfStock);
        }
        self.tally.note(line)?;
        self.left -= 1;
        Ok(())
    }

    fn reload(&mut self)
        ensures paper { roll_paper self.new ≡ reloaded (roll_paper self.old) (roll_again self.old) }
        ensures size { self.new.size ≡ self.old.size }
    {
        if self.tally.taken() < LAST_TAG {
            self.left = self.size;
        } else {
            self.left = 0;
        }
    }
}
