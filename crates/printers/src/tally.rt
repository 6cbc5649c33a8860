// The record that a printer keeps of its tags: how many were taken, and the latest line.
ghost use Rattle.std.specs.Prelude.{◌≡◌, [], length};

use crate::fault::PrinterFault;
use fixedvec::FixedVec;
use limits::sizes::LONGEST_LINE;

/// Tags taken since the making, at most 2^64 - 1, and the line of the latest; it knows of no stock.
#[derive(Clone, Copy)]
pub struct Tally {
    taken: u64,
    latest: FixedVec<u8, LONGEST_LINE>,
}

impl Tally {
    ghost use Rattle.printers.specs.Tallies.{latest_of, note_answer, taken_after, latest_after};

    /// Nothing taken, and an empty latest line.
    pub fn new() -> Tally
        ensures taken { result.taken ≡ 0 }
        ensures latest { latest_of result ≡ [] }
    {
        Tally {
            taken: 0,
            latest: FixedVec::new(0),
        }
    }

    pub fn taken(&self) -> u64
        ensures { result ≡ self.now.taken }
    {
        self.taken // since the tally was made
    }

    /// The latest line; empty before any tag.
    pub fn latest(&self) -> &[u8]
        ensures { result.now ≡ latest_of self.now }
    {
        self.latest.as_slice()
    }

    /// Notes one more tag with its line of 1 to 1,354 bytes. Any other line is refused, and a refusal changes nothing.
    pub fn note(&mut self, line: &[u8]) -> Result<(), PrinterFault>
        ensures answer { result ≡ note_answer self.old.taken (length line.now) }
        ensures taken { self.new.taken ≡ taken_after result self.old.taken }
        ensures latest { latest_of self.new ≡ latest_after result (latest_of self.old) line.now }
    {
        if line.is_empty() || self.taken == u64::MAX {
            return Err(PrinterFault::OutOfStock);
        }
        self.latest.set(line).or(Err(PrinterFault::OutOfStock))?;
        self.taken += 1;
        Ok(())
    }
}
