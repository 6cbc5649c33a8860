// The interface of every printer. Its meaning is `paper`; only the stock is left to the kind, which names it by
// `left_after_take` and `left_after_reload`.
ghost use Rattle.std.specs.Prelude.{◌≡◌, ℕ, List, length, Result};
ghost use Rattle.printers.specs.Paper.{Paper, Stocked, take_answer, after_take, reloaded};
ghost use Rattle.printers.specs.declared.fault.PrinterFault.{PrinterFault as Fault};

use crate::fault::PrinterFault;

/// A printer takes finished tags, one line each. Nothing is asked of a caller: a line of any length is answered.
pub trait Printer {
    ghost paper: { Self → Paper };

    // The stock that a take of a line leaves.
    ghost left_after_take: { Self → List ℕ → ℕ };

    // The stock that a reload leaves.
    ghost left_after_reload: { Self → ℕ };

    // All that a take, by its answer, and a reload make of a printer, beside its paper, as its kind has it.
    ghost takes: { Result (Unit {0}) Fault → Self → List ℕ → Self → Type 0 };

    ghost reloads: { Self → Self → Type 0 };

    /// The tags taken since the printer was made.
    fn taken(&self) -> u64
        ensures { result ≡ (paper self.now).taken };

    /// The stock that is left: tags are taken while it is above 0.
    fn left(&self) -> u64
        ensures { result ≡ (paper self.now).left };

    /// Takes one tag with its line of 1 to 1,354 bytes, if stock is left. A refusal changes nothing.
    fn take(&mut self, line: &[u8]) -> Result<(), PrinterFault>
        ensures answer { result ≡ take_answer (paper self.old) (length line.now) }
        ensures after { let left = left_after_take self.old line.now in
            paper self.new ≡ after_take result (paper self.old) line.now left }
        ensures kind { takes result self.old line.now self.new };

    /// Brings new stock, but none once 1,000,000,000 tags are taken.
    fn reload(&mut self)
        ensures after { paper self.new ≡ reloaded (paper self.old) (left_after_reload self.old) }
        ensures kind { reloads self.old self.new };

    ghost stocked: { (p : Self) → Stocked (paper p) (left_after_take p) (left_after_reload p) };
}
