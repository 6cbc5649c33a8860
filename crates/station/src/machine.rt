// What a station is to those above it, whatever store, printer and counting rules it is made of.
ghost use Rattle.std.specs.Prelude.{◌≡◌, ℕ, List, length, if◌then◌else◌, MatchResult, Ok, Err};
ghost use Rattle.faults.specs.declared.Refusal.TheVariants.{ShortBuffer};
ghost use Rattle.label.specs.Labels.{label_picture};
ghost use Rattle.picture.specs.Picture.{shown, too_short};
ghost use Rattle.stores.specs.Forms.{Lawful};
ghost use Rattle.station.specs.Steps.{Reloaded, Commanded, commanded, answer_after, work_after, Printing, print_fault, print_work, next_line, fault_at};
ghost use Rattle.station.specs.Views.{View, IsNew, owed_by};

use faults::Fault;

pub trait Machine {
    // What a machine is made of.
    type Parts;

    ghost view: { Self → View };

    // What is seen of a machine that is made of these parts.
    ghost made_of: { Self.Parts → View };

    // What the taking of a line and a reload make of its printer, as the printer's kind has it; and that the
    // printer stays as it is.
    ghost takes: { Self → List ℕ → Self → Type 0 };

    ghost reloads: { Self → Self → Type 0 };

    ghost keeps: { Self → Self → Type 0 };

    /// A new machine.
    fn make(parts: Self::Parts) -> Self
        ensures { view result ≡ made_of parts };

    /// New stock for the printer; nothing else changes.
    fn reload(&mut self)
        ensures step { Reloaded (view self.old) (view self.new) }
        ensures printer { reloads self.old self.new };

    /// Does the command at a place of the job; answers the place behind it, or the fault.
    // Kept so: a till lends a job, a place and two buffers, of any length; a struct of the buffers would be made
    // anew at each call.
    fn command(
        &mut self,
        job: &[u8],
        at: usize,
        answer: &mut [u8],
        work: &mut [u8],
    ) -> Result<usize, Fault>
        ensures step { let v = view self.old in
            let came = commanded v job.now at (length answer.old) (length work.old) in
            Commanded came result v (view self.new) }
        ensures printer { keeps self.old self.new }
        ensures answer { let v = view self.old in
            answer.new ≡ answer_after v job.now at answer.old (length work.old) }
        ensures work { let v = view self.old in
            work.new ≡ work_after v job.now at (length answer.old) work.old };

    /// The labels that are owed.
    fn owed(&self) -> u16
        ensures { result ≡ owed_by (view self.now) };

    /// Hands the printer one tag's line and, only if it was taken, turns every text by its step; answers the
    /// line's length.
    fn print(&mut self, work: &mut [u8]) -> Result<usize, Fault>
        ensures step { Printing (view self.old) (length work.old) result (view self.new) }
        ensures printer { let line = next_line (view self.old) in
            MatchResult result (λ _. takes self.old line self.new) (λ _. keeps self.old self.new) }
        ensures work { let v = view self.old in
            work.new ≡ print_work (print_fault v (length work.old)) (next_line v) work.old };

    /// Fills the front of `dots` with the picture of the label; nothing of the machine changes.
    fn draw(&self, dots: &mut [u8]) -> Result<(), Fault>
        ensures answer { let short = Err (fault_at ShortBuffer 0 0 0) in
            result ≡ (if too_short dots.old then short else Ok tt) }
        ensures bytes { dots.new ≡ shown (label_picture (view self.now).label) dots.old };

    ghost new: { (p : Self.Parts) → IsNew (made_of p) };

    ghost lawful: { (s : Self) → Lawful (view s).forms };
}
