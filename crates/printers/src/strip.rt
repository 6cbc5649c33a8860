// A strip: lines written one behind the other into borrowed bytes, begun over at each reload.
ghost use Rattle.std.specs.Prelude.{◌≡◌, ◌<◌, ◌≤◌, length, slice_range, MatchResult};
ghost use Rattle.limits.specs.Limits.{longest_line};
ghost use Rattle.faults.specs.Places.{unplaced};
ghost use Rattle.faults.specs.declared.Refusal.TheVariants.{ShortBuffer};
ghost use Rattle.printers.specs.Paper.{take_answer, after_take, reloaded};
ghost use Rattle.printers.specs.Strips.{StripSeen, IsStrip, fresh, strip_paper, strip_worn, strip_again, strip_taken, strip_reloaded};
ghost use Rattle.std.proofs.Common.{rules};

use crate::fault::PrinterFault;
use crate::printer::Printer;
use faults::{Fault, Refusal, unplaced};
use limits::sizes::{LAST_TAG, LONGEST_LINE};
use std::marker::Model;

// Where a line lies in the bytes.
#[derive(Clone, Copy)]
struct Extent {
    start: usize,
    end: usize,
}

/// A strip over 1,354 bytes or more. Its latest line is looked up in them.
// Kept so: a closed strip still has its written bytes, so `used` and `closed` are no Option.
#[derive(Drop)]
pub struct Strip<'a> {
    bytes: &'a mut [u8],
    used: usize,
    taken: u64,
    latest: Extent,
    closed: bool, // by a reload once the last tag of all was taken: no stock, although bytes are free
}

impl<'a> Model for Strip<'a> {
    ghost Value = { StripSeen };

    ghost view = { λ s.
        let latest = slice_range s.bytes.now s.latest.start s.latest.end in
        record {
          bytes = s.bytes.now;
          used = s.used;
          taken = s.taken;
          latest = latest;
          closed = s.closed;
        } };

    ghost invariant = { λ s. IsStrip s.bytes.now s.used s.taken s.latest.start s.latest.end };
}

impl<'a> Strip<'a> {
    /// A strip over the bytes lent; refused where the longest line has no room.
    pub fn new(bytes: &'a mut [u8]) -> Result<Strip<'a>, Fault>
        ensures { let size = length bytes.old in
            MatchResult result
            (λ s. (longest_line ≤ size) × (s ≡ fresh bytes.old))
            (λ e. (size < longest_line) × (e ≡ unplaced ShortBuffer)) }
    {
        if bytes.len() < LONGEST_LINE {
            return Err(unplaced(Refusal::ShortBuffer));
        }
        Ok(Strip {
            bytes,
            used: 0,
            taken: 0,
            latest: Extent { start: 0, end: 0 },
            closed: false,
        })
    }

    /// All bytes of the strip; lines of an earlier load stand behind the written ones.
    pub fn bytes(&self) -> &[u8]
        ensures { result.now ≡ self.now.bytes }
    {
        self.bytes // the free ones too
    }
}

impl Printer for Strip<'_> {
    ghost paper = { strip_paper };

    ghost left_after_take = { strip_worn };

    ghost left_after_reload = { strip_again };

    ghost takes = { λ r s line t. t ≡ strip_taken r s line };

    ghost reloads = { λ s t. t ≡ strip_reloaded s };

    ghost stocked = { Prim.search rules };

    fn taken(&self) -> u64 {
        self.taken // of all loads
    }

    fn left(&self) -> u64 {
        u64::from(!self.closed && self.bytes.len() - self.used >= LONGEST_LINE)
    }

    /// The line stands behind the lines of this load; all other bytes stay, and all stay at a refusal.
    fn take(&mut self, line: &[u8]) -> Result<(), PrinterFault>
        ensures answer { result ≡ take_answer (strip_paper self.old) (length line.now) }
        ensures after { let left = strip_worn self.old line.now in
            strip_paper self.new ≡ after_take result (strip_paper self.old) line.now left }
        ensures bytes { self.new ≡ strip_taken result self.old line.now }
    {
        if self.left() == 0 || line.is_empty() || line.len() > LONGEST_LINE {
            return Err(PrinterFault::OutOfStock);
        }
        let start = self.used;
        let end = start + line.len();
        self.bytes[start..end].copy_from_slice(line);
        self.used = end;
        self.taken += 1;
        self.latest = Extent { start, end };
        Ok(())
    }

    /// The next line is written at the front again; the bytes stay until then.
    fn reload(&mut self)
        ensures paper { let left = strip_again self.old in
            strip_paper self.new ≡ reloaded (strip_paper self.old) left }
        ensures bytes { self.new ≡ strip_reloaded self.old }
    {
        if self.taken < LAST_TAG {
            self.used = 0;
            self.closed = false;
        } else {
            self.closed = true;
        }
    }
}
