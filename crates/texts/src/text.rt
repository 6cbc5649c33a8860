// A text: at most forty bytes from 20H to 7EH, none a comma.
ghost use Rattle.fixedvec.specs.Items.{items};
ghost use Rattle.texts.specs.Plain.{IsText, InTextBelow, FirstBad};
ghost use Rattle.std.specs.Prelude.{◌≡◌, true, length, IfSome, IfNone};

use crate::checks::Check;
use crate::finished::{Finished, write_finished};
use crate::rule::CountingRule;
use crate::turn::turn_wheels;
use fixedvec::FixedVec;
use limits::bytes::is_in_text;
use limits::sizes::{LONGEST_FINISHED, LONGEST_TEXT};

#[derive(Clone, Copy)]
pub struct Text {
    bytes: FixedVec<u8, LONGEST_TEXT>,
    ghost plain: { IsText (items bytes) },
}

/// Why bytes make no text.
#[derive(Clone, Copy, PartialEq, Eq, Debug)]
pub enum TextFault {
    /// The place of the first byte that no text may hold.
    BadByte(usize),
    TooLong,
}

// All bytes may stand in a text.
// Kept so: a scan that does not stop at the first other byte takes many bytes at a time.
fn are_in_text(s: &[u8]) -> bool
    ensures { result ≡ true → InTextBelow s.now (length s.now) }
{
    let mut all = true;
    for b in s {
        all &= is_in_text(*b);
    }
    all
}

// The place of the first byte that no text may hold.
fn first_outside(s: &[u8]) -> Option<usize>
    ensures outside { IfSome result (FirstBad s.now) }
    ensures inside { IfNone result (InTextBelow s.now (length s.now)) }
{
    if are_in_text(s) {
        return None;
    }
    s.iter().position(|b| !is_in_text(*b))
}

impl Text {
    ghost use Rattle.std.specs.Prelude.{◌<◌, ◌≤◌, [], ◌++◌, ◌==◌};
    ghost use Rattle.limits.specs.Limits.{longest_text, longest_finished};
    ghost use Rattle.texts.specs.Checks.{admits_all};
    ghost use Rattle.texts.specs.declared.checks.Check.{Check};
    ghost use Rattle.texts.specs.Contents.{contents, Made};
    ghost use Rattle.texts.specs.Finishing.{finished_text, PutIfRoom};
    ghost use Rattle.texts.specs.Joining.{Fits};
    ghost use Rattle.texts.specs.Printed.{printed};
    ghost use Rattle.texts.specs.Turning.{Turned};

    /// The text without bytes, which counts as no text.
    pub fn empty() -> Text
        ensures { contents result ≡ [] }
    {
        Text {
            bytes: FixedVec::new(0),
        }
    }

    // Kept so: a plain function, as std's from_utf8; a TryFrom<&[u8]> would say the same in a name that tells less.
    pub fn from_bytes(s: &[u8]) -> Result<Text, TextFault>
        ensures { Made s.now result }
    {
        if let Some(place) = first_outside(s) {
            return Err(TextFault::BadByte(place));
        }
        let bytes = FixedVec::from_slice(0, s).map_err(|_| TextFault::TooLong)?;
        Ok(Text { bytes })
    }

    pub fn is_empty(&self) -> bool
        ensures { result ≡ (length (contents self.now) == 0) }
    {
        self.bytes.is_empty()
    }

    pub fn as_bytes(&self) -> &[u8]
        ensures value { result.now ≡ contents self.now }
        ensures short { length result.now ≤ longest_text }
    {
        self.bytes.as_slice()
    }

    /// The text with another behind it; none where that is too long for a text.
    pub fn joined(&self, more: &Text) -> Option<Text>
        ensures { Fits (contents self.now ++ contents more.now) result }
    {
        let mut bytes = self.bytes;
        bytes.extend(more.as_bytes()).ok()?;
        Some(Text { bytes })
    }

    /// The text turned by a signed step: what its wheels spell goes on by it, round their cycle.
    pub fn turned<R: CountingRule>(&self, rule: &R, step: i64) -> Text
        ensures turned { let wheels = R.CountingRule.wheels rule.now in
            Turned wheels (contents self.now) step (contents result) }
        ensures admitted { (c : Check)
            → admits_all c (contents self.now) ≡ true → admits_all c (contents result) ≡ true }
    {
        let n = self.bytes.len();
        let mut cells = self.bytes.to_array();
        turn_wheels(rule, &mut cells[..n], step);
        Text {
            bytes: FixedVec::of_front(cells, n),
        }
    }

    /// What is printed of the text: its check character behind it, then zero suppression that keeps `kept` places.
    pub fn finished(&self, check: Check, kept: Option<u8>) -> Finished
        ensures { printed result ≡ finished_text check kept (contents self.now) }
    {
        Finished::of(self, check, kept)
    }

    /// Writes what is printed of the text into the front of `out`, and answers how many bytes that is; none where `out`
    /// could not hold the longest finished text.
    pub fn write_finished(&self, check: Check, kept: Option<u8>, out: &mut [u8]) -> Option<usize>
        ensures written { let finished = finished_text check kept (contents self.now) in
            PutIfRoom longest_finished finished out.old out.new result }
        ensures short { IfSome result (λ n. n ≤ longest_finished) }
    {
        if out.len() < LONGEST_FINISHED {
            return None;
        }
        Some(write_finished(self, check, kept, out))
    }
}
