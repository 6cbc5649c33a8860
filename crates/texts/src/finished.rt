// A finished text: what is printed of a text, at most one byte longer than it.
ghost use Rattle.std.specs.Prelude.{◌≡◌, ◌≤◌, ◌++◌, length, Some};
ghost use Rattle.limits.specs.Limits.{longest_finished};
ghost use Rattle.texts.specs.Checks.{check_character};
ghost use Rattle.texts.specs.Contents.{contents};
ghost use Rattle.texts.specs.Finishing.{blanked, suppressed, finished_text, Put};
ghost use Rattle.texts.specs.Printed.{printed};

use crate::checks::Check;
use crate::text::Text;
use fixedvec::FixedVec;
use limits::sizes::LONGEST_FINISHED;

#[derive(Clone, Copy)]
pub struct Finished {
    bytes: FixedVec<u8, LONGEST_FINISHED>,
}

// The unbroken run of zeros at the front becomes spaces, within the first `places`.
fn blank_zeros(text: &mut [u8], places: usize)
    requires { places ≤ length text.old }
    ensures { text.new ≡ blanked places text.old }
{
    for b in &mut text[..places] {
        if *b != b'0' {
            return;
        }
        *b = b' ';
    }
}

// Zero suppression that keeps the last `kept` places.
fn suppress_zeros(text: &mut [u8], kept: u8)
    ensures { text.new ≡ suppressed (Some kept) text.old }
{
    if let Some(places) = text.len().checked_sub(usize::from(kept)) {
        blank_zeros(text, places);
    }
}

// Writes a text with its check character behind it into the front of `out`, and answers how many bytes that is.
fn write_checked(text: &Text, check: Check, out: &mut [u8]) -> usize
    requires { longest_finished ≤ length out.old }
    ensures written { let t = contents text.now in
        Put (t ++ check_character check t) out.old out.new result }
    ensures short { result ≤ longest_finished }
{
    let bytes = text.as_bytes();
    let n = bytes.len();
    out[..n].copy_from_slice(bytes);
    let Some(b) = check.character(text) else {
        return n;
    };
    out[n] = b;
    n + 1
}

// Writes a finished text into the front of `out`, and answers how many bytes that is.
pub(crate) fn write_finished(text: &Text, check: Check, kept: Option<u8>, out: &mut [u8]) -> usize
    requires { longest_finished ≤ length out.old }
    ensures written { Put (finished_text check kept (contents text.now)) out.old out.new result }
    ensures short { result ≤ longest_finished }
{
    let n = write_checked(text, check, out);
    if let Some(zz) = kept {
        suppress_zeros(&mut out[..n], zz);
    }
    n
}

impl Finished {
    pub fn as_bytes(&self) -> &[u8]
        ensures value { result.now ≡ printed self.now }
        ensures short { length result.now ≤ longest_finished }
    {
        self.bytes.as_slice()
    }

    pub(crate) fn of(text: &Text, check: Check, kept: Option<u8>) -> Finished
        ensures { printed result ≡ finished_text check kept (contents text.now) }
    {
        let mut cells = [0; LONGEST_FINISHED];
        let n = write_finished(text, check, kept, &mut cells);
        Finished {
            bytes: FixedVec::of_front(cells, n),
        }
    }
}
