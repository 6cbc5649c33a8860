// The numbers that parts and options write. A reader lets no part through that has no meaning; here all bytes have one.
ghost use Rattle.std.specs.Prelude.{◌≡◌, ◌≤◌};
ghost use Rattle.jobparts.specs.Parts.{seen_option};
ghost use Rattle.jobvalues.specs.Meaning.{up_to, four_digit_number, two_digit_number, signed, step_of, kept_of};

use jobparts::bytes::{rest_at, stands_at};
use jobparts::part::Part;
use jobparts::values::number_of;

// The highest step, of ten digits.
const HIGHEST_STEP: u64 = 9_999_999_999;

fn up_to(bytes: &[u8], high: u64) -> u64
    ensures value { result ≡ up_to high bytes.now }
    ensures within { result ≤ high }
{
    number_of(bytes).min(high)
}

/// A number of up to four digits: a size or a place in tenths of a millimetre, dots, or labels.
pub fn four_digit_number(bytes: &[u8]) -> u16
    ensures { result ≡ four_digit_number bytes.now }
{
    up_to(bytes, 9999) as u16
}

/// A number of up to two digits.
pub fn two_digit_number(bytes: &[u8]) -> u8
    ensures { result ≡ two_digit_number bytes.now }
{
    up_to(bytes, 99) as u8
}

// A sign and ten digits.
fn signed(bytes: &[u8]) -> i64
    ensures { result ≡ signed bytes.now }
{
    let n = up_to(rest_at(bytes, 1), HIGHEST_STEP) as i64;
    if stands_at(bytes, 0, b'-') { -n } else { n }
}

/// A step that is not given is 0.
pub fn step_of(step: Option<Part<'_>>) -> i64
    ensures { result ≡ step_of (seen_option step.entry) }
{
    step.map_or(0, |part| signed(part.bytes))
}

/// The places that zero suppression keeps.
pub fn kept_of(kept: Option<Part<'_>>) -> Option<u8>
    ensures { result ≡ kept_of (seen_option kept.entry) }
{
    kept.map(|part| two_digit_number(part.bytes))
}
