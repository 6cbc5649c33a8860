// The status answer.
ghost use Rattle.std.specs.Prelude.{◌≡◌, ◌≤◌, ◌++◌, length, drop};
ghost use Rattle.station.specs.Status.{answer_for, status_characters};
ghost use Rattle.station.specs.Steps.{answer_bytes};

use crate::sizes::ANSWER_BYTES;
use tagline::digits::digits;

// Nothing owed; labels owed and no stock left; labels owed.
fn characters(owed: u16, left: u64) -> [u8; 2]
    ensures { result ≡ status_characters owed left }
{
    if owed == 0 {
        *b"00"
    } else if left == 0 {
        *b"13"
    } else {
        *b"02"
    }
}

// Writes the answer into the front of the buffer; bytes behind it stay.
pub(crate) fn tell(owed: u16, left: u64, answer: &mut [u8])
    requires { answer_bytes ≤ length answer.old }
    ensures { answer.new ≡ answer_for owed left ++ drop answer_bytes answer.old }
{
    let [high, low] = characters(owed, left);
    let [d3, d2, d1, d0] = digits::<4>(usize::from(owed));
    let told = [1, 2, high, low, b'1', d3, d2, d1, d0, 3, 4, b'\r', b'\n'];
    answer[..ANSWER_BYTES].copy_from_slice(&told);
}
