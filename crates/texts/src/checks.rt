// Check characters: modulus 10 as GS1 defines it, modulus 43 as ISO/IEC 16388 does.
ghost use Rattle.std.specs.Prelude.{◌≡◌, ◌<◌, ◌≤◌, length};
ghost use Rattle.texts.specs.Checks.{value10, value43, character43, check_sum, check_character, admits43, admits_all};
ghost use Rattle.limits.specs.Limits.{longest_text};
ghost use Rattle.std.specs.Option.{option_to_list};
ghost use Rattle.texts.specs.Contents.{contents};

use crate::text::Text;
use limits::bytes::is_digit;

/// How a text is checked; the check character is appended when the text is finished, and never kept in it.
// Kept so: no check is one of the three that a format names, and an Option of the other two would have no methods.
#[derive(Clone, Copy, PartialEq, Eq, Debug)]
pub enum Check {
    NoCheck,
    Modulus10,
    Modulus43,
}

// The value of each digit, at its character; 0 for any other character.
const VALUES_10: [u8; 256] = [
    0, 0, 0, 0, 0, 0, 0, 0, 0, 0, 0, 0, 0, 0, 0, 0, 0, 0, 0, 0, 0, 0, 0, 0, 0, 0, 0, 0, 0, 0, 0, 0,
    0, 0, 0, 0, 0, 0, 0, 0, 0, 0, 0, 0, 0, 0, 0, 0, 0, 1, 2, 3, 4, 5, 6, 7, 8, 9, 0, 0, 0, 0, 0, 0,
    0, 0, 0, 0, 0, 0, 0, 0, 0, 0, 0, 0, 0, 0, 0, 0, 0, 0, 0, 0, 0, 0, 0, 0, 0, 0, 0, 0, 0, 0, 0, 0,
    0, 0, 0, 0, 0, 0, 0, 0, 0, 0, 0, 0, 0, 0, 0, 0, 0, 0, 0, 0, 0, 0, 0, 0, 0, 0, 0, 0, 0, 0, 0, 0,
    0, 0, 0, 0, 0, 0, 0, 0, 0, 0, 0, 0, 0, 0, 0, 0, 0, 0, 0, 0, 0, 0, 0, 0, 0, 0, 0, 0, 0, 0, 0, 0,
    0, 0, 0, 0, 0, 0, 0, 0, 0, 0, 0, 0, 0, 0, 0, 0, 0, 0, 0, 0, 0, 0, 0, 0, 0, 0, 0, 0, 0, 0, 0, 0,
    0, 0, 0, 0, 0, 0, 0, 0, 0, 0, 0, 0, 0, 0, 0, 0, 0, 0, 0, 0, 0, 0, 0, 0, 0, 0, 0, 0, 0, 0, 0, 0,
    0, 0, 0, 0, 0, 0, 0, 0, 0, 0, 0, 0, 0, 0, 0, 0, 0, 0, 0, 0, 0, 0, 0, 0, 0, 0, 0, 0, 0, 0, 0, 0,
];

// What a character counts for in modulus 10; 0 for one outside the set.
fn value_10(b: u8) -> u8
    ensures value { result ≡ value10 b }
    ensures small { result < 10 }
{
    VALUES_10[usize::from(b)]
}

// The characters of modulus 43, each at its value.
const CHARACTERS_43: &[u8; 43] = b"0123456789ABCDEFGHIJKLMNOPQRSTUVWXYZ-. $/+%";

// The value of each character of modulus 43, at the character; 0 for one outside the set.
const VALUES_43: [u8; 256] = [
    0, 0, 0, 0, 0, 0, 0, 0, 0, 0, 0, 0, 0, 0, 0, 0, 0, 0, 0, 0, 0, 0, 0, 0, 0, 0, 0, 0, 0, 0, 0, 0,
    38, 0, 0, 0, 39, 42, 0, 0, 0, 0, 0, 41, 0, 36, 37, 40, 0, 1, 2, 3, 4, 5, 6, 7, 8, 9, 0, 0, 0,
    0, 0, 0, 0, 10, 11, 12, 13, 14, 15, 16, 17, 18, 19, 20, 21, 22, 23, 24, 25, 26, 27, 28, 29, 30,
    31, 32, 33, 34, 35, 0, 0, 0, 0, 0, 0, 0, 0, 0, 0, 0, 0, 0, 0, 0, 0, 0, 0, 0, 0, 0, 0, 0, 0, 0,
    0, 0, 0, 0, 0, 0, 0, 0, 0, 0, 0, 0, 0, 0, 0, 0, 0, 0, 0, 0, 0, 0, 0, 0, 0, 0, 0, 0, 0, 0, 0, 0,
    0, 0, 0, 0, 0, 0, 0, 0, 0, 0, 0, 0, 0, 0, 0, 0, 0, 0, 0, 0, 0, 0, 0, 0, 0, 0, 0, 0, 0, 0, 0, 0,
    0, 0, 0, 0, 0, 0, 0, 0, 0, 0, 0, 0, 0, 0, 0, 0, 0, 0, 0, 0, 0, 0, 0, 0, 0, 0, 0, 0, 0, 0, 0, 0,
    0, 0, 0, 0, 0, 0, 0, 0, 0, 0, 0, 0, 0, 0, 0, 0, 0, 0, 0, 0, 0, 0, 0, 0, 0, 0, 0, 0, 0, 0, 0, 0,
    0, 0, 0, 0, 0, 0, 0, 0, 0, 0, 0, 0,
];

// What a character counts for in modulus 43; 0 for one outside the set.
fn value_43(b: u8) -> u8
    ensures value { result ≡ value43 b }
    ensures small { result < 43 }
{
    VALUES_43[usize::from(b)]
}

// A character of the set: it counts for something, or it is the one that counts for 0.
fn is_in_set_43(b: u8) -> bool
    ensures { result ≡ admits43 b }
{
    value_43(b) != 0 || b == b'0'
}

// The character that counts for a value.
fn character_43(v: u8) -> u8
    requires { v < 43 }
    ensures { result ≡ character43 v }
{
    CHARACTERS_43[usize::from(v)]
}

// The sum of modulus 10: of the digits with an even number of digits behind them three times, of the others once.
fn sum_10(text: &[u8]) -> u32
    requires { length text.now ≤ longest_text }
    ensures { result ≡ check_sum Check.Modulus10 text.now }
{
    let mut thrice = 0;
    let mut once = 0;
    for b in text {
        let digit = u32::from(value_10(*b));
        (thrice, once) = (once + digit, thrice);
    }
    3 * thrice + once
}

fn sum_43(text: &[u8]) -> u32
    requires { length text.now ≤ longest_text }
    ensures { result ≡ check_sum Check.Modulus43 text.now }
{
    let mut sum = 0;
    for b in text {
        sum += u32::from(value_43(*b));
    }
    sum
}

impl Check {
    /// The check character of a text; none where nothing is checked.
    pub fn character(self, text: &Text) -> Option<u8>
        ensures { option_to_list result ≡ check_character self (contents text.now) }
    {
        let bytes = text.as_bytes();
        match self {
            Check::NoCheck => None,
            Check::Modulus10 => Some(b'0' + ((10 - sum_10(bytes) % 10) % 10) as u8),
            Check::Modulus43 => Some(character_43((sum_43(bytes) % 43) as u8)),
        }
    }

    /// All characters of the text are of the check's set.
    pub fn admits(self, text: &[u8]) -> bool
        ensures { result ≡ admits_all self text.now }
    {
        match self {
            Check::NoCheck => true,
            Check::Modulus10 => text.iter().all(|b| is_digit(*b)),
            Check::Modulus43 => text.iter().all(|b| is_in_set_43(*b)),
        }
    }
}
