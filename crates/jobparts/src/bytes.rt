// Looks at the bytes of a body from a place on, without taking them.
ghost use Rattle.std.specs.Prelude.{◌≡◌, ◌-◌, ◌≤◌, min, length, take, drop, nat_eq};
ghost use Rattle.jobparts.specs.Kinds.{of_kind, run, stands, is_sign};

use crate::part::ByteKind;
use limits::bytes::{is_capital, is_digit, is_in_text};

pub(crate) fn is_of_kind(b: u8, kind: ByteKind) -> bool
    ensures { result ≡ of_kind kind b }
{
    match kind {
        ByteKind::Digit => is_digit(b),
        ByteKind::Capital => is_capital(b),
        ByteKind::CapitalOrDigit => is_capital(b) || is_digit(b),
        ByteKind::Text => is_in_text(b),
    }
}

/// Whether a byte stands at the place.
pub fn stands_at(body: &[u8], at: usize, b: u8) -> bool
    ensures { result ≡ stands (nat_eq b) body.now at }
{
    body.get(at) == Some(&b)
}

// Whether a plus or a minus stands at the place.
pub(crate) fn sign_at(body: &[u8], at: usize) -> bool
    ensures { result ≡ stands is_sign body.now at }
{
    matches!(body.get(at), Some(b'+' | b'-'))
}

/// What is left of a body from a place on; nothing past its end.
pub fn rest_at<'a>(body: &'a [u8], at: usize) -> &'a [u8]
    ensures bytes { result.now ≡ drop at body.now }
    ensures len { length result.now ≡ length body.now - at }
{
    body.get(at..).unwrap_or(&[])
}

/// The first bytes, at most so many.
pub fn first<'a>(bytes: &'a [u8], most: usize) -> &'a [u8]
    ensures { result.now ≡ take most bytes.now }
{
    bytes.get(..most).unwrap_or(bytes)
}

// How many bytes at the front are of a kind, counted to `most`.
pub(crate) fn run_of(rest: &[u8], kind: ByteKind, most: usize) -> usize
    ensures count { result ≡ min most (run kind rest.now) }
    ensures within { result ≤ length rest.now }
{
    let counted = first(rest, most);
    counted.iter().take_while(|b| is_of_kind(**b, kind)).count()
}
