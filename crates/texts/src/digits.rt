// The counting rules whose wheels are digits: plain texts, and texts of Code 128.
ghost use Rattle.std.specs.Prelude.{◌≡◌, ℕ, Bool, List, slice_index};
ghost use Rattle.texts.specs.Digits.{digit_wheels, plain_place, after_mark, code128_place};
ghost use Rattle.texts.specs.DigitWheels.{Tests, digits_lawful, plain_tests, code128_tests};

use crate::rule::CountingRule;
use limits::bytes::is_digit;

/// A rule whose wheels are digits, by which digits they are. specs/DigitWheels.antt has what such a test may see.
pub trait DigitRule {
    ghost wheel: { Self → List ℕ → ℕ → Bool };

    fn is_wheel(&self, text: &[u8], place: usize) -> bool
        ensures { result ≡ wheel self.now text.now place };

    ghost tests: { (r : Self) → Tests (wheel r) };
}

/// Every digit is a wheel.
#[derive(Clone, Copy)]
pub struct PlainRule;

/// Every digit is a wheel, but one just after `>`, which is a code there.
#[derive(Clone, Copy)]
pub struct Code128Rule;

// The byte at a place, 0 past the end.
fn byte_at(text: &[u8], place: usize) -> u8
    ensures { result ≡ slice_index text.now place }
{
    text.get(place).copied().unwrap_or(0)
}

fn is_after_mark(text: &[u8], place: usize) -> bool
    ensures { result ≡ after_mark text.now place }
{
    place > 0 && byte_at(text, place - 1) == b'>'
}

impl DigitRule for PlainRule {
    ghost wheel = { λ _. plain_place };

    ghost tests = { λ _. plain_tests };

    fn is_wheel(&self, text: &[u8], place: usize) -> bool {
        is_digit(byte_at(text, place))
    }
}

impl DigitRule for Code128Rule {
    ghost wheel = { λ _. code128_place };

    ghost tests = { λ _. code128_tests };

    fn is_wheel(&self, text: &[u8], place: usize) -> bool {
        !is_after_mark(text, place) && PlainRule.is_wheel(text, place)
    }
}

impl<D: DigitRule> CountingRule for D {
    ghost wheels = { λ r. digit_wheels (D.wheel r) };

    ghost lawful = { λ r. digits_lawful (D.wheel r) (D.tests r) };

    fn radix(&self, text: &[u8], place: usize) -> u8 {
        if self.is_wheel(text, place) { 10 } else { 1 }
    }

    fn value(&self, text: &[u8], place: usize) -> u8 {
        if !self.is_wheel(text, place) {
            return 0;
        }
        byte_at(text, place) - b'0'
    }

    fn byte(&self, text: &[u8], place: usize, value: u8) -> u8 {
        if value < 10 && self.is_wheel(text, place) {
            b'0' + value
        } else {
            byte_at(text, place)
        }
    }

    // The byte of a digit's value is the digit, so every wheel has the byte of its value already.
    fn rewrite(&self, _text: &mut [u8], _places: usize) {}
}
