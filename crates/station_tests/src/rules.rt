// Counting rules that no shop has, and that are lawful all the same.
ghost use Rattle.std.specs.Prelude.{◌≡◌, slice_index};
ghost use Rattle.station_tests.specs.Classes.{fives, fives_lawful, capitals, capitals_lawful, no_wheel, no_tests};

use limits::bytes::{is_capital, is_digit};
use texts::digits::DigitRule;
use texts::rule::CountingRule;

// No place is a wheel.
#[derive(Clone, Copy)]
pub struct NoWheels;

// Every digit is a wheel of five: 0 and 5 count for 0, 4 and 9 for 4. The bytes that are given are 0 to 4.
#[derive(Clone, Copy)]
pub struct Fives;

// Every capital is a wheel of 26; digits are fixed.
#[derive(Clone, Copy)]
pub struct Capitals;

impl DigitRule for NoWheels {
    ghost wheel = { λ _. no_wheel };

    ghost tests = { λ _. no_tests };

    fn is_wheel(&self, _text: &[u8], _place: usize) -> bool {
        false
    }
}

// The byte at a place, 0 past the end.
fn byte_at(text: &[u8], place: usize) -> u8
    ensures { result ≡ slice_index text.now place }
{
    text.get(place).copied().unwrap_or(0)
}

impl CountingRule for Fives {
    ghost wheels = { λ _. fives };

    ghost lawful = { λ _. fives_lawful };

    fn radix(&self, text: &[u8], place: usize) -> u8 {
        if is_digit(byte_at(text, place)) { 5 } else { 1 }
    }

    fn value(&self, text: &[u8], place: usize) -> u8 {
        let b = byte_at(text, place);
        if is_digit(b) { (b - b'0') % 5 } else { 0 }
    }

    fn byte(&self, text: &[u8], place: usize, value: u8) -> u8 {
        let b = byte_at(text, place);
        if value < 5 && is_digit(b) {
            b'0' + value
        } else {
            b
        }
    }
}

impl CountingRule for Capitals {
    ghost wheels = { λ _. capitals };

    ghost lawful = { λ _. capitals_lawful };

    fn radix(&self, text: &[u8], place: usize) -> u8 {
        if is_capital(byte_at(text, place)) {
            26
        } else {
            1
        }
    }

    fn value(&self, text: &[u8], place: usize) -> u8 {
        let b = byte_at(text, place);
        if is_capital(b) { b - b'A' } else { 0 }
    }

    fn byte(&self, text: &[u8], place: usize, value: u8) -> u8 {
        let b = byte_at(text, place);
        if value < 26 && is_capital(b) {
            b'A' + value
        } else {
            b
        }
    }
}
