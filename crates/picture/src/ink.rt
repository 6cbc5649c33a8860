// What is done to the eight dots of a byte at once.
ghost use Rattle.std.specs.Prelude.{◌≡◌, ℕ, ◌<◌, ◌≤◌, ◌&&◌, nat_le, nat_lt};
ghost use Rattle.picture.specs.Bits.{bit_of};
ghost use Rattle.picture.specs.Inks.{inked};

// What is done to a dot.
#[derive(Clone, Copy)]
pub(crate) enum Ink {
    Black,
    White,
    Flip,
}

// A byte whose dots from a place on are black, for the places 0 to 8.
// Kept so: for a box over the whole picture 0xff >> place takes 521,000 instructions, the table 457,000
// (bench/measure).
const DOTS_FROM: [u8; 9] = [255, 127, 63, 31, 15, 7, 3, 1, 0];

impl Ink {
    // The byte after the dots that are black in `mask` were inked.
    pub(crate) fn on(self, byte: u8, mask: u8) -> u8
        ensures { (j : ℕ) → bit_of result j ≡ inked self (bit_of mask j) (bit_of byte j) }
    {
        match self {
            Ink::Black => byte | mask,
            Ink::White => byte & !mask,
            Ink::Flip => byte ^ mask,
        }
    }
}

// A byte whose dots from `from` on and before `to` are black.
pub(crate) fn mask(from: usize, to: usize) -> u8
    requires { (from ≤ 8) × (to ≤ 8) }
    ensures { (j : ℕ) → j < 8 → bit_of result j ≡ (nat_le from j && nat_lt j to) }
{
    DOTS_FROM[from] & !DOTS_FROM[to]
}
