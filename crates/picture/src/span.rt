// Rows or columns of dots that lie side by side, and how tenths of a millimetre become dots.
ghost use Rattle.std.specs.Prelude.{◌≡◌, ℕ, ◌+◌, ◌<◌, min, max, not, ◌&&◌, ◌||◌};
ghost use Rattle.picture.specs.Bits.{bit_of};
ghost use Rattle.picture.specs.Places.{dot_of, amid, near};
ghost use Rattle.picture.specs.Spans.{within};

use crate::ink::mask;

// The dots from `from` on and before `to`: none where `to` does not lie behind `from`.
// Kept so: a Range of std is not Copy, while a span inks many rows, and it has no room for the methods below.
#[derive(Clone, Copy)]
pub(crate) struct Span {
    pub(crate) from: usize,
    pub(crate) to: usize,
}

// The span between two tenths in three: the dots near its first dot, those near its last alone, and those between.
#[derive(Clone, Copy)]
pub(crate) struct Edges {
    pub(crate) first: Span,
    pub(crate) inner: Span,
    pub(crate) last: Span,
}

// The dot of a tenth of a millimetre: there are eight dots to the millimetre.
pub(crate) fn dot_of(tenth: u16) -> usize
    ensures { result ≡ dot_of tenth }
{
    8 * tenth as usize / 10
}

impl Span {
    // `thick` dots from a tenth's dot on.
    pub(crate) fn band(tenth: u16, thick: u16) -> Span
        ensures from { result.from ≡ dot_of tenth }
        ensures to { result.to ≡ dot_of tenth + thick }
    {
        let from = dot_of(tenth);
        Span {
            from,
            to: from + thick as usize,
        }
    }

    // The dots from a tenth's dot on, before `to`.
    pub(crate) fn starting(tenth: u16, to: usize) -> Span
        ensures from { result.from ≡ dot_of tenth }
        ensures to { result.to ≡ to }
    {
        Span {
            from: dot_of(tenth),
            to,
        }
    }

    // The dots from one tenth to another, both included, whichever comes first.
    pub(crate) fn between(one: u16, other: u16) -> Span
        ensures from { result.from ≡ min (dot_of one) (dot_of other) }
        ensures to { result.to ≡ max (dot_of one) (dot_of other) + 1 }
    {
        let a = dot_of(one);
        let b = dot_of(other);
        Span {
            from: a.min(b),
            to: a.max(b) + 1,
        }
    }

    // The dots of the span among the eight that begin at `first`, as a byte.
    pub(crate) fn byte(self, first: usize) -> u8
        ensures { (j : ℕ) → j < 8 → bit_of result j ≡ within self (first + j) }
    {
        mask(
            self.from.saturating_sub(first).min(8),
            self.to.saturating_sub(first).min(8),
        )
    }
}

impl Edges {
    // The dots from one tenth to another: those fewer than `thick` dots from an end, and those between.
    pub(crate) fn between(one: u16, other: u16, thick: u16) -> Edges
        ensures edge { (x : ℕ) → let edge = within result.first x || within result.last x in
            edge ≡ (amid one other x && near thick one other x) }
        ensures inner { (x : ℕ) → let inner = within result.inner x in
            inner ≡ (amid one other x && not (near thick one other x)) }
    {
        let whole = Span::between(one, other);
        let upper = whole.to.min(whole.from + thick as usize);
        let lower = upper.max(whole.to.saturating_sub(thick as usize));
        Edges {
            first: Span {
                from: whole.from,
                to: upper,
            },
            inner: Span {
                from: upper,
                to: lower,
            },
            last: Span {
                from: lower,
                to: whole.to,
            },
        }
    }
}
