// A box of dots, inked a byte at a time.
ghost use Rattle.std.specs.Prelude.{◌≡◌, ℕ, ◌<◌, ◌&&◌, ◌==◌};
ghost use Rattle.limits.specs.Limits.{picture_rows};
ghost use Rattle.picture.specs.Inks.{inked};
ghost use Rattle.picture.specs.Redrawn.{Redrawn};
ghost use Rattle.picture.specs.Spans.{within};

use crate::ink::Ink;
use crate::span::Span;
use limits::sizes::{PICTURE_BYTES, PICTURE_ROWS, ROW_BYTES};

// Inks the dots of one row; only the bytes that the columns touch are visited.
// Kept so: over chunks_exact_mut and iter_mut no invariant can name the dots.
fn fill_row(dots: &mut [u8; PICTURE_BYTES], row: usize, columns: Span, ink: Ink)
    requires { row < picture_rows }
    ensures { Redrawn (λ r c. inked ink (r == row && within columns c)) dots.old dots.new }
{
    let last = columns.to.min(8 * ROW_BYTES).div_ceil(8);
    for k in columns.from / 8..last {
        let at = row * ROW_BYTES + k;
        dots[at] = ink.on(dots[at], columns.byte(8 * k));
    }
}

// Kept so: as in fill_row, and the rows are a range already.
// Inks the dots that lie in the rows and in the columns, each once.
pub(crate) fn fill_box(dots: &mut [u8; PICTURE_BYTES], rows: Span, columns: Span, ink: Ink)
    ensures { Redrawn (λ r c. inked ink (within rows r && within columns c)) dots.old dots.new }
{
    for row in rows.from..rows.to.min(PICTURE_ROWS) {
        fill_row(dots, row, columns, ink);
    }
}
