// The picture of a label: what its drawings make of 400 rows of dots.
#![tactic(auto)]

ghost use Rattle.std.specs.Prelude.{◌≡◌, if◌then◌else◌, Ok, Err};
ghost use Rattle.picture.specs.Picture.{drawn, white, cut_at, picture, too_short, shown};
ghost use Rattle.picture.specs.Redrawn.{Redrawn};
ghost use Rattle.faults.specs.declared.Refusal.TheVariants.{ShortBuffer};

use drawing::Drawing;
use faults::Refusal;
use fill::fill_box;
use ink::Ink;
use limits::sizes::{PICTURE_BYTES, PICTURE_ROWS, ROW_BYTES};
use span::Span;

mod acts;
pub mod drawing;
mod fill;
mod ink;
mod span;

/// Rows of dots of a picture.
pub const ROWS: usize = PICTURE_ROWS;

/// Dots of a row.
pub const COLUMNS: usize = 8 * ROW_BYTES;

const ALL_ROWS: Span = Span { from: 0, to: ROWS };

const ALL_COLUMNS: Span = Span {
    from: 0,
    to: COLUMNS,
};

// Draws one after the other.
fn draw_all(drawings: &[Drawing], dots: &mut [u8; PICTURE_BYTES])
    ensures { Redrawn (drawn drawings.now) dots.old dots.new }
{
    for drawing in drawings {
        acts::draw_one(*drawing, dots);
    }
}

// Whitens the dots from the label's width on and from its length on, each once.
fn cut(label_width: u16, label_length: u16, dots: &mut [u8; PICTURE_BYTES])
    ensures { Redrawn (cut_at label_width label_length) dots.old dots.new }
{
    let beside = Span::starting(label_width, COLUMNS);
    let below = Span::starting(label_length, ROWS);
    let above = Span {
        from: 0,
        to: below.from,
    };
    fill_box(dots, above, beside, Ink::White);
    fill_box(dots, below, ALL_COLUMNS, Ink::White);
}

// Whitens every dot.
fn whiten(dots: &mut [u8; PICTURE_BYTES])
    ensures { Redrawn (λ r c dot. white r c) dots.old dots.new }
{
    fill_box(dots, ALL_ROWS, ALL_COLUMNS, Ink::White);
}

/// The picture of a label of this width and length, in tenths of a millimetre, with these drawings: 400 rows of 54
/// bytes, the highest bit first, black 1. Bytes behind the picture stay, and a buffer that is too short for it, below
/// 21,600 bytes, is refused and stays whole.
pub fn draw(
    drawings: &[Drawing],
    label_width: u16,
    label_length: u16,
    dots: &mut [u8],
) -> Result<(), Refusal>
    ensures answer { result ≡ (if too_short dots.old then Err ShortBuffer else Ok tt) }
    ensures bytes { let pic = picture white drawings.now label_width label_length in
        dots.new ≡ shown pic dots.old }
{
    let Some(front) = dots.first_chunk_mut() else {
        return Err(Refusal::ShortBuffer);
    };
    whiten(front);
    draw_all(drawings, front);
    cut(label_width, label_length, front);
    Ok(())
}
