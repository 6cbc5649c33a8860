// What one drawing does to the picture.
ghost use Rattle.picture.specs.Drawings.{boxed, acts};
ghost use Rattle.picture.specs.Inks.{inked};
ghost use Rattle.picture.specs.Redrawn.{Redrawn};
ghost use Rattle.picture.specs.declared.drawing.Drawing.TheVariants.{Rectangle};

use crate::drawing::{Drawing, Point};
use crate::fill::fill_box;
use crate::ink::Ink;
use crate::span::{Edges, Span};
use limits::sizes::PICTURE_BYTES;

// Blackens the dots near a side of the box, each once: above, below, and left and right of what lies between.
fn draw_rectangle(corner: Point, opposite: Point, thick: u16, dots: &mut [u8; PICTURE_BYTES])
    ensures { Redrawn (acts (Rectangle corner opposite thick)) dots.old dots.new }
{
    let columns = Span::between(corner.x, opposite.x);
    let beside = Edges::between(corner.x, opposite.x, thick);
    let rows = Edges::between(corner.y, opposite.y, thick);
    fill_box(dots, rows.first, columns, Ink::Black);
    fill_box(dots, rows.last, columns, Ink::Black);
    fill_box(dots, rows.inner, beside.first, Ink::Black);
    fill_box(dots, rows.inner, beside.last, Ink::Black);
}

// Inks the dots of a box, its sides included.
fn ink_box(corner: Point, opposite: Point, ink: Ink, dots: &mut [u8; PICTURE_BYTES])
    ensures { Redrawn (λ r c. inked ink (boxed corner opposite r c)) dots.old dots.new }
{
    fill_box(
        dots,
        Span::between(corner.y, opposite.y),
        Span::between(corner.x, opposite.x),
        ink,
    )
}

pub(crate) fn draw_one(drawing: Drawing, dots: &mut [u8; PICTURE_BYTES])
    ensures { Redrawn (acts drawing) dots.old dots.new }
{
    match drawing {
        Drawing::Level { y, from, to, thick } => fill_box(
            dots,
            Span::band(y, thick),
            Span::between(from, to),
            Ink::Black,
        ),
        Drawing::Upright { x, from, to, thick } => fill_box(
            dots,
            Span::between(from, to),
            Span::band(x, thick),
            Ink::Black,
        ),
        Drawing::Rectangle {
            corner,
            opposite,
            thick,
        } => draw_rectangle(corner, opposite, thick, dots),
        Drawing::Clear { corner, opposite } => ink_box(corner, opposite, Ink::White, dots),
        Drawing::Invert { corner, opposite } => ink_box(corner, opposite, Ink::Flip, dots),
    }
}
