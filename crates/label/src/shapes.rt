// The drawings that commands send.
ghost use Rattle.std.specs.Prelude.{◌≡◌};
ghost use Rattle.jobgroups.specs.Commands.{point_parts, line_parts, area_parts};
ghost use Rattle.label.specs.Actions.{corner, line, line_drawing, area_drawing};

use jobgroups::command::{Area, Line};
use jobparts::bytes::stands_at;
use jobvalues::numbers::four_digit_number;
use picture::drawing::{Drawing, Point};

// Kept so: a From stands with one of its two types, and both are of lower crates.
fn point_of(sent: &jobgroups::command::Point<'_>) -> Point
    ensures { result ≡ corner (point_parts sent.now) }
{
    Point {
        x: four_digit_number(sent.x.bytes),
        y: four_digit_number(sent.y.bytes),
    }
}

// A line whose ends have one Y, as those of a point have, is level; the others are upright.
fn line_between(from: Point, to: Point, thick: u16) -> Drawing
    ensures { result ≡ line from to thick }
{
    if from.y == to.y {
        Drawing::Level {
            y: from.y,
            from: from.x,
            to: to.x,
            thick,
        }
    } else {
        Drawing::Upright {
            x: from.x,
            from: from.y,
            to: to.y,
            thick,
        }
    }
}

// What an LC draws: 0 is a line, 1 a rectangle.
pub(crate) fn line_drawing(sent: &Line<'_>) -> Drawing
    ensures { result ≡ line_drawing (line_parts sent.now) }
{
    let corner = point_of(&sent.ends.from);
    let opposite = point_of(&sent.ends.to);
    let thick = four_digit_number(sent.shape.dots.bytes);
    if sent.shape.kind.number() == 0 {
        line_between(corner, opposite, thick)
    } else {
        Drawing::Rectangle {
            corner,
            opposite,
            thick,
        }
    }
}

// What an XR draws: A clears its box, B inverts it.
pub(crate) fn area_drawing(sent: &Area<'_>) -> Drawing
    ensures { result ≡ area_drawing (area_parts sent.now) }
{
    let corner = point_of(&sent.ends.from);
    let opposite = point_of(&sent.ends.to);
    if stands_at(sent.action.bytes, 0, b'A') {
        Drawing::Clear { corner, opposite }
    } else {
        Drawing::Invert { corner, opposite }
    }
}
