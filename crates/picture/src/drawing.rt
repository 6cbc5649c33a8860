// What can be drawn on a label. Any coordinate and any thickness will do.

/// A place on the label, in tenths of a millimetre from its upper left corner.
#[derive(Clone, Copy)]
pub struct Point {
    pub x: u16,
    pub y: u16,
}

/// One drawing: coordinates in tenths of a millimetre, the thickness in dots. Ends and corners may come in any order.
#[derive(Clone, Copy)]
pub enum Drawing {
    /// A level line or a point: its row and thick - 1 rows below.
    Level {
        y: u16,
        from: u16,
        to: u16,
        thick: u16,
    },
    /// An upright line: its column and thick - 1 columns to the right.
    Upright {
        x: u16,
        from: u16,
        to: u16,
        thick: u16,
    },
    /// The dots of a box that are fewer than `thick` dots from one of its sides.
    Rectangle {
        corner: Point,
        opposite: Point,
        thick: u16,
    },
    /// A box made white.
    Clear {
        corner: Point,
        opposite: Point,
    },
    /// A box whose white dots become black and whose black dots white.
    Invert {
        corner: Point,
        opposite: Point,
    },
}
