// The format of a field: where it stands, how its text is checked and counted, and where the text comes from.
use crate::links::Links;
use texts::checks::Check;

// What a field is: a text, or a bar of type 3 or of type 9. Texts and bars of type 3 count by a station's first
// rule, bars of type 9 by its second.
#[derive(Clone, Copy)]
pub enum FieldKind {
    Text,
    Code39,
    Code128,
}

/// All that a command sets of a field but its text.
#[derive(Clone, Copy)]
pub struct Format {
    /// The place X and Y of the field, in tenths of a millimetre.
    pub x: u16,
    pub y: u16,
    pub check: Check,
    /// What every printed tag adds to the number that the text spells.
    pub step: i64,
    /// The places that zero suppression keeps; none where zeros stay.
    pub kept: Option<u8>,
    /// None, where the text is set by itself.
    pub links: Links,
    pub kind: FieldKind,
}
