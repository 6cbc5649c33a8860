// Takes the parts whose admitted values are no plain range.
ghost use Rattle.std.specs.Prelude.{◌≡◌, [], ◌∷◌, slice_index};
ghost use Rattle.jobparts.specs.Grammar.{one_of, one_letter};
ghost use Rattle.jobparts.specs.Items.{chosen_at};
ghost use Rattle.jobparts.specs.Cursors.{Takes};
ghost use Rattle.jobparts.specs.Parts.{part_alone};
ghost use Rattle.jobparts.specs.declared.part.ByteKind.TheVariants.{Digit, Capital};
ghost use Rattle.jobgroups.specs.Table.{length_fits, check_fits, end_fits, line_ahead, not_above_pitch, fits_type, not_slanted};

use jobparts::bytes::rest_at;
use jobparts::cursor::Cursor;
use jobparts::part::{ByteKind, Part, Wrong};

// A length lies within its limits, and the pitch is not below it.
#[tactic(auto, unfolding(crate::specs::Table::length_fits))]
pub(crate) fn length_fits(length: u64, pitch: u64) -> bool
    ensures { result ≡ length_fits length pitch }
{
    (80..=500).contains(&length) && length <= pitch
}

// A length that fits the pitch.
#[tactic(auto, unfolding(jobparts::specs::Items::part_at))]
pub(crate) fn length_at<'a>(cursor: &mut Cursor<'a>, pitch: Part<'_>) -> Result<Part<'a>, Wrong>
    ensures { let read = chosen_at Digit 4 not_above_pitch (pitch.entry.bytes.now ∷ []) in
        Takes part_alone result cursor.old cursor.new read }
{
    let digits = cursor.part(ByteKind::Digit, 4)?;
    digits.admitted(length_fits(digits.number(), pitch.number()))
}

// So many digits that write one of some numbers.
#[tactic(auto, unfolding(jobparts::specs::Items::part_at))]
pub(crate) fn one_of<'a>(
    cursor: &mut Cursor<'a>,
    count: usize,
    numbers: &[u64],
) -> Result<Part<'a>, Wrong>
    ensures { let read = chosen_at Digit count (one_of numbers.now) [] in
        Takes part_alone result cursor.old cursor.new read }
{
    let digits = cursor.part(ByteKind::Digit, count)?;
    digits.admitted(numbers.contains(&digits.number()))
}

// A bar has no check, 1, or modulus 43, 3, which only the type 3 has.
#[tactic(auto, unfolding(crate::specs::Table::check_fits))]
pub(crate) fn check_fits(check: u64, kind: u64) -> bool
    ensures { result ≡ check_fits check kind }
{
    matches!((check, kind), (1, _) | (3, 3))
}

// The check of a bar: none, or modulus 43, which only the type 3 has.
#[tactic(auto, unfolding(jobparts::specs::Items::part_at))]
pub(crate) fn bar_check<'a>(cursor: &mut Cursor<'a>, kind: Part<'_>) -> Result<Part<'a>, Wrong>
    ensures { let read = chosen_at Digit 1 fits_type (kind.entry.bytes.now ∷ []) in
        Takes part_alone result cursor.old cursor.new read }
{
    let digit = cursor.part(ByteKind::Digit, 1)?;
    digit.admitted(check_fits(digit.number(), kind.number()))
}

/// The first byte; NUL where there is none.
// Kept so: a public promise, which an Option would not keep; no part that is asked is empty.
pub fn first_byte(bytes: &[u8]) -> u8
    ensures { result ≡ slice_index bytes.now 0 }
{
    bytes.first().copied().unwrap_or(0)
}

// One of two capital letters.
#[tactic(auto, unfolding(jobparts::specs::Items::part_at))]
pub(crate) fn letter<'a>(cursor: &mut Cursor<'a>, one: u8, other: u8) -> Result<Part<'a>, Wrong>
    ensures { let read = chosen_at Capital 1 (one_letter (one ∷ other ∷ [])) [] in
        Takes part_alone result cursor.old cursor.new read }
{
    let capital = cursor.part(ByteKind::Capital, 1)?;
    let b = first_byte(capital.bytes);
    capital.admitted([one, other].contains(&b))
}

// Whether a line, and no rectangle, is told of behind its ends.
#[tactic(auto, unfolding(crate::specs::Table::line_ahead))]
pub(crate) fn line_ahead(behind: &[u8]) -> bool
    ensures { result ≡ line_ahead behind.now }
{
    behind.starts_with(b",0")
}

// The last coordinate lies within its limits, and ends no slanted line.
#[tactic(auto, unfolding(crate::specs::Table::end_fits))]
pub(crate) fn end_fits(line: bool, x: u64, y: u64, last_x: u64, last_y: u64) -> bool
    ensures { result ≡ end_fits line x y last_x last_y }
{
    last_y <= 499 && (!line || x == last_x || y == last_y)
}

// The last coordinate of a line or a rectangle.
#[tactic(auto, unfolding(jobparts::specs::Items::part_at))]
pub(crate) fn last_y_at<'a>(
    cursor: &mut Cursor<'a>,
    x: Part<'_>,
    y: Part<'_>,
    last_x: Part<'_>,
) -> Result<Part<'a>, Wrong>
    ensures { let from = x.entry.bytes.now ∷ y.entry.bytes.now ∷ last_x.entry.bytes.now ∷ [] in
        Takes part_alone result cursor.old cursor.new (chosen_at Digit 4 not_slanted from) }
{
    let digits = cursor.part(ByteKind::Digit, 4)?;
    let line = line_ahead(rest_at(cursor.body, cursor.at));
    digits.admitted(end_fits(
        line,
        x.number(),
        y.number(),
        last_x.number(),
        digits.number(),
    ))
}
