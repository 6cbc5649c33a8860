// The line of a finished tag: field by field, each written into what is left of the buffer. Every function here
// writes into the front of what it is lent, and answers how many bytes it wrote.
ghost use Rattle.std.specs.Prelude.{◌≡◌, ◌+◌, ◌*◌, ◌≤◌, ◌++◌, map, length, take, drop, Some};
ghost use Rattle.limits.specs.Limits.{longest_line};
ghost use Rattle.limits.specs.Limits.{text_fields, bar_fields};
ghost use Rattle.fields.specs.Records.{seen_field};
ghost use Rattle.fields.specs.Tables.{seen_fields};
ghost use Rattle.texts.specs.Finishing.{Put};
ghost use Rattle.tagline.specs.Line.{piece_head, piece, longest_piece, pieces_from, line_head, line_over, line_of, Written};

use crate::digits::digits;
use fields::field::Field;
use fields::table::Fields;
use limits::sizes::LONGEST_LINE;

fn piece_head(letter: u8, number: usize, x: u16, y: u16) -> [u8; 15]
    ensures { result ≡ piece_head letter number x y }
{
    let [n1, n0] = digits::<2>(number);
    let [x3, x2, x1, x0] = digits::<4>(usize::from(x));
    let [y3, y2, y1, y0] = digits::<4>(usize::from(y));
    [
        b',', letter, n1, n0, b',', x3, x2, x1, x0, b',', y3, y2, y1, y0, b',',
    ]
}

// Kept so: a label knows neither number nor size, and whoever calls has them apart.
fn line_head(number: u16, size: u16) -> [u8; 9]
    ensures { result ≡ line_head number size }
{
    let [n3, n2, n1, n0] = digits::<4>(usize::from(number));
    let [s3, s2, s1, s0] = digits::<4>(usize::from(size));
    [n3, n2, n1, n0, b',', s3, s2, s1, s0]
}

// Writes to the front of `out`, and answers how many bytes that is.
fn put(out: &mut [u8], bytes: &[u8]) -> usize
    requires { length bytes.now ≤ length out.old }
    ensures { Put bytes.now out.old out.new result }
{
    out[..bytes.len()].copy_from_slice(bytes);
    bytes.len()
}

// A field's piece.
fn put_piece(out: &mut [u8], letter: u8, number: usize, field: &Field) -> usize
    requires { longest_piece ≤ length out.old }
    ensures written { Put (piece letter number (seen_field field.now)) out.old out.new result }
    ensures short { result ≤ longest_piece }
{
    let text = field.text();
    if text.is_empty() {
        return 0;
    }
    let Some(format) = field.format() else {
        return 0;
    };
    let n = put(out, &piece_head(letter, number, format.x, format.y));
    n + text
        .write_finished(format.check, format.kept, &mut out[n..])
        .unwrap_or(0)
}

// The pieces of all fields of a kind, each behind the one before.
fn put_pieces(out: &mut [u8], letter: u8, fields: &[Field]) -> usize
    requires { longest_piece * length fields.now ≤ length out.old }
    ensures written { let pieces = pieces_from letter 1 (map seen_field fields.now) in
        Put pieces out.old out.new result }
    ensures short { result ≤ longest_piece * length fields.now }
{
    let mut n = 0;
    for (i, field) in fields.iter().enumerate() {
        n += put_piece(&mut out[n..], letter, i + 1, field);
    }
    n
}

fn put_line(out: &mut [u8], number: u16, size: u16, texts: &[Field], bars: &[Field]) -> usize
    requires room { longest_line ≤ length out.old }
    requires texts { length texts.now ≡ text_fields }
    requires bars { length bars.now ≡ bar_fields }
    ensures written { let first = map seen_field texts.now in
        let second = map seen_field bars.now in
        Put (line_over number size first second) out.old out.new result }
    ensures short { result ≤ longest_line }
{
    let mut n = put(out, &line_head(number, size));
    n += put_pieces(&mut out[n..], b'T', texts);
    n += put_pieces(&mut out[n..], b'B', bars);
    n + put(&mut out[n..], b"\n")
}

/// Writes the line of a label's finished tag into the front of `work`, and answers its length; none where `work`
/// could not hold the longest line.
pub fn write_line(fields: &Fields, number: u16, size: u16, work: &mut [u8]) -> Option<usize>
    ensures written { let line = line_of number size (seen_fields fields.now) in
        Written line work.old work.new result }
    ensures short { length (line_of number size (seen_fields fields.now)) ≤ longest_line }
{
    let texts = fields.texts();
    let bars = fields.bars();
    if work.len() < LONGEST_LINE {
        return None;
    }
    Some(put_line(work, number, size, texts, bars))
}
