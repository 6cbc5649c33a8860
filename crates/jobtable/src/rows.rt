// The rows of the table: for each command the items behind its letters, by number.
ghost use Rattle.std.specs.Prelude.{◌≡◌, slice_get};
ghost use Rattle.std.specs.Option.{option_map};
ghost use Rattle.jobgroups.specs.Table.{label_parts_of, station_parts_of};
ghost use Rattle.jobtable.specs.Items.{item_of, items_of, row_of, joined};

use crate::item::Item::{Byte, Chosen, Lettered, Number, Part, Signed, Source, Strings, Text};
use crate::item::{Named, Rule};
use jobgroups::letters::{LabelLetters, Letters, StationLetters};
use jobparts::part::ByteKind;
use limits::sizes::{BAR_FIELDS, LAST_FORM, LAST_LINK, LONGEST_FINISHED, MOST_LINKS, TEXT_FIELDS};

const COMMA: Named = Named("comma", Byte(b','));

const SEMICOLON: Named = Named("semicolon", Byte(b';'));

const TEXT_FIELD: Named = Named("field", Number(3, 1, TEXT_FIELDS as u64));

const BAR_FIELD: Named = Named("field", Number(2, 1, BAR_FIELDS as u64));

const X: Named = Named("x", Number(4, 0, 539));

const Y: Named = Named("y", Number(4, 0, 499));

const STEP: Named = Named("step", Signed(10, false));

const SUPPRESSION: Named = Named(
    "zero suppression",
    Lettered(b'Z', 2, LONGEST_FINISHED as u64, true),
);

const SOURCE: Named = Named("source", Source(MOST_LINKS));

const WHOLE_TEXT: Named = Named("text", Text);

const SIZES: [Named; 5] = [
    Named("pitch", Number(4, 0, 1500)),
    COMMA,
    Named("width", Number(4, 100, 540)),
    COMMA,
    Named("length", Chosen(ByteKind::Digit, 4, Rule::Length)),
];

const TEXT_FORMAT: [Named; 19] = [
    TEXT_FIELD,
    SEMICOLON,
    X,
    COMMA,
    Y,
    COMMA,
    Named("magnification across", Number(1, 1, 9)),
    COMMA,
    Named("magnification down", Number(1, 1, 9)),
    COMMA,
    Named("font", Part(ByteKind::Capital, 1)),
    COMMA,
    Named("rotation", Chosen(ByteKind::Digit, 2, Rule::Rotation)),
    COMMA,
    Named("attribute", Part(ByteKind::Capital, 1)),
    Named("check", Lettered(b'M', 1, 1, false)),
    STEP,
    SUPPRESSION,
    SOURCE,
];

const BAR_FORMAT: [Named; 26] = [
    BAR_FIELD,
    SEMICOLON,
    X,
    COMMA,
    Y,
    COMMA,
    Named("type", Chosen(ByteKind::Digit, 1, Rule::BarType)),
    COMMA,
    Named("check", Chosen(ByteKind::Digit, 1, Rule::BarCheck)),
    COMMA,
    Named("narrow bar", Part(ByteKind::Digit, 2)),
    COMMA,
    Named("narrow space", Part(ByteKind::Digit, 2)),
    COMMA,
    Named("wide bar", Part(ByteKind::Digit, 2)),
    COMMA,
    Named("wide space", Part(ByteKind::Digit, 2)),
    COMMA,
    Named("gap", Part(ByteKind::Digit, 2)),
    COMMA,
    Named("rotation", Number(1, 0, 3)),
    COMMA,
    Named("height", Part(ByteKind::Digit, 4)),
    STEP,
    SUPPRESSION,
    SOURCE,
];

const LINK_STRINGS: [Named; 1] = [Named("link strings", Strings(LAST_LINK as usize))];

const TEXT: [Named; 3] = [TEXT_FIELD, SEMICOLON, WHOLE_TEXT];

const BAR_TEXT: [Named; 3] = [BAR_FIELD, SEMICOLON, WHOLE_TEXT];

const LINE: [Named; 12] = [
    SEMICOLON,
    Named("x of one end", Number(4, 0, 539)),
    COMMA,
    Named("y of one end", Number(4, 0, 499)),
    COMMA,
    Named("x of the other end", Number(4, 0, 539)),
    COMMA,
    Named(
        "y of the other end",
        Chosen(ByteKind::Digit, 4, Rule::LineEnd),
    ),
    COMMA,
    Named("shape", Number(1, 0, 1)),
    COMMA,
    Named("dots", Number(1, 1, 9)),
];

const AREA: [Named; 10] = [
    SEMICOLON,
    Named("x of one corner", Number(4, 0, 539)),
    COMMA,
    Named("y of one corner", Number(4, 0, 499)),
    COMMA,
    Named("x of the other corner", Number(4, 0, 539)),
    COMMA,
    Named("y of the other corner", Number(4, 0, 499)),
    COMMA,
    Named(
        "action",
        Chosen(ByteKind::Capital, 1, Rule::Letters(b'A', b'B')),
    ),
];

const ISSUE: [Named; 12] = [
    SEMICOLON,
    Named("letter I", Byte(b'I')),
    COMMA,
    Named("labels", Number(4, 1, 9999)),
    COMMA,
    Named("cut interval", Number(3, 0, 100)),
    Named("sensor", Part(ByteKind::Digit, 1)),
    Named("mode", Part(ByteKind::Capital, 1)),
    Named("speed", Part(ByteKind::CapitalOrDigit, 1)),
    Named("ribbon", Part(ByteKind::Digit, 1)),
    Named("rotation", Part(ByteKind::Digit, 1)),
    Named("response", Part(ByteKind::Digit, 1)),
];

const SAVING: [Named; 4] = [
    SEMICOLON,
    Named("form", Number(2, 1, LAST_FORM as u64)),
    COMMA,
    Named("response", Number(1, 0, 1)),
];

const RECALL: [Named; 6] = [
    SEMICOLON,
    Named("form", Number(2, 1, LAST_FORM as u64)),
    COMMA,
    Named("response", Number(1, 0, 1)),
    COMMA,
    Named(
        "target",
        Chosen(ByteKind::Capital, 1, Rule::Letters(b'L', b'M')),
    ),
];

const STORE: [Named; 2] = [SEMICOLON, Named("letter B", Byte(b'B'))];

// The item of that number of a row.
#[tactic(auto, using(crate::proofs::Places::item_there))]
fn nth(row: &[Named], n: usize) -> Option<Named>
    ensures { option_map (λ named. item_of named.1) result ≡ slice_get (items_of row.now) n }
{
    row.get(n).copied()
}

#[tactic(auto, unfolding(jobgroups::specs::Table::sizes, jobgroups::specs::Table::text_field, jobgroups::specs::Table::bar_field, jobgroups::specs::Table::point, jobgroups::specs::Table::magnification, jobgroups::specs::Table::lettering, jobgroups::specs::Table::check_option, jobgroups::specs::Table::extras, jobgroups::specs::Table::bar_type, jobgroups::specs::Table::bar_widths, jobgroups::specs::Table::bar_height, jobgroups::specs::Table::line_ends, jobgroups::specs::Table::line_shape, jobgroups::specs::Table::comma_letter))]
fn label_item(letters: LabelLetters, n: usize) -> Option<Named>
    ensures { option_map (λ named. item_of named.1) result ≡ slice_get (joined (label_parts_of letters)) n }
{
    match letters {
        LabelLetters::D => nth(&SIZES, n),
        LabelLetters::C => None,
        LabelLetters::Pc => nth(&TEXT_FORMAT, n),
        LabelLetters::Xb => nth(&BAR_FORMAT, n),
        LabelLetters::RcLinks => nth(&LINK_STRINGS, n),
        LabelLetters::Rc => nth(&TEXT, n),
        LabelLetters::Rb => nth(&BAR_TEXT, n),
        LabelLetters::Lc => nth(&LINE, n),
        LabelLetters::Xr => nth(&AREA, n),
    }
}

#[tactic(auto, unfolding(jobgroups::specs::Table::issue_count, jobgroups::specs::Table::issue_setup, jobgroups::specs::Table::form, jobgroups::specs::Table::comma_letter))]
fn station_item(letters: StationLetters, n: usize) -> Option<Named>
    ensures { option_map (λ named. item_of named.1) result ≡ slice_get (joined (station_parts_of letters)) n }
{
    match letters {
        StationLetters::Xs => nth(&ISSUE, n),
        StationLetters::Xo => nth(&SAVING, n),
        StationLetters::Xq => nth(&RECALL, n),
        StationLetters::J1 => nth(&STORE, n),
        StationLetters::Xp | StationLetters::Ws | StationLetters::Wr => None,
    }
}

/// The item of that number, counted from 0, behind the letters of a command; none behind the last.
pub fn item(letters: Letters, n: usize) -> Option<Named>
    ensures { option_map (λ named. item_of named.1) result ≡ slice_get (row_of letters) n }
{
    match letters {
        Letters::OfLabel(letters) => label_item(letters, n),
        Letters::OfStation(letters) => station_item(letters, n),
    }
}
