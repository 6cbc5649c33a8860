// The words for commands, for what has to stand at a place, and for what to do.
use faults::Refusal;
use jobgroups::letters::{LabelLetters, Letters, StationLetters};
use jobparts::part::ByteKind;
use jobtable::item::{Item, Rule};
use std::fmt;

// What a command is.
pub(crate) fn title(letters: Letters) -> &'static str {
    match letters {
        Letters::OfLabel(letters) => match letters {
            LabelLetters::D => "sizes of the label",
            LabelLetters::C => "clear",
            LabelLetters::Pc => "format of a text field",
            LabelLetters::Xb => "format of a bar field",
            LabelLetters::RcLinks => "link strings",
            LabelLetters::Rc => "text of a text field",
            LabelLetters::Rb => "text of a bar field",
            LabelLetters::Lc => "line or rectangle",
            LabelLetters::Xr => "clear or invert an area",
        },
        Letters::OfStation(letters) => match letters {
            StationLetters::Xs => "issue of labels",
            StationLetters::Xo => "begin saving a form",
            StationLetters::Xp => "end saving",
            StationLetters::Xq => "recall a form",
            StationLetters::J1 => "empty the store",
            StationLetters::Ws => "status",
            StationLetters::Wr => "reset",
        },
    }
}

// What has to stand where an item is wanted.
#[derive(Clone, Copy)]
pub(crate) struct Wanted(pub(crate) Item);

// So many bytes of a kind.
#[derive(Clone, Copy)]
struct Bytes(ByteKind, usize);

impl fmt::Display for Bytes {
    fn fmt<W: fmt::Write>(&self, f: &mut fmt::Formatter<W>) -> fmt::Result {
        let count = self.1;
        match (self.0, count) {
            (ByteKind::Digit, 1) => write!(f, "a digit"),
            (ByteKind::Digit, _) => write!(f, "{count} digits"),
            (ByteKind::Capital, 1) => write!(f, "a capital"),
            (ByteKind::Capital, _) => write!(f, "{count} capitals"),
            (ByteKind::CapitalOrDigit, _) => write!(f, "a capital or a digit"),
            (ByteKind::Text, _) => write!(f, "{count} bytes of a text"),
        }
    }
}

impl fmt::Display for Wanted {
    fn fmt<W: fmt::Write>(&self, f: &mut fmt::Formatter<W>) -> fmt::Result {
        match self.0 {
            Item::Byte(b) => {
                let b = char::from(b);
                write!(f, "the byte {b}")
            }
            Item::Part(kind, count) => {
                let bytes = Bytes(kind, count);
                write!(f, "{bytes}")
            }
            Item::Number(digits, low, high) => {
                let bytes = Bytes(ByteKind::Digit, digits);
                write!(f, "{bytes}, {low:0digits$} to {high:0digits$}")
            }
            Item::Chosen(kind, count, rule) => {
                let bytes = Bytes(kind, count);
                match rule {
                    Rule::Length => write!(f, "{bytes}, 0080 to 0500, and not above the pitch"),
                    Rule::BarCheck => write!(f, "{bytes}: 1, or 3 where the type is 3"),
                    Rule::LineEnd => write!(
                        f,
                        "{bytes}, 0000 to 0499; a line (shape 0) has one x for both ends, or one y"
                    ),
                    Rule::Rotation => write!(f, "{bytes}: 00, 11, 22 or 33"),
                    Rule::BarType => write!(f, "{bytes}: 3 or 9"),
                    Rule::Letters(one, other) => {
                        let one = char::from(one);
                        let other = char::from(other);
                        write!(f, "{bytes}: {one} or {other}")
                    }
                }
            }
            Item::Lettered(letter, digits, high, _) => {
                let letter = char::from(letter);
                let bytes = Bytes(ByteKind::Digit, digits);
                write!(
                    f,
                    "if any, a comma, {letter} and {bytes}, {0:0digits$} to {high:0digits$}",
                    0
                )
            }
            Item::Signed(digits, _) => write!(f, "if any, a comma, + or - and {digits} digits"),
            Item::Text => write!(
                f,
                "0 to 40 bytes from blank to ~ (20H to 7EH), without a comma"
            ),
            Item::Strings(most) => write!(
                f,
                "1 to {most} strings parted by commas, each of 0 to 40 bytes from blank to ~ (20H to 7EH)"
            ),
            Item::Source(most) => write!(
                f,
                "if any, = and a text, or ; and 1 to {most} numbers of link strings, 01 to 08, parted by commas"
            ),
        }
    }
}

// What to do about a refusal.
pub(crate) fn advice(refusal: Refusal) -> &'static str {
    match refusal {
        Refusal::JobBounds => "send the job in two",
        Refusal::ShortBuffer => "(the checker lends buffers that are long enough)",
        Refusal::JobEnd => "(the job is done)",
        Refusal::NoEscape => {
            "take out what stands between two commands, or give it its ESC (forms/make does)"
        }
        Refusal::NoEnding => {
            "close the command with LF and NUL, and take an LF out of its text; a longer command has to be two"
        }
        Refusal::UnknownLetters => {
            "begin with capitals D C PC XB RC RB LC XR XS XO XP XQ J1 WS or WR, and no blank in front"
        }
        Refusal::WrongByte =>
            "put there what is wanted, or take out what is too much; options have an order (docs/COMMANDS.md)",
        Refusal::NotAdmitted => "give the part a value within its limits",
        Refusal::LabelsOwed =>
            "print what is owed first, or give it up with WR, which drops the label too",
        Refusal::NotWhileSaving => {
            "end the saving with XP in front of it; an XS, XO, XQ or J1 belongs in the job, and not in a form"
        }
        Refusal::NotSaving => "begin the saving with XO, and look whether an XO above was refused",
        Refusal::DraftFull => {
            "a form has 1024 bytes at most, with 3 more for each line: save less, or two forms"
        }
        Refusal::NoFormat => {
            "send the field's format (PC or XB) first, or recall a form that has it; WR takes all formats away"
        }
        Refusal::FieldLinked =>
            "send the strings of the field with RC; or give its format no links",
        Refusal::JoinedTooLong => "send shorter strings: what a field joins has 40 bytes at most",
        Refusal::OutsideCheck => {
            "the field has a check: modulus 10 takes digits alone, modulus 43 digits, capitals, blank and - . $ / + %"
        }
        Refusal::TooManyDrawings => {
            "leave some lines and areas out: a label has 24; C takes all of them away, and the texts"
        }
        Refusal::NoSuchForm => {
            "save the form first, in the same job: the checker begins with none; give its source in front of this one"
        }
        Refusal::FormTooLong => "WR, then save less, or two forms",
        Refusal::StoreFull => "WR, J1;B, and save again those forms that are wanted",
        Refusal::TooManyOrdered => "order less: a station counts 100,000,000 labels",
        Refusal::NothingOwed => "order some with XS first",
        Refusal::OutOfStock => "reload the printer",
    }
}

// The names of the parts that a refusal is about, where the place does not tell the part.
pub(crate) fn is_about(refusal: Refusal, name: &str) -> bool {
    match refusal {
        Refusal::NoFormat | Refusal::FieldLinked => name == "field",
        Refusal::JoinedTooLong => name == "link strings",
        Refusal::OutsideCheck => name == "text" || name == "source" || name == "link strings",
        Refusal::NoSuchForm => name == "form",
        Refusal::TooManyOrdered => name == "labels",
        _ => false,
    }
}
