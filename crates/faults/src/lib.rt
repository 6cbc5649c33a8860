// What a station refuses, and how a refusal is told: by number, layer, form, place and next place.
#![tactic(auto)]

ghost use Rattle.std.specs.Prelude.{◌≡◌, Some};
ghost use Rattle.faults.specs.Numbers.{number_of, layer_of, letter_of};
ghost use Rattle.faults.specs.Places.{unplaced};
ghost use Rattle.faults.specs.Words.{words_of};

use std::fmt;

/// The part of a station that refuses.
#[derive(Clone, Copy, PartialEq, Eq, Debug)]
pub enum Layer {
    Job,
    Station,
    Label,
    Store,
    Printer,
}

impl Layer {
    /// The letter under which it is told.
    pub fn letter(self) -> u8
        ensures { result ≡ letter_of self }
    {
        match self {
            Layer::Job => b'J',
            Layer::Station => b'S',
            Layer::Label => b'L',
            Layer::Store => b'F',
            Layer::Printer => b'P',
        }
    }
}

/// Why something was refused. docs/FAULTS.md says when each comes.
#[derive(Clone, Copy, PartialEq, Eq, Debug)]
pub enum Refusal {
    JobBounds = 1,
    ShortBuffer = 2,
    JobEnd = 3,
    NoEscape = 4,
    NoEnding = 5,
    UnknownLetters = 6,
    WrongByte = 7,
    NotAdmitted = 8,
    LabelsOwed = 9,
    NotWhileSaving = 10,
    NotSaving = 11,
    DraftFull = 12,
    NoFormat = 13,
    FieldLinked = 14,
    JoinedTooLong = 15,
    OutsideCheck = 16,
    TooManyDrawings = 17,
    NoSuchForm = 18,
    FormTooLong = 19,
    StoreFull = 20,
    TooManyOrdered = 21,
    NothingOwed = 22,
    OutOfStock = 23,
}

impl Refusal {
    /// The number under which it is told: 1 to 23.
    pub fn number(self) -> u8
        ensures { result ≡ number_of self }
    {
        self as u8
    }

    /// The layer that refuses.
    pub fn layer(self) -> Layer
        ensures { result ≡ layer_of self }
    {
        match self {
            Refusal::JobBounds
            | Refusal::ShortBuffer
            | Refusal::JobEnd
            | Refusal::NoEscape
            | Refusal::NoEnding
            | Refusal::UnknownLetters
            | Refusal::WrongByte
            | Refusal::NotAdmitted => Layer::Job,
            Refusal::LabelsOwed
            | Refusal::NotWhileSaving
            | Refusal::NotSaving
            | Refusal::DraftFull
            | Refusal::TooManyOrdered
            | Refusal::NothingOwed => Layer::Station,
            Refusal::NoFormat
            | Refusal::FieldLinked
            | Refusal::JoinedTooLong
            | Refusal::OutsideCheck
            | Refusal::TooManyDrawings => Layer::Label,
            Refusal::NoSuchForm | Refusal::FormTooLong | Refusal::StoreFull => Layer::Store,
            Refusal::OutOfStock => Layer::Printer,
        }
    }
}

/// In plain words.
impl fmt::Display for Refusal {
    ghost output = { λ r. Some (words_of r) };

    fn fmt<W: fmt::Write>(&self, f: &mut fmt::Formatter<W>) -> fmt::Result {
        f.write_str(match self {
            Refusal::JobBounds =>
                "the job is longer than 60000 bytes, or the place lies past its end",
            Refusal::ShortBuffer => "a buffer is too short, or a size lies outside its limits",
            Refusal::JobEnd => "the job ends here",
            Refusal::NoEscape => "no command begins here: ESC is missing",
            Refusal::NoEnding => "no LF with NUL behind it ends this command within 255 bytes",
            Refusal::UnknownLetters => "no command has these letters",
            Refusal::WrongByte => "a byte is missing, left over or of the wrong kind",
            Refusal::NotAdmitted => "a value, a choice or a length is not admitted",
            Refusal::LabelsOwed => "labels are owed: only the status and a reset are taken now",
            Refusal::NotWhileSaving =>
                "this can not be done while a form is saved, nor stand in a form",
            Refusal::NotSaving => "no form is being saved",
            Refusal::DraftFull => "with this command the form would be longer than 1024 bytes",
            Refusal::NoFormat => "the field has no format",
            Refusal::FieldLinked => "the text of a linked field comes from link strings alone",
            Refusal::JoinedTooLong => "the link strings would make a text of more than 40 bytes",
            Refusal::OutsideCheck => "a character lies outside the set of the field's check",
            Refusal::TooManyDrawings => "the label has 24 drawings already",
            Refusal::NoSuchForm => "the store has no form of this number",
            Refusal::FormTooLong => "the form is longer than the store takes",
            Refusal::StoreFull => "the store has no room for the form",
            Refusal::TooManyOrdered => "more labels would be ordered than a station counts",
            Refusal::NothingOwed => "no label is owed",
            Refusal::OutOfStock => "the printer has no stock left",
        })
    }
}

/// A refusal with where it came. The form is 0 outside a recall. Places count bytes from 0: the place those of the
/// job or, in a recall, of the form; `next`, behind which reading goes on, those of the job.
#[derive(Clone, Copy, PartialEq, Eq, Debug)]
pub struct Fault {
    pub refusal: Refusal,
    pub form: u8,
    pub place: usize,
    pub next: usize,
}

/// The fault of a call that reads no command: form and places are 0.
pub fn unplaced(refusal: Refusal) -> Fault
    ensures { result ≡ unplaced refusal }
{
    Fault {
        refusal,
        form: 0,
        place: 0,
        next: 0,
    }
}
