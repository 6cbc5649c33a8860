// A part of a command, and what can be wrong with one.
ghost use Rattle.std.specs.Prelude.{◌≡◌, cond, Ok, Err};

use crate::values::number_of;

/// The job's own bytes at a place.
#[derive(Clone, Copy)]
pub struct Part<'a> {
    pub place: usize,
    pub bytes: &'a [u8],
}

impl<'a> Part<'a> {
    ghost use Rattle.jobparts.specs.Parts.{not_admitted};
    ghost use Rattle.jobparts.specs.Values.{number_of};

    /// The number that its digits write.
    pub fn number(self) -> u64
        ensures { result ≡ number_of self.entry.bytes.now }
    {
        number_of(self.bytes)
    }

    /// The part itself, or that it is not admitted.
    pub fn admitted(self, admitted: bool) -> Result<Part<'a>, Wrong>
        ensures { result ≡ cond admitted (Ok self.entry) (Err (not_admitted self.entry.place)) }
    {
        if admitted {
            Ok(self)
        } else {
            Err(Wrong {
                refusal: ReadRefusal::NotAdmitted,
                place: self.place,
            })
        }
    }
}

/// Why a command is not read. docs/FAULTS.md says when each comes.
#[derive(Clone, Copy, PartialEq, Eq, Debug)]
pub enum ReadRefusal {
    OutOfBounds,
    AtEnd,
    NoEscape,
    NoEnding,
    UnknownLetters,
    WrongByte,
    NotAdmitted,
}

/// What is wrong in a body, and where.
#[derive(Clone, Copy, PartialEq, Eq, Debug)]
pub struct Wrong {
    pub refusal: ReadRefusal,
    pub place: usize,
}

impl Wrong {
    ghost use Rattle.jobparts.specs.Parts.{wrong_byte};

    // A byte that does not fit, or is missing.
    pub(crate) fn byte(place: usize) -> Wrong
        ensures { result ≡ wrong_byte place }
    {
        Wrong {
            refusal: ReadRefusal::WrongByte,
            place,
        }
    }
}

/// The kinds of bytes that parts are made of.
#[derive(Clone, Copy, PartialEq, Eq, Debug)]
pub enum ByteKind {
    Digit,
    Capital,
    CapitalOrDigit,
    Text,
}

/// Where a field's text comes from: not said, given, or joined from link strings.
// Kept so: the three are one choice of a format; an Option round two of them tells it in two steps.
#[derive(Clone, Copy)]
pub enum Source<'a> {
    Nothing,
    Text(Part<'a>),
    Links(Part<'a>),
}

/// What stands in a list, parted by commas: link strings, or the numbers of link strings.
#[derive(Clone, Copy, PartialEq, Eq, Debug)]
pub enum List {
    Strings,
    Numbers,
}
