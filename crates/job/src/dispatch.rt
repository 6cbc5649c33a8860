// Tells a command by its letters, and reads it.
ghost use Rattle.std.specs.Prelude.{◌≡◌, drop};
ghost use Rattle.jobgroups.specs.Commands.{seen_reading, command_at};
ghost use Rattle.jobgroups.specs.Table.{order};
ghost use Rattle.job.specs.Reading.{first_led, parsed_at, placed, seen_answer, answer_of};

use crate::commands::command;
use crate::fault::ReadFault;
use jobgroups::command::Command;
use jobgroups::letters::{LabelLetters, Letters, StationLetters};
use jobparts::bytes::rest_at;
use jobparts::cursor::Cursor;
use jobparts::part::{ReadRefusal, Wrong};

// The first letters, in the order in which they are tried, with which the bytes begin.
// Kept so: the letters tried one by one look at the front of a body up to sixteen times.
pub fn letters_at(bytes: &[u8]) -> Option<Letters>
    ensures { result ≡ first_led order bytes.now }
{
    let letters = match bytes {
        [b'D', ..] => Letters::OfLabel(LabelLetters::D),
        [b'C', ..] => Letters::OfLabel(LabelLetters::C),
        [b'P', b'C', ..] => Letters::OfLabel(LabelLetters::Pc),
        [b'X', b'B', ..] => Letters::OfLabel(LabelLetters::Xb),
        [b'R', b'C', b';', ..] => Letters::OfLabel(LabelLetters::RcLinks),
        [b'R', b'C', ..] => Letters::OfLabel(LabelLetters::Rc),
        [b'R', b'B', ..] => Letters::OfLabel(LabelLetters::Rb),
        [b'L', b'C', ..] => Letters::OfLabel(LabelLetters::Lc),
        [b'X', b'R', ..] => Letters::OfLabel(LabelLetters::Xr),
        [b'X', b'S', ..] => Letters::OfStation(StationLetters::Xs),
        [b'X', b'O', ..] => Letters::OfStation(StationLetters::Xo),
        [b'X', b'P', ..] => Letters::OfStation(StationLetters::Xp),
        [b'X', b'Q', ..] => Letters::OfStation(StationLetters::Xq),
        [b'J', b'1', ..] => Letters::OfStation(StationLetters::J1),
        [b'W', b'S', ..] => Letters::OfStation(StationLetters::Ws),
        [b'W', b'R', ..] => Letters::OfStation(StationLetters::Wr),
        _ => return None,
    };
    Some(letters)
}

// Reads the parts of the command that the letters tell, and nothing may be left over.
pub(crate) fn command_at<'a>(
    letters: Letters,
    cursor: &mut Cursor<'a>,
) -> Result<Command<'a>, Wrong>
    ensures { seen_reading result ≡ command_at letters cursor.old.body.now cursor.old.at }
{
    let command = command(letters, cursor)?;
    cursor.end()?;
    Ok(command)
}

// Reads a body from the place behind its ESC; `at` is the place of the ESC, and reading goes on at `next`.
pub(crate) fn parse<'a>(
    body: &'a [u8],
    at: usize,
    start: usize,
    next: usize,
) -> Result<Command<'a>, ReadFault>
    ensures { let told = parsed_at (first_led order (drop start body.now)) body.now at start in
        seen_answer result ≡ answer_of (placed next told) }
{
    let Some(letters) = letters_at(rest_at(body, start)) else {
        return Err(ReadFault {
            refusal: ReadRefusal::UnknownLetters,
            place: at,
            next,
        });
    };
    let mut cursor = Cursor {
        body,
        at: start + letters.bytes().len(),
    };
    command_at(letters, &mut cursor).map_err(|wrong| ReadFault {
        refusal: wrong.refusal,
        place: wrong.place,
        next,
    })
}
