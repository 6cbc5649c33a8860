// Takes the parts of each command, from the place behind its letters.
ghost use Rattle.std.specs.Prelude.{◌≡◌, [], IfOk};
ghost use Rattle.jobparts.specs.Cursors.{Takes};
ghost use Rattle.jobparts.specs.Grammar.{groups_at};
ghost use Rattle.jobgroups.specs.Commands.{text_format_parts, bar_format_parts, field_text_parts, line_parts, area_parts, issue_parts, recall_parts, label_letters, label_slots, station_letters, station_slots, seen_command};
ghost use Rattle.jobgroups.specs.Table.{label_parts_of, station_parts_of, parts_of};
ghost use Rattle.jobgroups.specs.declared.letters.LabelLetters.TheVariants.{Pc, Xb, Rc, Rb, Lc, Xr};
ghost use Rattle.jobgroups.specs.declared.letters.StationLetters.TheVariants.{Xs, Xq, J1};

use jobgroups::command::{
    Area, BarFormat, Command, Ends, FieldText, Issue, LabelCommand, Line, Recall, StationCommand,
    TextFormat,
};
use jobgroups::groups::{
    bar_field, bar_height, bar_type, bar_widths, check_option, comma_letter, extras_at, form_at,
    issue_count, issue_setup, lettering_at, line_ends, line_shape, magnification_at, point_at,
    sizes_at, text_field,
};
use jobgroups::letters::{LabelLetters, Letters, StationLetters};
use jobparts::cursor::Cursor;
use jobparts::part::{List, Wrong};
use limits::sizes::LAST_LINK;

// A label takes at most so many link strings behind the first.
const FURTHER_STRINGS: usize = LAST_LINK as usize - 1;

fn text_format<'a>(cursor: &mut Cursor<'a>) -> Result<TextFormat<'a>, Wrong>
    ensures { let read = groups_at (label_parts_of Pc) [] in
        Takes text_format_parts result cursor.old cursor.new read }
{
    let field = text_field(cursor)?;
    let origin = point_at(cursor)?;
    let magnification = magnification_at(cursor)?;
    let lettering = lettering_at(cursor)?;
    let check = check_option(cursor)?;
    let extras = extras_at(cursor)?;
    Ok(TextFormat {
        field,
        origin,
        magnification,
        lettering,
        check,
        extras,
    })
}

fn field_text<'a>(cursor: &mut Cursor<'a>) -> Result<FieldText<'a>, Wrong>
    ensures { let read = groups_at (label_parts_of Rc) [] in
        Takes field_text_parts result cursor.old cursor.new read }
{
    let field = text_field(cursor)?;
    let text = cursor.text()?;
    Ok(FieldText { field, text })
}

fn bar_format<'a>(cursor: &mut Cursor<'a>) -> Result<BarFormat<'a>, Wrong>
    ensures { let read = groups_at (label_parts_of Xb) [] in
        Takes bar_format_parts result cursor.old cursor.new read }
{
    let field = bar_field(cursor)?;
    let origin = point_at(cursor)?;
    let code = bar_type(cursor)?;
    let widths = bar_widths(cursor)?;
    let height = bar_height(cursor)?;
    let extras = extras_at(cursor)?;
    Ok(BarFormat {
        field,
        origin,
        code,
        widths,
        height,
        extras,
    })
}

// Kept so: one function for both texts would speak of a field's digits and limit in place of the two rows of the table.
fn bar_text<'a>(cursor: &mut Cursor<'a>) -> Result<FieldText<'a>, Wrong>
    ensures { let read = groups_at (label_parts_of Rb) [] in
        Takes field_text_parts result cursor.old cursor.new read }
{
    let field = bar_field(cursor)?;
    let text = cursor.text()?;
    Ok(FieldText { field, text })
}

fn line<'a>(cursor: &mut Cursor<'a>) -> Result<Line<'a>, Wrong>
    ensures { let read = groups_at (label_parts_of Lc) [] in
        Takes line_parts result cursor.old cursor.new read }
{
    let ends = line_ends(cursor)?;
    let shape = line_shape(cursor)?;
    Ok(Line { ends, shape })
}

fn area<'a>(cursor: &mut Cursor<'a>) -> Result<Area<'a>, Wrong>
    ensures { let read = groups_at (label_parts_of Xr) [] in
        Takes area_parts result cursor.old cursor.new read }
{
    cursor.byte(b';')?;
    let from = point_at(cursor)?;
    cursor.byte(b',')?;
    let to = point_at(cursor)?;
    let action = comma_letter(cursor, b'A', b'B')?;
    Ok(Area {
        ends: Ends { from, to },
        action,
    })
}

fn issue<'a>(cursor: &mut Cursor<'a>) -> Result<Issue<'a>, Wrong>
    ensures { let read = groups_at (station_parts_of Xs) [] in
        Takes issue_parts result cursor.old cursor.new read }
{
    let count = issue_count(cursor)?;
    let setup = issue_setup(cursor)?;
    Ok(Issue { count, setup })
}

fn recall<'a>(cursor: &mut Cursor<'a>) -> Result<Recall<'a>, Wrong>
    ensures { let read = groups_at (station_parts_of Xq) [] in
        Takes recall_parts result cursor.old cursor.new read }
{
    let form = form_at(cursor)?;
    let target = comma_letter(cursor, b'L', b'M')?;
    Ok(Recall { form, target })
}

fn store_b(cursor: &mut Cursor<'_>) -> Result<(), Wrong>
    ensures { let read = groups_at (station_parts_of J1) [] in
        Takes (λ _. []) result cursor.old cursor.new read }
{
    cursor.byte(b';')?;
    cursor.byte(b'B')
}

// The command that the letters tell, with all its parts.
// Kept so: a function for each of the two kinds would move a command of 400 bytes once more.
pub(crate) fn command<'a>(letters: Letters, cursor: &mut Cursor<'a>) -> Result<Command<'a>, Wrong>
    ensures parts { let read = groups_at (parts_of letters) [] in
        Takes (λ c. (seen_command c).parts) result cursor.old cursor.new read }
    ensures letters { IfOk result (λ c. (seen_command c).letters ≡ letters) }
{
    let command = match letters {
        Letters::OfLabel(letters) => Command::Label(match letters {
            LabelLetters::D => LabelCommand::SetSize(sizes_at(cursor)?),
            LabelLetters::C => LabelCommand::Clear,
            LabelLetters::Pc => LabelCommand::FormatText(text_format(cursor)?),
            LabelLetters::Xb => LabelCommand::FormatBar(bar_format(cursor)?),
            LabelLetters::RcLinks => {
                LabelCommand::SetLinks(cursor.list_part(List::Strings, FURTHER_STRINGS)?)
            }
            LabelLetters::Rc => LabelCommand::SetText(field_text(cursor)?),
            LabelLetters::Rb => LabelCommand::SetBar(bar_text(cursor)?),
            LabelLetters::Lc => LabelCommand::DrawLine(line(cursor)?),
            LabelLetters::Xr => LabelCommand::MarkArea(area(cursor)?),
        }),
        Letters::OfStation(letters) => Command::Station(match letters {
            StationLetters::Xs => StationCommand::PrintIssue(issue(cursor)?),
            StationLetters::Xo => StationCommand::BeginSaving(form_at(cursor)?),
            StationLetters::Xp => StationCommand::EndSaving,
            StationLetters::Xq => StationCommand::RecallForm(recall(cursor)?),
            StationLetters::J1 => {
                store_b(cursor)?;
                StationCommand::EmptyStore
            }
            StationLetters::Ws => StationCommand::WriteStatus,
            StationLetters::Wr => StationCommand::Reset,
        }),
    };
    Ok(command)
}
