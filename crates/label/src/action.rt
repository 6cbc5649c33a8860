// What a command asks of a label, whatever language the command was written in.
ghost use Rattle.std.specs.Prelude.{◌≡◌};
ghost use Rattle.label.specs.Actions.{asked_by};
ghost use Rattle.label.specs.Labels.{seen_action};

use crate::formats::{bar_format, source_text, text_format};
use crate::label::Sizes;
use crate::shapes::{area_drawing, line_drawing};
use fields::format::Format;
use fields::table::FieldName;
use jobgroups::command::LabelCommand;
use jobvalues::lists::text_of;
use jobvalues::numbers::{four_digit_number, two_digit_number};
use picture::drawing::Drawing;
use texts::text::Text;

#[derive(Clone, Copy)]
pub(crate) enum Action<'a> {
    SetSize(Sizes),
    Clear,
    SetFormat {
        name: FieldName,
        format: Format,
        text: Text,
    },
    SetText {
        name: FieldName,
        text: Text,
    },
    // The link strings, parted by commas: eight texts would make every action as large as they are.
    SetLinks(&'a [u8]),
    Draw(Drawing),
}

pub(crate) fn action_of<'a>(command: &LabelCommand<'a>) -> Action<'a>
    ensures { seen_action result ≡ asked_by command.now }
{
    match command {
        LabelCommand::SetSize(sent) => Action::SetSize(Sizes {
            pitch: four_digit_number(sent.pitch.bytes),
            width: four_digit_number(sent.width.bytes),
            length: four_digit_number(sent.length.bytes),
        }),
        LabelCommand::Clear => Action::Clear,
        LabelCommand::FormatText(sent) => Action::SetFormat {
            name: FieldName::Text(two_digit_number(sent.field.bytes)),
            format: text_format(sent),
            text: source_text(sent.extras.source),
        },
        LabelCommand::FormatBar(sent) => Action::SetFormat {
            name: FieldName::Bar(two_digit_number(sent.field.bytes)),
            format: bar_format(sent),
            text: source_text(sent.extras.source),
        },
        LabelCommand::SetLinks(sent) => Action::SetLinks(sent.bytes),
        LabelCommand::SetText(sent) => Action::SetText {
            name: FieldName::Text(two_digit_number(sent.field.bytes)),
            text: text_of(sent.text.bytes),
        },
        LabelCommand::SetBar(sent) => Action::SetText {
            name: FieldName::Bar(two_digit_number(sent.field.bytes)),
            text: text_of(sent.text.bytes),
        },
        LabelCommand::DrawLine(sent) => Action::Draw(line_drawing(sent)),
        LabelCommand::MarkArea(sent) => Action::Draw(area_drawing(sent)),
    }
}
