// The formats of fields that commands send.
ghost use Rattle.std.specs.Prelude.{◌≡◌};
ghost use Rattle.texts.specs.Contents.{contents};
ghost use Rattle.fields.specs.Records.{seen_links, seen_format};
ghost use Rattle.jobparts.specs.Parts.{seen_source};
ghost use Rattle.jobgroups.specs.Commands.{text_format_parts, bar_format_parts};
ghost use Rattle.label.specs.Actions.{bar_kind, source_text, source_links, text_format_of, bar_format_of};

use fields::format::{FieldKind, Format};
use fields::links::Links;
use jobgroups::command::{BarFormat, TextFormat};
use jobparts::part::Source;
use jobparts::values::number_of;
use jobvalues::checks::{bar_check, text_check};
use jobvalues::lists::{links_of, text_of};
use jobvalues::numbers::{four_digit_number, kept_of, step_of};
use texts::text::Text;

// The type of a bar: 3 or 9.
fn bar_kind(bytes: &[u8]) -> FieldKind
    ensures { result ≡ bar_kind bytes.now }
{
    match number_of(bytes) {
        9 => FieldKind::Code128,
        _ => FieldKind::Code39,
    }
}

// The text that comes with a format.
pub(crate) fn source_text(source: Source<'_>) -> Text
    ensures { contents result ≡ source_text (seen_source source.entry) }
{
    match source {
        Source::Text(part) => text_of(part.bytes),
        Source::Nothing | Source::Links(_) => Text::empty(),
    }
}

fn source_links(source: Source<'_>) -> Links
    ensures { seen_links result ≡ source_links (seen_source source.entry) }
{
    match source {
        Source::Links(part) => links_of(part.bytes),
        Source::Nothing | Source::Text(_) => Links::none(),
    }
}

// What a PC sets of its field.
pub(crate) fn text_format(sent: &TextFormat<'_>) -> Format
    ensures { seen_format result ≡ text_format_of (text_format_parts sent.now) }
{
    Format {
        x: four_digit_number(sent.origin.x.bytes),
        y: four_digit_number(sent.origin.y.bytes),
        check: text_check(sent.check),
        step: step_of(sent.extras.step),
        kept: kept_of(sent.extras.kept),
        links: source_links(sent.extras.source),
        kind: FieldKind::Text,
    }
}

// What an XB sets of its field.
// Kept so: one function for both formats would have to say all seven parts again in a contract of its own.
pub(crate) fn bar_format(sent: &BarFormat<'_>) -> Format
    ensures { seen_format result ≡ bar_format_of (bar_format_parts sent.now) }
{
    Format {
        x: four_digit_number(sent.origin.x.bytes),
        y: four_digit_number(sent.origin.y.bytes),
        check: bar_check(sent.code.check),
        step: step_of(sent.extras.step),
        kept: kept_of(sent.extras.kept),
        links: source_links(sent.extras.source),
        kind: bar_kind(sent.code.kind.bytes),
    }
}
