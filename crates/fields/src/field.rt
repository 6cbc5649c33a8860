// A field: its format, where it has one, and its text. A field with an empty text has no text.
ghost use Rattle.std.specs.Prelude.{◌≡◌, map, if◌then◌else◌};
ghost use Rattle.std.specs.Option.{option_copied};
ghost use Rattle.texts.specs.Contents.{contents};
ghost use Rattle.fields.specs.Records.{seen_format, seen_option, seen_field, blank_field};
ghost use Rattle.fields.specs.Answers.{Answered};
ghost use Rattle.fields.specs.Calls.{outside_check, replaced_by, retext, retext_refusal, emptied, turned_field};
ghost use Rattle.fields.specs.Linking.{too_long, outside, linked_if_fits};

use crate::fault::FieldFault;
use crate::format::{FieldKind, Format};
use texts::rule::CountingRule;
use texts::text::Text;

#[derive(Clone, Copy)]
pub struct Field {
    format: Option<Format>,
    text: Text,
}

impl Field {
    // A field of a new label: no format and no text.
    pub(crate) fn blank() -> Field
        ensures { seen_field result ≡ blank_field }
    {
        Field {
            format: None,
            text: Text::empty(),
        }
    }

    pub fn format(&self) -> Option<&Format>
        ensures { seen_option (option_copied result) ≡ (seen_field self.now).format }
    {
        self.format.as_ref()
    }

    pub fn text(&self) -> &Text
        ensures { contents result.now ≡ (seen_field self.now).text }
    {
        &self.text
    }

    // A new format with a text, in place of all that the field was.
    pub(crate) fn replace(&mut self, format: Format, text: Text) -> Result<(), FieldFault>
        ensures { let why = outside_check format.check (contents text) in
            let done = replaced_by (seen_format format) (contents text) in
            Answered why result (seen_field self.old) (seen_field self.new) done }
    {
        if !format.check.admits(text.as_bytes()) {
            return Err(FieldFault::OutsideCheck);
        }
        *self = Field {
            format: Some(format),
            text,
        };
        Ok(())
    }

    // Another text.
    pub(crate) fn set_text(&mut self, text: Text) -> Result<(), FieldFault>
        ensures { let why = retext_refusal (seen_field self.old).format (contents text) in
            let done = retext (contents text) (seen_field self.old) in
            Answered why result (seen_field self.old) (seen_field self.new) done }
    {
        let Some(format) = &self.format else {
            return Err(FieldFault::NoFormat);
        };
        if !format.links.is_empty() {
            return Err(FieldFault::FieldLinked);
        }
        if !format.check.admits(text.as_bytes()) {
            return Err(FieldFault::OutsideCheck);
        }
        self.text = text;
        Ok(())
    }

    pub(crate) fn clear(&mut self)
        ensures { seen_field self.new ≡ emptied (seen_field self.old) }
    {
        self.text = Text::empty();
    }

    // The text turned by the field's step, by the rule of the field's kind.
    pub(crate) fn turn<R1: CountingRule, R2: CountingRule>(&mut self, first: &R1, second: &R2)
        ensures { let firsts = R1.CountingRule.wheels first.now in
            let seconds = R2.CountingRule.wheels second.now in
            seen_field self.new ≡ turned_field firsts seconds (seen_field self.old) }
    {
        if self.text.is_empty() {
            return;
        }
        let Some(format) = &self.format else {
            return;
        };
        if format.step == 0 {
            return;
        }
        self.text = match format.kind {
            FieldKind::Text | FieldKind::Code39 => self.text.turned(first, format.step),
            FieldKind::Code128 => self.text.turned(second, format.step),
        };
    }

    // The field's joined text is too long for a text.
    pub(crate) fn joins_too_long(&self, strings: &[Text]) -> bool
        ensures { result ≡ too_long (map contents strings.now) (seen_field self.now) }
    {
        let Some(format) = &self.format else {
            return false;
        };
        format.links.joins_too_long(strings)
    }

    // The field's joined text has a character outside the set of its check.
    pub(crate) fn joins_outside(&self, strings: &[Text]) -> bool
        ensures { result ≡ outside (map contents strings.now) (seen_field self.now) }
    {
        let Some(format) = &self.format else {
            return false;
        };
        !format.links.are_admitted(strings, format.check)
    }

    // A linked field's text becomes its joined text, where that is not too long for a text.
    pub(crate) fn link(&mut self, strings: &[Text])
        ensures { let sent = map contents strings.now in
            seen_field self.new ≡ linked_if_fits sent (seen_field self.old) }
    {
        let Some(format) = &self.format else {
            return;
        };
        if format.links.is_empty() {
            return;
        }
        if let Some(joined) = format.links.joined(strings) {
            self.text = joined;
        }
    }
}
