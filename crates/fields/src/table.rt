// The field table of a label: 16 text fields and 8 bar fields.
ghost use Rattle.std.specs.Prelude.{◌≡◌, map, length, Bool, None, Option};
ghost use Rattle.texts.specs.Contents.{contents};
ghost use Rattle.limits.specs.Limits.{text_fields, bar_fields};
ghost use Rattle.fields.specs.Records.{FieldSeen, seen_format, seen_field};
ghost use Rattle.fields.specs.Tables.{seen_fields, blank_table, place_of, each_field, any_field, refusal_of, Updated};
ghost use Rattle.fields.specs.Answers.{Answered};
ghost use Rattle.fields.specs.Calls.{replaced, replace_refusal, retexted, text_refusal, cleared, turned_table};
ghost use Rattle.fields.specs.Linking.{linked, link_refusal};
ghost use Rattle.fields.specs.declared.fault.FieldFault.{FieldFault};

use crate::fault::FieldFault;
use crate::field::Field;
use crate::format::Format;
use limits::sizes::{BAR_FIELDS, TEXT_FIELDS};
use texts::rule::CountingRule;
use texts::text::Text;

/// A field by its kind and number. Fields are numbered from 1.
#[derive(Clone, Copy)]
pub enum FieldName {
    Text(u8),
    Bar(u8),
}

#[derive(Clone, Copy)]
pub struct Fields {
    texts: [Field; TEXT_FIELDS],
    bars: [Field; BAR_FIELDS],
}

// The place of a field among so many of its kind; a number that none of them has is a field without a format.
fn place(number: u8, count: usize) -> Result<usize, FieldFault>
    ensures { result ≡ place_of count number }
{
    usize::from(number)
        .checked_sub(1)
        .filter(|i| *i < count)
        .ok_or(FieldFault::NoFormat)
}

impl Fields {
    /// The fields of a new label.
    pub fn blank() -> Fields
        ensures { seen_fields result ≡ blank_table }
    {
        let blank = Field::blank();
        Fields {
            texts: [blank; TEXT_FIELDS],
            bars: [blank; BAR_FIELDS],
        }
    }

    /// The text fields, in the order of their numbers.
    pub fn texts(&self) -> &[Field]
        ensures seen { map seen_field result.now ≡ (seen_fields self.now).texts }
        ensures count { length result.now ≡ text_fields }
    {
        &self.texts
    }

    /// The bar fields, in the order of their numbers.
    pub fn bars(&self) -> &[Field]
        ensures seen { map seen_field result.now ≡ (seen_fields self.now).bars }
        ensures count { length result.now ≡ bar_fields }
    {
        &self.bars
    }

    // Has the field of a name updated; a name without a field has no format.
    fn update<F: FnOnce(&mut Field) -> Result<(), FieldFault>>(
        &mut self,
        name: FieldName,
        change: F,
    ) -> Result<(), FieldFault>
        requires { F.IsAlwaysCallable change }
        ensures { (why : FieldSeen → Option FieldFault) (done : FieldSeen → FieldSeen)
            → ((x y : _) (r : _) → F.post change x r y
            → Answered (why (seen_field x.now)) r (seen_field x.now) (seen_field y.now)
            (done (seen_field x.now)))
            → Updated why done name result (seen_fields self.old) (seen_fields self.new) }
    {
        match name {
            FieldName::Text(n) => change(&mut self.texts[place(n, TEXT_FIELDS)?]),
            FieldName::Bar(n) => change(&mut self.bars[place(n, BAR_FIELDS)?]),
        }
    }

    // Does one thing to every field.
    fn each<F: Fn(&mut Field)>(&mut self, change: F)
        requires { F.IsAlwaysCallable change }
        ensures { (g : FieldSeen → FieldSeen)
            → ((x y : _) → F.post change x tt y → seen_field y.now ≡ g (seen_field x.now))
            → seen_fields self.new ≡ each_field g (seen_fields self.old) }
    {
        for f in &mut self.texts {
            change(f);
        }
        for f in &mut self.bars {
            change(f);
        }
    }

    // Some field passes a test.
    fn any<F: Fn(&Field) -> bool>(&self, test: F) -> bool
        requires { F.IsAlwaysCallable test }
        ensures { (p : FieldSeen → Bool)
            → ((x : _) (r : _) → F.post test x r → r ≡ p (seen_field x.now))
            → result ≡ any_field p (seen_fields self.now) }
    {
        self.texts.iter().chain(&self.bars).any(|f| test(f))
    }

    /// A field's new format, with its text; nothing of what the field was stays.
    pub fn replace(&mut self, name: FieldName, format: Format, text: Text) -> Result<(), FieldFault>
        ensures { let new = seen_format format in
            let t = contents text in
            let why = replace_refusal name new t in
            let done = replaced name new t (seen_fields self.old) in
            Answered why result (seen_fields self.old) (seen_fields self.new) done }
    {
        self.update(name, |field| field.replace(format, text))
    }

    /// Another text for a field.
    pub fn set_text(&mut self, name: FieldName, text: Text) -> Result<(), FieldFault>
        ensures { let why = text_refusal name (contents text) (seen_fields self.old) in
            let done = retexted name (contents text) (seen_fields self.old) in
            Answered why result (seen_fields self.old) (seen_fields self.new) done }
    {
        self.update(name, |field| field.set_text(text))
    }

    // Why the strings are refused, if they are.
    fn test_links(&self, strings: &[Text]) -> Result<(), FieldFault>
        ensures { let sent = map contents strings.now in
            refusal_of result ≡ link_refusal sent (seen_fields self.now) }
    {
        if self.any(|f| f.joins_too_long(strings)) {
            return Err(FieldFault::JoinedTooLong);
        }
        if self.any(|f| f.joins_outside(strings)) {
            return Err(FieldFault::OutsideCheck);
        }
        Ok(())
    }

    // Strings that are not refused, joined for every linked field.
    fn link_fields(&mut self, strings: &[Text])
        ensures { let sent = map contents strings.now in
            link_refusal sent (seen_fields self.old) ≡ None
            → seen_fields self.new ≡ linked sent (seen_fields self.old) }
    {
        self.each(|f| f.link(strings));
    }

    /// The link strings sent: every linked field gets its strings joined in its own order, or no field gets any.
    pub fn set_links(&mut self, strings: &[Text]) -> Result<(), FieldFault>
        ensures { let sent = map contents strings.now in
            let why = link_refusal sent (seen_fields self.old) in
            let done = linked sent (seen_fields self.old) in
            Answered why result (seen_fields self.old) (seen_fields self.new) done }
    {
        self.test_links(strings)?;
        self.link_fields(strings);
        Ok(())
    }

    /// All texts go, and all formats stay.
    pub fn clear_texts(&mut self)
        ensures { seen_fields self.new ≡ cleared (seen_fields self.old) }
    {
        self.each(|f| f.clear());
    }

    /// Every text is turned by its field's step: texts and bars of type 3 by the first rule, bars of type 9 by the
    /// second.
    pub fn turn<R1: CountingRule, R2: CountingRule>(&mut self, first: &R1, second: &R2)
        ensures { let firsts = R1.CountingRule.wheels first.now in
            let seconds = R2.CountingRule.wheels second.now in
            seen_fields self.new ≡ turned_table firsts seconds (seen_fields self.old) }
    {
        self.each(|f| f.turn(first, second));
    }
}
