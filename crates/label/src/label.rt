// A label: its sizes, its fields and its drawings, all of it fixed memory; and what commands do to it.
ghost use Rattle.std.specs.Prelude.{◌≡◌, if◌then◌else◌, Ok, Err};
ghost use Rattle.faults.specs.declared.Refusal.TheVariants.{ShortBuffer};
ghost use Rattle.picture.specs.Picture.{too_short, shown};
ghost use Rattle.tagline.specs.Line.{line_of, Written};

use crate::action::{Action, action_of};
use crate::drawings::{Drawings, no_drawings};
use crate::fault::LabelFault;
use faults::Refusal;
use fields::table::Fields;
use jobgroups::command::LabelCommand;
use jobvalues::lists::strings_of;
use tagline::line::write_line;
use texts::rule::CountingRule;

// In tenths of a millimetre.
#[derive(Clone, Copy)]
pub(crate) struct Sizes {
    pub(crate) pitch: u16,
    pub(crate) width: u16,
    pub(crate) length: u16,
}

// The sizes of a label at making.
const NEW_SIZES: Sizes = Sizes {
    pitch: 520,
    width: 540,
    length: 500,
};

/// A label by its sizes, its fields and its drawings; a copy is 24 drawings and 24 fields large.
#[derive(Clone, Copy)]
pub struct Label {
    pub(crate) sizes: Sizes,
    pub(crate) fields: Fields,
    pub(crate) drawings: Drawings,
}

impl Label {
    ghost use Rattle.label.specs.Actions.{asked_by};
    ghost use Rattle.label.specs.Labels.{new_label, seen_label, seen_action, turned_label, label_picture, Acted};

    pub fn new() -> Label
        ensures { seen_label result ≡ new_label }
    {
        Label {
            sizes: NEW_SIZES,
            fields: Fields::blank(),
            drawings: no_drawings(),
        }
    }

    fn apply(&mut self, action: Action<'_>) -> Result<(), LabelFault>
        ensures { let before = seen_label self.old in
            Acted (seen_action action.entry) result before (seen_label self.new) }
    {
        match action {
            Action::SetSize(sizes) => self.sizes = sizes,
            Action::Clear => {
                self.fields.clear_texts();
                self.drawings = no_drawings();
            }
            Action::SetFormat { name, format, text } => self.fields.replace(name, format, text)?,
            Action::SetText { name, text } => self.fields.set_text(name, text)?,
            Action::SetLinks(bytes) => self.fields.set_links(&strings_of(bytes))?,
            Action::Draw(drawing) => self
                .drawings
                .push(drawing)
                .map_err(|_| LabelFault::TooManyDrawings)?,
        }
        Ok(())
    }

    /// Does the whole command, or nothing where it is refused.
    pub fn act(&mut self, command: &LabelCommand<'_>) -> Result<(), LabelFault>
        ensures { Acted (asked_by command.now) result (seen_label self.old) (seen_label self.new) }
    {
        self.apply(action_of(command))
    }

    /// In tenths of a millimetre; a picture does not depend on it.
    pub fn pitch(&self) -> u16
        ensures { result ≡ (seen_label self.now).pitch }
    {
        self.sizes.pitch
    }

    /// Every text is turned by its field's step.
    pub fn turn<R1: CountingRule, R2: CountingRule>(&mut self, first: &R1, second: &R2)
        ensures { let w = R1.wheels first.now in
            let v = R2.wheels second.now in
            seen_label self.new ≡ turned_label w v (seen_label self.old) }
    {
        self.fields.turn(first, second);
    }

    /// Writes the line of the label's finished tag into the front of `work`, and answers its length; none
    /// where `work` could not hold the longest line.
    pub fn write_line(&self, number: u16, size: u16, work: &mut [u8]) -> Option<usize>
        ensures { let line = line_of number size (seen_label self.now).table in
            Written line work.old work.new result }
    {
        write_line(&self.fields, number, size, work)
    }

    /// Writes the label's picture into the front of `dots`. Bytes behind it stay, and a buffer that is too
    /// short for it stays whole.
    pub fn draw(&self, dots: &mut [u8]) -> Result<(), Refusal>
        ensures answer { result ≡ (if too_short dots.old then Err ShortBuffer else Ok tt) }
        ensures bytes { dots.new ≡ shown (label_picture (seen_label self.now)) dots.old }
    {
        let sizes = self.sizes;
        picture::draw(self.drawings.as_slice(), sizes.width, sizes.length, dots)
    }
}
