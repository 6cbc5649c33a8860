// A command with all its parts, each the job's own bytes. docs/COMMANDS.md has the formats.
use crate::letters::{LabelLetters, Letters, StationLetters};
use jobparts::part::{Part, Source};

/// D: the sizes of a label, in tenths of a millimetre.
#[derive(Clone, Copy)]
pub struct Size<'a> {
    pub pitch: Part<'a>,
    pub width: Part<'a>,
    pub length: Part<'a>,
}

/// A place on the label, in tenths of a millimetre.
#[derive(Clone, Copy)]
pub struct Point<'a> {
    pub x: Part<'a>,
    pub y: Part<'a>,
}

/// How often the characters of a text are as wide and as high.
#[derive(Clone, Copy)]
pub struct Magnification<'a> {
    pub across: Part<'a>,
    pub down: Part<'a>,
}

/// How the characters of a text look.
#[derive(Clone, Copy)]
pub struct Lettering<'a> {
    pub font: Part<'a>,
    pub rotation: Part<'a>,
    pub attribute: Part<'a>,
}

/// What text and bar formats end with.
#[derive(Clone, Copy)]
pub struct Extras<'a> {
    pub step: Option<Part<'a>>,
    pub kept: Option<Part<'a>>,
    pub source: Source<'a>,
}

/// PC: the format of a text field.
#[derive(Clone, Copy)]
pub struct TextFormat<'a> {
    pub field: Part<'a>,
    pub origin: Point<'a>,
    pub magnification: Magnification<'a>,
    pub lettering: Lettering<'a>,
    pub check: Option<Part<'a>>,
    pub extras: Extras<'a>,
}

/// The type of a bar code, and its check.
#[derive(Clone, Copy)]
pub struct BarType<'a> {
    pub kind: Part<'a>,
    pub check: Part<'a>,
}

/// The widths of a bar code.
#[derive(Clone, Copy)]
pub struct Widths<'a> {
    pub narrow_bar: Part<'a>,
    pub narrow_space: Part<'a>,
    pub wide_bar: Part<'a>,
    pub wide_space: Part<'a>,
    pub gap: Part<'a>,
}

/// How a bar code stands, and how high it is.
#[derive(Clone, Copy)]
pub struct Height<'a> {
    pub rotation: Part<'a>,
    pub height: Part<'a>,
}

/// XB: the format of a bar field.
#[derive(Clone, Copy)]
pub struct BarFormat<'a> {
    pub field: Part<'a>,
    pub origin: Point<'a>,
    pub code: BarType<'a>,
    pub widths: Widths<'a>,
    pub height: Height<'a>,
    pub extras: Extras<'a>,
}

/// RC and RB: a field's text.
#[derive(Clone, Copy)]
pub struct FieldText<'a> {
    pub field: Part<'a>,
    pub text: Part<'a>,
}

/// The two ends of a line, or two corners.
#[derive(Clone, Copy)]
pub struct Ends<'a> {
    pub from: Point<'a>,
    pub to: Point<'a>,
}

/// A line or a rectangle, and how thick it is.
#[derive(Clone, Copy)]
pub struct Shape<'a> {
    pub kind: Part<'a>,
    pub dots: Part<'a>,
}

/// LC: a line or a rectangle.
#[derive(Clone, Copy)]
pub struct Line<'a> {
    pub ends: Ends<'a>,
    pub shape: Shape<'a>,
}

/// XR: an area that is cleared or inverted.
#[derive(Clone, Copy)]
pub struct Area<'a> {
    pub ends: Ends<'a>,
    pub action: Part<'a>,
}

/// How many labels are issued, and after how many they are cut.
#[derive(Clone, Copy)]
pub struct Count<'a> {
    pub labels: Part<'a>,
    pub cut: Part<'a>,
}

/// How the device issues labels.
#[derive(Clone, Copy)]
pub struct Setup<'a> {
    pub sensor: Part<'a>,
    pub mode: Part<'a>,
    pub speed: Part<'a>,
    pub ribbon: Part<'a>,
    pub rotation: Part<'a>,
    pub response: Part<'a>,
}

/// XS: an issue of labels.
#[derive(Clone, Copy)]
pub struct Issue<'a> {
    pub count: Count<'a>,
    pub setup: Setup<'a>,
}

/// XO: the form under which saving begins.
#[derive(Clone, Copy)]
pub struct Form<'a> {
    pub form: Part<'a>,
    pub response: Part<'a>,
}

/// XQ: the form that is recalled.
#[derive(Clone, Copy)]
pub struct Recall<'a> {
    pub form: Form<'a>,
    pub target: Part<'a>,
}

/// What is sent to the label: it is saved with a form, and done when the form is recalled.
#[derive(Clone, Copy)]
pub enum LabelCommand<'a> {
    SetSize(Size<'a>),
    Clear,
    FormatText(TextFormat<'a>),
    FormatBar(BarFormat<'a>),
    SetLinks(Part<'a>),
    SetText(FieldText<'a>),
    SetBar(FieldText<'a>),
    DrawLine(Line<'a>),
    MarkArea(Area<'a>),
}

/// What is sent to the station itself.
#[derive(Clone, Copy)]
pub enum StationCommand<'a> {
    PrintIssue(Issue<'a>),
    BeginSaving(Form<'a>),
    EndSaving,
    RecallForm(Recall<'a>),
    EmptyStore,
    WriteStatus,
    Reset,
}

#[derive(Clone, Copy)]
pub enum Command<'a> {
    Label(LabelCommand<'a>),
    Station(StationCommand<'a>),
}

impl<'a> Command<'a> {
    ghost use Rattle.std.specs.Prelude.{◌≡◌};
    ghost use Rattle.jobgroups.specs.Commands.{seen_command};

    pub fn letters(&self) -> Letters
        ensures { result ≡ (seen_command self.now).letters }
    {
        match self {
            Command::Label(command) => Letters::OfLabel(match command {
                LabelCommand::SetSize(_) => LabelLetters::D,
                LabelCommand::Clear => LabelLetters::C,
                LabelCommand::FormatText(_) => LabelLetters::Pc,
                LabelCommand::FormatBar(_) => LabelLetters::Xb,
                LabelCommand::SetLinks(_) => LabelLetters::RcLinks,
                LabelCommand::SetText(_) => LabelLetters::Rc,
                LabelCommand::SetBar(_) => LabelLetters::Rb,
                LabelCommand::DrawLine(_) => LabelLetters::Lc,
                LabelCommand::MarkArea(_) => LabelLetters::Xr,
            }),
            Command::Station(command) => Letters::OfStation(match command {
                StationCommand::PrintIssue(_) => StationLetters::Xs,
                StationCommand::BeginSaving(_) => StationLetters::Xo,
                StationCommand::EndSaving => StationLetters::Xp,
                StationCommand::RecallForm(_) => StationLetters::Xq,
                StationCommand::EmptyStore => StationLetters::J1,
                StationCommand::WriteStatus => StationLetters::Ws,
                StationCommand::Reset => StationLetters::Wr,
            }),
        }
    }
}
