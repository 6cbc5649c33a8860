// Prints a command and its parts, one line each.
use jobgroups::command::*;
use jobgroups::letters::Letters;
use jobparts::part::{Part, Source};
use std::io;
use std::io::Write;

// The bytes of an accepted part can all be printed.
fn text(rt: &HostRuntime, bytes: &[u8]) -> io::Result<()> {
    let mut out = rt.stdout();
    out.write_all(bytes)?;
    out.write_all(b"\n")
}

fn show(rt: &HostRuntime, name: &str, part: Part<'_>) -> io::Result<()> {
    let place = part.place;
    print!(rt; "  {place:06} {name} ")?;
    text(rt, part.bytes)
}

fn show_option(rt: &HostRuntime, name: &str, part: Option<Part<'_>>) -> io::Result<()> {
    match part {
        Some(p) => show(rt, name, p),
        None => Ok(()),
    }
}

fn show_point(rt: &HostRuntime, point: Point<'_>) -> io::Result<()> {
    show(rt, "x", point.x)?;
    show(rt, "y", point.y)
}

fn show_extras(rt: &HostRuntime, extras: Extras<'_>) -> io::Result<()> {
    show_option(rt, "step", extras.step)?;
    show_option(rt, "zero-suppression", extras.kept)?;
    match extras.source {
        Source::Nothing => Ok(()),
        Source::Text(p) => show(rt, "text", p),
        Source::Links(p) => show(rt, "links", p),
    }
}

fn show_text_format(rt: &HostRuntime, f: TextFormat<'_>) -> io::Result<()> {
    show(rt, "field", f.field)?;
    show_point(rt, f.origin)?;
    show(rt, "magnification-across", f.magnification.across)?;
    show(rt, "magnification-down", f.magnification.down)?;
    show(rt, "font", f.lettering.font)?;
    show(rt, "rotation", f.lettering.rotation)?;
    show(rt, "attribute", f.lettering.attribute)?;
    show_option(rt, "check", f.check)?;
    show_extras(rt, f.extras)
}

fn show_widths(rt: &HostRuntime, w: Widths<'_>) -> io::Result<()> {
    show(rt, "narrow-bar", w.narrow_bar)?;
    show(rt, "narrow-space", w.narrow_space)?;
    show(rt, "wide-bar", w.wide_bar)?;
    show(rt, "wide-space", w.wide_space)?;
    show(rt, "gap", w.gap)
}

fn show_bar_format(rt: &HostRuntime, f: BarFormat<'_>) -> io::Result<()> {
    show(rt, "field", f.field)?;
    show_point(rt, f.origin)?;
    show(rt, "type", f.code.kind)?;
    show(rt, "check", f.code.check)?;
    show_widths(rt, f.widths)?;
    show(rt, "rotation", f.height.rotation)?;
    show(rt, "height", f.height.height)?;
    show_extras(rt, f.extras)
}

fn show_issue(rt: &HostRuntime, i: Issue<'_>) -> io::Result<()> {
    show(rt, "labels", i.count.labels)?;
    show(rt, "cut", i.count.cut)?;
    show(rt, "sensor", i.setup.sensor)?;
    show(rt, "mode", i.setup.mode)?;
    show(rt, "speed", i.setup.speed)?;
    show(rt, "ribbon", i.setup.ribbon)?;
    show(rt, "rotation", i.setup.rotation)?;
    show(rt, "response", i.setup.response)
}

// What a command's first line begins with.
#[derive(Clone, Copy)]
struct Heading {
    at: usize,
    letters: Letters,
}

// The first line, which is one write.
fn head(rt: &HostRuntime, heading: Heading, what: &str) -> io::Result<()> {
    let Heading { at, letters } = heading;
    println!(rt; "{at:06} {letters} {what}")
}

fn show_drawing(rt: &HostRuntime, ends: Ends<'_>) -> io::Result<()> {
    show_point(rt, ends.from)?;
    show_point(rt, ends.to)
}

fn show_label_command(
    rt: &HostRuntime,
    heading: Heading,
    command: LabelCommand<'_>,
) -> io::Result<()> {
    match command {
        LabelCommand::SetSize(s) => {
            head(rt, heading, "sizes")?;
            show(rt, "pitch", s.pitch)?;
            show(rt, "width", s.width)?;
            show(rt, "length", s.length)
        }
        LabelCommand::Clear => head(rt, heading, "clear"),
        LabelCommand::FormatText(f) => {
            head(rt, heading, "text format")?;
            show_text_format(rt, f)
        }
        LabelCommand::FormatBar(f) => {
            head(rt, heading, "bar format")?;
            show_bar_format(rt, f)
        }
        LabelCommand::DrawLine(l) => {
            head(rt, heading, "line or rectangle")?;
            show_drawing(rt, l.ends)?;
            show(rt, "shape", l.shape.kind)?;
            show(rt, "dots", l.shape.dots)
        }
        LabelCommand::MarkArea(a) => {
            head(rt, heading, "clear or invert an area")?;
            show_drawing(rt, a.ends)?;
            show(rt, "action", a.action)
        }
        LabelCommand::SetLinks(p) => {
            head(rt, heading, "link strings")?;
            show(rt, "strings", p)
        }
        LabelCommand::SetText(t) => {
            head(rt, heading, "text")?;
            show(rt, "field", t.field)?;
            show(rt, "text", t.text)
        }
        LabelCommand::SetBar(t) => {
            head(rt, heading, "bar text")?;
            show(rt, "field", t.field)?;
            show(rt, "text", t.text)
        }
    }
}

fn show_station_command(
    rt: &HostRuntime,
    heading: Heading,
    command: StationCommand<'_>,
) -> io::Result<()> {
    match command {
        StationCommand::PrintIssue(i) => {
            head(rt, heading, "issue")?;
            show_issue(rt, i)
        }
        StationCommand::BeginSaving(f) => {
            head(rt, heading, "begin saving")?;
            show(rt, "form", f.form)?;
            show(rt, "response", f.response)
        }
        StationCommand::EndSaving => head(rt, heading, "end saving"),
        StationCommand::RecallForm(r) => {
            head(rt, heading, "recall")?;
            show(rt, "form", r.form.form)?;
            show(rt, "response", r.form.response)?;
            show(rt, "target", r.target)
        }
        StationCommand::EmptyStore => head(rt, heading, "empty the store"),
        StationCommand::WriteStatus => head(rt, heading, "status"),
        StationCommand::Reset => head(rt, heading, "reset"),
    }
}

pub(crate) fn show_command(rt: &HostRuntime, at: usize, command: Command<'_>) -> io::Result<()> {
    let letters = command.letters();
    let heading = Heading { at, letters };
    match command {
        Command::Label(command) => show_label_command(rt, heading, command),
        Command::Station(command) => show_station_command(rt, heading, command),
    }
}
