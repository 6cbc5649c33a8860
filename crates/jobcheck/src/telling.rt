// Tells each command of a job, and what is wrong with those that are refused.
use crate::findings::Heard;
use crate::forms::Forms;
use crate::parts::{Walk, choices_at};
use crate::source::Source;
use crate::words::{Wanted, advice, is_about, title};
use faults::{Fault, Refusal};
use job::dispatch::letters_at;
use job::read::read;
use jobgroups::letters::Letters;
use jobparts::bytes::{first, rest_at};
use jobtable::item::Item;
use jobtable::rows::item;
use std::alloc::Global;
use std::io;
use std::io::Write;

const ESC: u8 = 0x1b;

const LF: u8 = 0x0a;

// The longest body.
const LONGEST_BODY: usize = 252;

// What stands at a place, without its ESC, up to an LF or the next ESC.
fn body_at(job: &[u8], at: usize) -> &[u8] {
    let mut bytes = first(rest_at(job, at), LONGEST_BODY + 1);
    if bytes.first() == Some(&ESC) {
        bytes = rest_at(bytes, 1);
    }
    let end = bytes
        .iter()
        .position(|b| *b == LF || *b == ESC)
        .unwrap_or(bytes.len());
    first(bytes, end)
}

// Where a command stands: a line of a source, or a byte of a job.
fn tell_where<W: Write>(out: &mut W, source: &Source, at: usize) -> io::Result<()> {
    match source.line_at(at) {
        Some(line) => {
            let file = source.files.get(line.file).map_or("", |file| file.as_str());
            let number = line.number;
            write!(out, "{file}, line {number}")
        }
        None => write!(out, "byte {at}"),
    }
}

// Bytes as they can be shown, one character for each.
fn tell_bytes<W: Write>(out: &mut W, bytes: &[u8]) -> io::Result<()> {
    for b in bytes {
        let shown = if matches!(b, b' '..=b'~') { *b } else { b'?' };
        out.write_all(&[shown])?;
    }
    Ok(())
}

// The parts of a body that is accepted, with their names.
fn tell_parts<W: Write>(out: &mut W, letters: Letters, body: &[u8]) -> io::Result<()> {
    let mut walk = Walk::new(letters, body);
    for _ in 0..64 {
        let Some(standing) = walk.step() else {
            break;
        };
        if matches!(standing.named.1, Item::Byte(_)) || standing.bytes.is_empty() {
            continue;
        }
        let name = standing.named.0;
        write!(out, "; {name} ")?;
        tell_bytes(out, standing.bytes)?;
    }
    Ok(())
}

// The name of an item that is wanted, and what it has to be; of a byte also what comes behind it.
fn tell_item<W: Write>(out: &mut W, letters: Letters, n: usize) -> io::Result<()> {
    let Some(named) = item(letters, n) else {
        return writeln!(out, "    nothing more: the command ends here");
    };
    let wanted = Wanted(named.1);
    let name = named.0;
    match (named.1, item(letters, n.saturating_add(1))) {
        (Item::Byte(_), Some(then)) => {
            let next = then.0;
            let behind = Wanted(then.1);
            writeln!(
                out,
                "    a {name} ({wanted}), and behind it {next}: {behind}"
            )
        }
        _ => writeln!(out, "    {name}: {wanted}"),
    }
}

// The items that can stand at a place.
fn tell_wanted<W: Write>(
    out: &mut W,
    letters: Letters,
    body: &[u8],
    place: usize,
) -> io::Result<()> {
    let choices = choices_at(letters, body, place);
    for n in choices.first..choices.behind {
        tell_item(out, letters, n)?;
    }
    Ok(())
}

// The place of the part that a refusal of the whole command is about; the body's beginning, if there is none.
fn place_about(letters: Letters, body: &[u8], refusal: Refusal) -> usize {
    let mut walk = Walk::new(letters, body);
    for _ in 0..64 {
        let Some(standing) = walk.step() else {
            break;
        };
        if is_about(refusal, standing.named.0) {
            return standing.place;
        }
    }
    0
}

// A body, a mark under a place of it, and which part stands there.
fn tell_body<W: Write>(out: &mut W, body: &[u8], place: usize, fault: Fault) -> io::Result<()> {
    let letters = letters_at(body);
    let place = match letters {
        Some(letters) if fault.refusal.number() > 8 => place_about(letters, body, fault.refusal),
        _ => place,
    };
    write!(out, "    ")?;
    tell_bytes(out, body)?;
    write!(out, "\n    ")?;
    for _ in 0..place {
        out.write_all(b" ")?;
    }
    writeln!(out, "^")?;
    match body.get(place) {
        Some(b) if !matches!(b, b' '..=b'~') => {
            let name = match b {
                b'\t' => ", a tab",
                b'\r' => ", the end of a line as Windows writes it",
                0xef => ", maybe of a byte order mark",
                _ => "",
            };
            writeln!(out, "    there is the byte {b:02X}H{name}")?;
        }
        _ => {}
    }
    match letters {
        Some(letters) if fault.refusal.number() >= 7 && place > 0 => tell_wanted(
            out, letters, body, place,
        )?,
        _ => {}
    }
    Ok(())
}

// What a form goes without that is being saved.
fn tell_lack<W: Write>(out: &mut W, saving: u8) -> io::Result<()> {
    writeln!(
        out,
        "    form {saving:02} is being saved and goes without this line: mend it and save the whole form again;"
    )?;
    writeln!(
        out,
        "    sent alone after XP it does not come into the form"
    )
}

// A command that is refused.
fn tell_fault<W: Write>(
    out: &mut W,
    source: &Source,
    forms: &Forms,
    at: usize,
    fault: Fault,
) -> io::Result<()> {
    let number = fault.refusal.number();
    let refusal = fault.refusal;
    tell_where(out, source, at)?;
    write!(out, ": refused {number:02}")?;
    let body = body_at(source.job.as_slice(), at);
    let form = fault.form;
    let in_form = form != 0 && refusal != Refusal::NoSuchForm;
    if in_form {
        write!(out, " in form {form:02}")?;
    }
    writeln!(out, ": {refusal}")?;
    if in_form {
        write!(out, "    ")?;
        tell_bytes(out, body)?;
        write!(
            out,
            "\n    where the form has, at its byte {0}",
            fault.place
        )?;
        match forms.saved_from(form, fault.place) {
            Some(from) => {
                write!(out, " (")?;
                tell_where(out, source, from)?;
                writeln!(out, ")")?;
                tell_body(out, body_at(source.job.as_slice(), from), 0, fault)?;
            }
            None => writeln!(out, "")?,
        }
    } else {
        tell_body(
            out,
            body,
            fault.place.saturating_sub(at.saturating_add(1)),
            fault,
        )?;
    }
    let what = advice(refusal);
    writeln!(out, "    {what}")?;
    if in_form {
        writeln!(
            out,
            "    mend the line of the form and save the whole form again; nothing of the recall was done"
        )?;
    }
    let lacks = number <= 8 || refusal == Refusal::DraftFull;
    match forms.saving() {
        Some(saving) if lacks => tell_lack(out, saving),
        _ => Ok(()),
    }
}

// A command that was accepted.
fn tell_command<W: Write>(
    out: &mut W,
    source: &Source,
    forms: &Forms,
    at: usize,
) -> io::Result<()> {
    tell_where(out, source, at)?;
    let body = body_at(source.job.as_slice(), at);
    if let Some(letters) = letters_at(body) {
        let what = title(letters);
        write!(out, ": {letters} {what}")?;
        if let Some(saving) = forms.saving() {
            write!(out, " in form {saving:02}")?;
        }
        tell_parts(out, letters, body)?;
    }
    writeln!(out, "")
}

// Tells the commands of a job as they were heard.
pub(crate) fn tell<W: Write>(
    alloc: Global,
    out: &mut W,
    source: &Source,
    heard: &[Heard],
) -> io::Result<()> {
    let mut forms = Forms::new(alloc);
    let job = source.job.as_slice();
    for heard in heard {
        match heard.fault {
            Some(fault) => tell_fault(out, source, &forms, heard.at, fault)?,
            None => {
                tell_command(out, source, &forms, heard.at)?;
                let (command, next) = read(job, heard.at);
                if let Ok(command) = command {
                    forms.accept(&command, heard.at, next.saturating_sub(heard.at))?;
                }
            }
        }
    }
    if let Some(form) = forms.saving() {
        let line = "the job ends while this form is being saved: without XP it is not in the store";
        writeln!(out, "form {form:02}: {line}")?;
    }
    Ok(())
}
