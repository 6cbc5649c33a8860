// What the commands of a job do to a label, told by its line and its picture.
use faults::Refusal;
use job::read::read;
use jobgroups::command::Command;
use label::label::Label;
use limits::sizes::PICTURE_BYTES;
use std::alloc::Global;
use std::process::Abort;
use std::test::Fail;

// The label command at a place of a job is done, and any other passed over; answers the place behind it.
fn act(label: &mut Label, job: &[u8], at: usize) -> Result<usize, Refusal> {
    let (answer, next) = read(job, at);
    if let Command::Label(command) = answer.map_err(Refusal::from)? {
        label.act(&command)?;
    }
    Ok(next)
}

// All commands of a job are accepted.
// Kept so: a while would want a contract of `act`, and its proof, in a test.
fn does(label: &mut Label, job: &[u8]) -> Result<(), Fail> {
    let mut at = 0;
    for _ in 0..job.len() {
        if at >= job.len() {
            break;
        }
        at = act(label, job, at)?;
    }
    Ok(())
}

// The label's tag, the first of two, has this line.
fn prints(rt: &impl Abort, label: &Label, line: &[u8]) -> Result<(), Fail> {
    let mut work = [0; 1400];
    let n = label.write_line(1, 2, &mut work).ok_or("no line")?;
    assert!(rt; n <= 1400);
    assert!(rt; &work[0..n] == line);
    Ok(())
}

// The label's picture has so many black dots.
fn shows(rt: &impl Abort, heap: Global, label: &Label, black: u32) -> Result<(), Fail> {
    let mut dots = vec![in heap; 0xaa; PICTURE_BYTES]?;
    label.draw(&mut dots)?;
    let shown = dots
        .iter()
        .fold(0_u32, |n, b| n.saturating_add(b.count_ones()));
    assert_eq!(rt; shown, black);
    Ok(())
}

// The command is refused.
fn refuses(rt: &impl Abort, label: &mut Label, job: &[u8], why: Refusal) {
    assert_eq!(rt; act(label, job, 0).err(), Some(why));
}

#[test]
fn texts_are_set(rt: HostRuntime) -> Result<(), Fail> {
    let mut label = Label::new();
    prints(&rt, &label, b"0001,0002\n")?;
    does(
        &mut label,
        b"\x1bPC016;0100,0050,1,1,A,00,B,M1,-0000000001,Z02=BOOT7\n\0\x1bXB08;0200,0060,3,3,02,02,02,02,02,0,0100,Z02\n\0",
    )?;
    prints(&rt, &label, b"0001,0002,T16,0100,0050,BOOT79\n")?;
    does(&mut label, b"\x1bRB08;0007\n\0\x1bRC016;A\n\0")?;
    prints(
        &rt,
        &label,
        b"0001,0002,T16,0100,0050,AA,B08,0200,0060,   77\n",
    )?;
    // An accepted format replaces the field, without text unless one follows.
    does(&mut label, b"\x1bPC016;0100,0050,1,1,A,00,B\n\0")?;
    prints(&rt, &label, b"0001,0002,B08,0200,0060,   77\n")?;
    // Texts go, and formats stay.
    does(&mut label, b"\x1bC\n\0")?;
    prints(&rt, &label, b"0001,0002\n")?;
    does(&mut label, b"\x1bRB08;0007\n\0")?;
    prints(&rt, &label, b"0001,0002,B08,0200,0060,   77\n")
}

#[test]
fn links_are_joined(rt: HostRuntime) -> Result<(), Fail> {
    let mut label = Label::new();
    does(
        &mut label,
        b"\x1bRC;A,B\n\0\x1bPC001;0100,0050,1,1,A,00,B;02,01\n\0",
    )?;
    prints(&rt, &label, b"0001,0002\n")?;
    does(&mut label, b"\x1bRC;A,B\n\0")?;
    prints(&rt, &label, b"0001,0002,T01,0100,0050,BA\n")?;
    does(&mut label, b"\x1bRC;A\n\0")?;
    prints(&rt, &label, b"0001,0002,T01,0100,0050,A\n")?;
    // A string that is named twice is joined twice, into a bar too; a field that is not linked stays.
    does(
        &mut label,
        b"\x1bXB02;0200,0060,9,1,02,02,02,02,02,0,0100;02,02\n\0\x1bPC003;0100,0070,1,1,A,00,B=X\n\0\x1bRC;A,B\n\0",
    )?;
    prints(
        &rt,
        &label,
        b"0001,0002,T01,0100,0050,BA,T03,0100,0070,X,B02,0200,0060,BB\n",
    )?;
    // A joined text that is empty is no text.
    does(&mut label, b"\x1bRC;\n\0")?;
    prints(&rt, &label, b"0001,0002,T03,0100,0070,X\n")
}

#[test]
fn refusals(rt: HostRuntime) -> Result<(), Fail> {
    let mut label = Label::new();
    refuses(&rt, &mut label, b"\x1bRC002;X\n\0", Refusal::NoFormat);
    does(
        &mut label,
        b"\x1bPC001;0100,0050,1,1,A,00,B;01,02\n\0\x1bRC;A\n\0\x1bPC002;0100,0050,1,1,A,00,B,M0=41\n\0",
    )?;
    does(
        &mut label,
        b"\x1bPC004;0100,0050,1,1,A,00,B,M0;01\n\0\x1bXB01;0200,0060,3,3,02,02,02,02,02,0,0100\n\0",
    )?;
    refuses(&rt, &mut label, b"\x1bRC001;X\n\0", Refusal::FieldLinked);
    refuses(&rt, &mut label, b"\x1bRC004;X\n\0", Refusal::FieldLinked);
    refuses(
        &rt,
        &mut label,
        b"\x1bRC;012345678901234567890,012345678901234567890\n\0",
        Refusal::JoinedTooLong,
    );
    refuses(&rt, &mut label, b"\x1bRC002;AB\n\0", Refusal::OutsideCheck);
    // Field 4 refuses the string, so field 1 does not get it either.
    refuses(&rt, &mut label, b"\x1bRC;X\n\0", Refusal::OutsideCheck);
    refuses(&rt, &mut label, b"\x1bRB01;a\n\0", Refusal::OutsideCheck);
    refuses(
        &rt,
        &mut label,
        b"\x1bPC002;0100,0050,1,1,A,00,B,M0=AB\n\0",
        Refusal::OutsideCheck,
    );
    for _ in 0..12 {
        does(
            &mut label,
            b"\x1bLC;0010,0020,0010,0020,0,1\n\0\x1bXR;0010,0020,0010,0020,B\n\0",
        )?;
    }
    refuses(
        &rt,
        &mut label,
        b"\x1bLC;0010,0020,0010,0020,0,1\n\0",
        Refusal::TooManyDrawings,
    );
    refuses(
        &rt,
        &mut label,
        b"\x1bXR;0010,0020,0010,0020,A\n\0",
        Refusal::TooManyDrawings,
    );
    prints(
        &rt,
        &label,
        b"0001,0002,T01,0100,0050,A,T02,0100,0050,413\n",
    )
}

#[test]
fn drawings(rt: HostRuntime) -> Result<(), Fail> {
    let heap = rt.alloc();
    let mut label = Label::new();
    // Row 16, columns 8 to 16.
    does(&mut label, b"\x1bLC;0010,0020,0020,0020,0,1\n\0")?;
    shows(&rt, heap, &label, 9)?;
    // Column 8, rows 16 to 24, and then the rectangle of both.
    does(&mut label, b"\x1bLC;0010,0020,0010,0030,0,1\n\0")?;
    shows(&rt, heap, &label, 17)?;
    does(&mut label, b"\x1bLC;0010,0020,0020,0030,1,1\n\0")?;
    shows(&rt, heap, &label, 32)?;
    does(&mut label, b"\x1bXR;0010,0020,0020,0030,B\n\0")?;
    shows(&rt, heap, &label, 49)?;
    // The label is cut: length 0080 leaves rows 0 to 63, width 0100 columns 0 to 79.
    does(
        &mut label,
        b"\x1bC\n\0\x1bD0500,0100,0080\n\0\x1bLC;0000,0000,0500,0400,1,9\n\0",
    )?;
    assert_eq!(rt; label.pitch(), 500);
    shows(&rt, heap, &label, 9 * 80 + 9 * 55)
}
