// Buffers that are too short, whatever the call is, and such as are just long enough.
use crate::jobs::{behind, framed};
use crate::script::{OUT_OF_STOCK, Step};
use crate::watched::{Watched, over, plays};
use jobparts::bytes::first;
use printers::roll::Roll;
use station::machine::Machine;
use std::process::Abort;
use std::test::Fail;
use stores::packed::PackedStore;
use texts::digits::{Code128Rule, PlainRule};

// Every command, and two bodies that are none.
const ALL: &[u8] =
    b"D0520,0540,0500|C|PC001;0100,0050,1,1,A,00,B=7|XB01;0100,0050,3,1,01,01,01,01,01,0,0100=7|RC001;X|RB01;X|RC;A|LC;0010,0020,0010,0020,0,1|XR;0010,0020,0010,0020,A|XS;I,0002,0002C3000|XO;01,0|XP|XQ;01,0,L|J1;B|WS|WR|Q|CX";

// Each command is refused for a short answer buffer and for a short work buffer, and at the job's end too.
fn all_are_short(
    rt: &impl Abort,
    watched: &mut Watched<PackedStore, Roll, PlainRule, Code128Rule>,
) -> Result<(), Fail> {
    let job = framed(watched.heap, ALL)?;
    let mut at = 0;
    for _ in 0..18 {
        watched.is_short(rt, &job, at, 12, 1404)?;
        watched.is_short(rt, &job, at, 16, 1399)?;
        at = behind(&job, at);
    }
    assert_eq!(rt; at, job.len());
    watched.is_short(rt, &job, at, 12, 1404)?;
    watched.is_short(rt, &job, at, 0, 0)
}

const FORM_AND_LABEL: &[Step] = &[
    Step::Does(b"XO;01,0|RC001;0042|XP|PC001;0100,0050,1,1,A,00,B,+0000000001=0041"),
    Step::Does(b"LC;0010,0020,0020,0020,0,1"),
];

const FORM_SAVED: &[Step] = &[
    Step::Does(b"XP"),
    Step::Recalls(b"XQ;02,0,L", b"RC001;0043"),
    Step::Does(b"XS;I,0002,0002C3000"),
    Step::Prints(b"0001,0002,T01,0100,0050,0043\n"),
];

const ALL_AS_BEFORE: &[Step] = &[
    Step::Prints(b"0002,0002,T01,0100,0050,0044\n"),
    Step::Recalls(b"XQ;01,0,L", b"RC001;0042"),
    Step::Shows(9),
];

#[test]
fn short_for_a_command(rt: HostRuntime) -> Result<(), Fail> {
    let mut watched = over(rt.alloc(), PackedStore::new(), Roll::new(9)?);
    watched.plays(&rt, FORM_AND_LABEL)?;
    all_are_short(&rt, &mut watched)?;
    watched.plays(&rt, &[Step::Does(b"XO;02,0|RC001;0043")])?;
    all_are_short(&rt, &mut watched)?;
    watched.plays(&rt, FORM_SAVED)?;
    all_are_short(&rt, &mut watched)?;
    watched.plays(&rt, ALL_AS_BEFORE)
}

// A place past the end comes before the buffers.
#[test]
fn bounds_before_buffers(rt: HostRuntime) -> Result<(), Fail> {
    let mut watched = over(rt.alloc(), PackedStore::new(), Roll::new(9)?);
    let mut short = [0; 12];
    let mut work = [0; 12];
    let got = watched.station.command(b"C", 2, &mut short, &mut work);
    assert_eq!(rt; got.map_err(|fault| fault.refusal.number()), Err(1));
    Ok(())
}

// Before what is owed, and before the stock.
const PRINTS_AND_PICTURES: &[Step] = &[
    Step::PrintsNot(1399, 2, b'J'),
    Step::PrintsNot(1400, 22, b'S'),
    Step::Does(b"XS;I,0002,0002C3000"),
    Step::PrintsNot(1399, 2, b'J'),
    Step::DrawsNot(21_599),
    Step::Prints(b"0001,0002\n"),
    Step::PrintsNot(1399, 2, b'J'),
    Step::PrintsNot(0, 2, b'J'),
    OUT_OF_STOCK,
    Step::Does(b"WR"),
    Step::DrawsNot(21_599),
    Step::DrawsNot(0),
    Step::Does(b"XO;01,0"),
    Step::DrawsNot(21_599),
];

#[test]
fn short_for_a_print_and_a_picture(rt: HostRuntime) -> Result<(), Fail> {
    plays(&rt, rt.alloc(), 1, PRINTS_AND_PICTURES)
}

#[test]
fn just_long_enough(rt: HostRuntime) -> Result<(), Fail> {
    let mut watched = over(rt.alloc(), PackedStore::new(), Roll::new(1)?);
    let mut answer = [0; 13];
    let mut work = [0; 1400];
    watched.plays(&rt, &[Step::Does(b"XS;I,0001,0002C3000")])?;
    let next = watched
        .station
        .command(b"\x1bWS\n\0", 0, &mut answer, &mut work)?;
    assert_eq!(rt; next, 5);
    assert!(rt; answer == *b"\x01\x020210001\x03\x04\r\n");
    assert_eq!(rt; watched.station.print(&mut work)?, 10);
    assert!(rt; first(&work, 11) == b"0001,0001\n\0".as_slice());
    let mut dots = vec![in rt.alloc(); 0xaa; 21_600]?;
    watched.station.draw(&mut dots)?;
    assert!(rt; dots.iter().all(|b| *b == 0));
    Ok(())
}
