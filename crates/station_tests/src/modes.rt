// What a station does while it is idle, saving or owing, and which of two refusals comes.
use crate::script::{NOTHING_OWED, NOTHING_TO_PRINT, Refused, Step};
use crate::watched::{over, plays};
use printers::roll::Roll;
use std::test::Fail;
use stores::packed::PackedStore;

// What is wrong in a command's bytes comes before what the station is doing.
const WRONG_BYTES: &[Step] = &[
    Step::Refuses(b"CX", Refused(7, b'J', 0, 2, 5)),
    Step::Refuses(b"XPX", Refused(7, b'J', 0, 3, 6)),
    Step::Refuses(b"XO;21,0", Refused(8, b'J', 0, 4, 10)),
    Step::Refuses(b"RC017;X", Refused(8, b'J', 0, 3, 10)),
    Step::Refuses(b"Q", Refused(6, b'J', 0, 0, 4)),
    Step::RefusesAt(b"\x1bXP", 0, Refused(5, b'J', 0, 0, 3)),
    Step::RefusesAt(b"XP", 0, Refused(4, b'J', 0, 0, 2)),
];

// Text field 2 has no format, form 7 is not there, and nothing is being saved.
const WHILE_OWING: &[Step] = &[
    Step::RefusesAll(
        b"D0520,0540,0500|C|PC001;0100,0050,1,1,A,00,B=7|XB01;0100,0050,3,1,01,01,01,01,01,0,0100=7",
        9,
    ),
    Step::RefusesAll(
        b"RC002;X|RB01;X|RC;A|LC;0010,0020,0010,0020,0,1|XR;0010,0020,0010,0020,A",
        9,
    ),
    Step::RefusesAll(b"XS;I,0002,0002C3000|XO;01,0|XP|XQ;07,0,L|J1;B", 9),
    Step::Prints(b"0001,0003\n"),
    Step::RefusesAll(b"XP|C", 9),
    Step::Prints(b"0002,0003\n"),
    Step::Prints(b"0003,0003\n"),
    // The last label leaves it idle.
    Step::RefusesAll(b"XP", 11),
    NOTHING_TO_PRINT,
    Step::Does(b"C|XO;01,0|XP"),
];

#[test]
fn owing(rt: HostRuntime) -> Result<(), Fail> {
    let mut watched = over(rt.alloc(), PackedStore::new(), Roll::new(9)?);
    watched.plays(&rt, &[Step::Does(b"XS;I,0003,0002C3000")])?;
    watched.plays(&rt, WRONG_BYTES)?;
    watched.plays(&rt, WHILE_OWING)
}

const WHILE_SAVING: &[Step] = &[
    Step::RefusesAll(
        b"XS;I,0002,0002C3000|XO;01,0|XO;02,0|XQ;02,0,L|XQ;07,0,L|J1;B",
        10,
    ),
    NOTHING_TO_PRINT,
    NOTHING_OWED,
    // Drawings wait for the recall, and the status is no part of the form.
    Step::Does(b"LC;0010,0020,0020,0020,0,1"),
    Step::Shows(0),
    Step::Does(b"XP"),
    Step::Shows(0),
    Step::RefusesAll(b"XP", 11),
    Step::RefusesInside(
        b"XQ;02,0,L",
        b"RC002;X|LC;0010,0020,0020,0020,0,1",
        Refused(13, b'L', 2, 0, 12),
    ),
    Step::Does(b"PC002;0100,0050,1,1,A,00,B"),
    Step::Recalls(b"XQ;02,0,L", b"RC002;X|LC;0010,0020,0020,0020,0,1"),
    Step::Shows(9),
];

#[test]
fn saving(rt: HostRuntime) -> Result<(), Fail> {
    let mut watched = over(rt.alloc(), PackedStore::new(), Roll::new(9)?);
    watched.plays(&rt, &[Step::Does(b"XO;02,0|RC002;X")])?;
    watched.plays(&rt, WRONG_BYTES)?;
    watched.plays(&rt, WHILE_SAVING)
}

const STATUSES: &[Step] = &[
    NOTHING_OWED,
    Step::Does(b"XO;01,0"),
    NOTHING_OWED,
    Step::Does(b"XP|XS;I,0003,0002C3000"),
    Step::Tells(b"\x01\x020210003\x03\x04\r\n"),
    Step::Prints(b"0001,0003\n"),
    Step::Tells(b"\x01\x020210002\x03\x04\r\n"),
    Step::Prints(b"0002,0003\n"),
    Step::Tells(b"\x01\x021310001\x03\x04\r\n"),
    Step::Reloads,
    Step::Tells(b"\x01\x020210001\x03\x04\r\n"),
    Step::Prints(b"0003,0003\n"),
    NOTHING_OWED,
    Step::Does(b"XS;I,0001,0002C3000"),
    Step::Prints(b"0001,0001\n"),
    // No stock is left, and nothing is owed.
    NOTHING_OWED,
    Step::Does(b"XS;I,9999,0002C3000"),
    Step::Tells(b"\x01\x021319999\x03\x04\r\n"),
];

#[test]
fn statuses(rt: HostRuntime) -> Result<(), Fail> {
    plays(&rt, rt.alloc(), 2, STATUSES)
}

// A label that has other sizes, a drawing and a text.
const OTHER_LABEL: &[Step] = &[
    Step::Does(b"D0300,0200,0100|PC001;0100,0050,1,1,A,00,B=7|LC;0000,0000,0539,0000,0,1"),
    Step::Shows(160),
];

// The label is a new one, with the sizes of the making.
const NEW_LABEL: &[Step] = &[
    NOTHING_OWED,
    Step::Shows(0),
    Step::RefusesAll(b"XP", 11),
    NOTHING_TO_PRINT,
    Step::Refuses(b"RC001;X", Refused(13, b'L', 0, 0, 10)),
    Step::Does(b"LC;0000,0000,0539,0000,0,1|LC;0000,0499,0539,0499,0,1"),
    Step::Shows(864),
    Step::Does(b"XS;I,0001,0002C3000"),
    Step::Prints(b"0001,0001\n"),
];

// Forms stay, and a draft that was dropped is none.
const FORMS_STAY: &[Step] = &[
    Step::Recalls(b"XQ;01,0,L", b"C"),
    Step::Refuses(b"XQ;02,0,L", Refused(18, b'F', 2, 0, 12)),
];

#[test]
fn resets(rt: HostRuntime) -> Result<(), Fail> {
    let mut watched = over(rt.alloc(), PackedStore::new(), Roll::new(9)?);
    watched.plays(&rt, &[Step::Does(b"XO;01,0|C|XP")])?;
    for body in [
        b"C|WR".as_slice(),
        b"XO;02,0|C|WR",
        b"XS;I,0005,0002C3000|WR",
    ] {
        watched.plays(&rt, OTHER_LABEL)?;
        watched.plays(&rt, &[Step::Does(body)])?;
        watched.plays(&rt, NEW_LABEL)?;
        watched.plays(&rt, FORMS_STAY)?;
    }
    Ok(())
}

const PICTURES: &[Step] = &[
    Step::Does(b"LC;0010,0020,0020,0020,0,1"),
    Step::Shows(9),
    Step::Does(b"XO;01,0|LC;0010,0020,0010,0030,0,1"),
    Step::Shows(9),
    Step::Does(b"XP|XS;I,0001,0002C3000"),
    Step::Shows(9),
    Step::Prints(b"0001,0001\n"),
    Step::Shows(9),
];

#[test]
fn pictures(rt: HostRuntime) -> Result<(), Fail> {
    plays(&rt, rt.alloc(), 9, PICTURES)
}
