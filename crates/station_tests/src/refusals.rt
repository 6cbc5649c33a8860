// Every refusal once, with its number, layer, form, place and next place.
use crate::script::{NOTHING_TO_PRINT, OUT_OF_STOCK, Refused, Step};
use crate::watched::{over, plays};
use printers::roll::Roll;
use std::test::Fail;
use stores::packed::PackedStore;
use stores::slots::SlotStore;

const BOUNDS: &[Step] = &[
    Step::RefusesAt(b"\x1bWS\n\0\x1bWR", 9, Refused(1, b'J', 0, 9, 9)),
    Step::RefusesAt(b"\x1bWS\n\0\x1bWR", 8, Refused(3, b'J', 0, 8, 8)),
    Step::RefusesAt(b"", 0, Refused(3, b'J', 0, 0, 0)),
    Step::RefusesAt(b"", 1, Refused(1, b'J', 0, 1, 1)),
];

const BYTES: &[Step] = &[
    Step::RefusesAt(b"PC001", 0, Refused(4, b'J', 0, 0, 5)),
    Step::RefusesAt(b"PC\x1bC\n\0", 0, Refused(4, b'J', 0, 0, 2)),
    Step::RefusesAt(b"\x1bC", 0, Refused(5, b'J', 0, 0, 2)),
    Step::RefusesAt(b"\x1bC\n\x1bC\n\0", 0, Refused(5, b'J', 0, 0, 3)),
    Step::RefusesAt(b"\x1b\n\0", 0, Refused(6, b'J', 0, 0, 3)),
    Step::Refuses(b"Q", Refused(6, b'J', 0, 0, 4)),
    Step::Refuses(b"XS;I,2,", Refused(7, b'J', 0, 7, 10)),
    Step::Refuses(b"XQ;07,0", Refused(7, b'J', 0, 8, 10)),
    Step::Refuses(b"RC017;X", Refused(8, b'J', 0, 3, 10)),
    Step::Refuses(b"D0100,0540,0200", Refused(8, b'J', 0, 12, 18)),
    // Behind other commands all places move with it.
    Step::RefusesAt(
        b"\x1bWR\n\0\x1bRC017;X\n\0\x1bC\n\0",
        5,
        Refused(8, b'J', 0, 8, 15),
    ),
];

const OF_THE_STATION: &[Step] = &[
    Step::Refuses(b"XP", Refused(11, b'S', 0, 0, 5)),
    NOTHING_TO_PRINT,
    Step::Does(b"XS;I,0003,0002C3000"),
    Step::Refuses(b"C", Refused(9, b'S', 0, 0, 4)),
    Step::Does(b"WR|XO;01,0"),
    Step::RefusesAt(
        b"\x1bXO;01,0\n\0\x1bXO;01,0\n\0",
        10,
        Refused(10, b'S', 0, 10, 20),
    ),
    // A draft of 1,014 bytes, and 13 more.
    Step::Repeats(b"RC001;0041", 78),
    Step::Refuses(b"RC001;0041", Refused(12, b'S', 0, 0, 13)),
    // Exactly 1,024 bytes pass.
    Step::Does(b"RC001;0"),
    Step::Refuses(b"C", Refused(12, b'S', 0, 0, 4)),
    Step::Does(b"XP"),
];

const OF_THE_LABEL: &[Step] = &[
    Step::Refuses(b"RC002;X", Refused(13, b'L', 0, 0, 10)),
    Step::Does(b"PC001;0100,0050,1,1,A,00,B;01,02|PC002;0100,0050,1,1,A,00,B,M0=41|RC;A,B"),
    Step::Refuses(b"RC001;X", Refused(14, b'L', 0, 0, 10)),
    Step::Refuses(
        b"RC;012345678901234567890,012345678901234567890",
        Refused(15, b'L', 0, 0, 49),
    ),
    Step::Refuses(b"RC002;AB", Refused(16, b'L', 0, 0, 11)),
    Step::Repeats(b"LC;0010,0020,0010,0020,0,1", 24),
    Step::Refuses(b"LC;0010,0020,0010,0020,0,1", Refused(17, b'L', 0, 0, 29)),
    Step::Refuses(b"XR;0010,0020,0010,0020,A", Refused(17, b'L', 0, 0, 27)),
    Step::Shows(1),
    // None of it has changed a text.
    Step::Does(b"XS;I,0001,0002C3000"),
    Step::Prints(b"0001,0001,T01,0100,0050,AB,T02,0100,0050,413\n"),
];

const OF_A_PACKED_STORE: &[Step] = &[
    Step::Refuses(b"XQ;07,0,L", Refused(18, b'F', 7, 0, 12)),
    // Seven forms of 1,024 bytes, and one of 1,021.
    Step::Does(b"XO;01,0"),
    Step::Repeats(b"C", 256),
    Step::Does(b"XP|XO;02,0"),
    Step::Repeats(b"C", 256),
    Step::Does(b"XP|XO;03,0"),
    Step::Repeats(b"C", 256),
    Step::Does(b"XP|XO;04,0"),
    Step::Repeats(b"C", 256),
    Step::Does(b"XP|XO;05,0"),
    Step::Repeats(b"C", 256),
    Step::Does(b"XP|XO;06,0"),
    Step::Repeats(b"C", 256),
    Step::Does(b"XP|XO;07,0"),
    Step::Repeats(b"C", 256),
    Step::Does(b"XP|XO;08,0|RC001;"),
    Step::Repeats(b"C", 253),
    // Four bytes more have the 8,193rd.
    Step::Does(b"XP|XO;09,0|C"),
    Step::Refuses(b"XP", Refused(20, b'F', 0, 0, 5)),
    // Exactly 8,192 bytes pass.
    Step::Does(b"WR|XO;08,0"),
    Step::Repeats(b"C", 255),
    Step::Does(b"XP|XO;09,0|C|XP"),
    Step::Recalls(b"XQ;09,0,L", b"C"),
];

const OF_A_SLOT_STORE: &[Step] = &[
    Step::Does(b"XO;20,0|RC001;"),
    Step::Repeats(b"C", 126),
    // The draft has 513 bytes.
    Step::Refuses(b"XP", Refused(19, b'F', 0, 0, 5)),
    Step::Does(b"WR|XO;20,0"),
    Step::Repeats(b"C", 128),
    Step::Does(b"XP"),
];

const OF_THE_PRINTER: &[Step] = &[
    Step::Does(b"XS;I,0002,0002C3000"),
    Step::Prints(b"0001,0002\n"),
    OUT_OF_STOCK,
];

// 99,999,999 are ordered before, and one more passes.
const OVER_A_HUNDRED_MILLION: &[Step] = &[
    Step::Refuses(b"XS;I,0002,0002C3000", Refused(21, b'S', 0, 0, 22)),
    Step::Does(b"XS;I,0001,0002C3000"),
    Step::Refuses(b"XS;I,0001,0002C3000", Refused(9, b'S', 0, 0, 22)),
    Step::Prints(b"0001,0001\n"),
    Step::Refuses(b"XS;I,0001,0002C3000", Refused(21, b'S', 0, 0, 22)),
    Step::Does(b"WR"),
    Step::Refuses(b"XS;I,0001,0002C3000", Refused(21, b'S', 0, 0, 22)),
];

#[test]
fn bounds_of_a_job(rt: HostRuntime) -> Result<(), Fail> {
    let heap = rt.alloc();
    let mut watched = over(heap, PackedStore::new(), Roll::new(9)?);
    watched.plays(&rt, BOUNDS)?;
    let long = vec![in heap; b'x'; 60_001]?;
    watched.refuses_at(&rt, &long, 0, b"", Refused(1, b'J', 0, 0, 0))?;
    watched.refuses_at(&rt, &long, 60_001, b"", Refused(1, b'J', 0, 60_001, 60_001))?;
    let longest = vec![in heap; b'x'; 60_000]?;
    watched.refuses_at(
        &rt,
        &longest,
        60_000,
        b"",
        Refused(3, b'J', 0, 60_000, 60_000),
    )?;
    watched.refuses_at(&rt, &longest, 0, b"", Refused(4, b'J', 0, 0, 60_000))
}

#[test]
fn bytes_of_a_command(rt: HostRuntime) -> Result<(), Fail> {
    plays(&rt, rt.alloc(), 9, BYTES)
}

#[test]
fn what_a_station_refuses(rt: HostRuntime) -> Result<(), Fail> {
    plays(&rt, rt.alloc(), 9, OF_THE_STATION)
}

#[test]
fn what_a_label_refuses(rt: HostRuntime) -> Result<(), Fail> {
    plays(&rt, rt.alloc(), 9, OF_THE_LABEL)
}

#[test]
fn what_a_store_refuses(rt: HostRuntime) -> Result<(), Fail> {
    plays(&rt, rt.alloc(), 9, OF_A_PACKED_STORE)?;
    over(rt.alloc(), SlotStore::new(), Roll::new(9)?).plays(&rt, OF_A_SLOT_STORE)
}

#[test]
fn what_a_printer_refuses(rt: HostRuntime) -> Result<(), Fail> {
    plays(&rt, rt.alloc(), 1, OF_THE_PRINTER)
}

#[test]
fn labels_ordered_since_the_making(rt: HostRuntime) -> Result<(), Fail> {
    let mut watched = over(rt.alloc(), PackedStore::new(), Roll::new(9)?);
    for _ in 0..73 {
        watched.plays(&rt, &[Step::Repeats(b"XS;I,9999,0002C3000|WR", 137)])?;
    }
    watched.plays(&rt, OVER_A_HUNDRED_MILLION)
}
