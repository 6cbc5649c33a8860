// Issues from the order to the last tag.
use crate::script::{NOTHING_OWED, NOTHING_TO_PRINT, OUT_OF_STOCK, Refused, Step};
use crate::watched::plays;
use std::test::Fail;

const CROSSING: &[Step] = &[
    Step::Does(b"PC001;0100,0050,1,1,A,00,B,+0000000001=0041|XS;I,0005,0002C3000"),
    Step::Prints(b"0001,0005,T01,0100,0050,0041\n"),
    Step::Prints(b"0002,0005,T01,0100,0050,0042\n"),
    OUT_OF_STOCK,
    Step::RefusesAll(b"C|RC001;0000", 9),
    OUT_OF_STOCK,
    Step::Tells(b"\x01\x021310003\x03\x04\r\n"),
    Step::Reloads,
    Step::Prints(b"0003,0005,T01,0100,0050,0043\n"),
    Step::Refuses(b"CX", Refused(7, b'J', 0, 2, 5)),
    Step::Prints(b"0004,0005,T01,0100,0050,0044\n"),
    OUT_OF_STOCK,
    Step::Reloads,
    Step::Prints(b"0005,0005,T01,0100,0050,0045\n"),
    NOTHING_OWED,
    NOTHING_TO_PRINT,
];

#[test]
fn an_issue_crosses_an_empty_roll(rt: HostRuntime) -> Result<(), Fail> {
    plays(&rt, rt.alloc(), 2, CROSSING)
}

const RESET: &[Step] = &[
    Step::Does(b"PC001;0100,0050,1,1,A,00,B,+0000000001=0041|XS;I,0005,0002C3000"),
    Step::Prints(b"0001,0005,T01,0100,0050,0041\n"),
    Step::Does(b"WR"),
    NOTHING_OWED,
    NOTHING_TO_PRINT,
    // The printer stays: it has one tag left.
    Step::Does(b"XS;I,0002,0002C3000"),
    Step::Prints(b"0001,0002\n"),
    OUT_OF_STOCK,
];

#[test]
fn a_reset_with_labels_owed(rt: HostRuntime) -> Result<(), Fail> {
    plays(&rt, rt.alloc(), 2, RESET)
}

const GOING_ON: &[Step] = &[
    Step::Does(b"PC001;0100,0050,1,1,A,00,B,+0000000001=0998"),
    Step::Does(b"XB01;0000,0499,9,1,01,01,01,01,01,0,0100,-0000000001=01"),
    Step::Does(b"XS;I,0002,0002C3000"),
    Step::Prints(b"0001,0002,T01,0100,0050,0998,B01,0000,0499,01\n"),
    Step::Prints(b"0002,0002,T01,0100,0050,0999,B01,0000,0499,00\n"),
    Step::Does(b"XS;I,0002,0002C3000"),
    Step::Prints(b"0001,0002,T01,0100,0050,1000,B01,0000,0499,99\n"),
    Step::Prints(b"0002,0002,T01,0100,0050,1001,B01,0000,0499,98\n"),
    Step::Does(b"RC001;0007|XS;I,0001,0002C3000"),
    Step::Prints(b"0001,0001,T01,0100,0050,0007,B01,0000,0499,97\n"),
    Step::Does(b"XS;I,0001,0002C3000"),
    Step::Prints(b"0001,0001,T01,0100,0050,0008,B01,0000,0499,96\n"),
];

#[test]
fn counting_goes_on_with_the_next_issue(rt: HostRuntime) -> Result<(), Fail> {
    plays(&rt, rt.alloc(), 99, GOING_ON)
}

// A check character and zero suppression, and a refusal behind 105 bytes of a job.
const WHOLE_JOB: &[u8] =
    b"\x1bD0520,0540,0500\n\0\x1bC\n\0\x1bPC001;0100,0050,1,1,A,00,B,M0,+0000000001,Z03\n\0\x1bRC001;0041\n\0\x1bXS;I,0002,0002C3000\n\0\x1bRC002;X\n\0";

const PLACE_BY_PLACE: &[Step] = &[
    Step::Does(
        b"D0520,0540,0500|C|PC001;0100,0050,1,1,A,00,B,M0,+0000000001,Z03|RC001;0041|XS;I,0002,0002C3000",
    ),
    Step::RefusesAt(WHOLE_JOB, 105, Refused(9, b'S', 0, 105, 115)),
    Step::Prints(b"0001,0002,T01,0100,0050,  413\n"),
    Step::Prints(b"0002,0002,T01,0100,0050,  420\n"),
    Step::RefusesAt(WHOLE_JOB, 105, Refused(13, b'L', 0, 105, 115)),
    Step::RefusesAt(WHOLE_JOB, 106, Refused(4, b'J', 0, 106, 115)),
    Step::RefusesAt(WHOLE_JOB, 115, Refused(3, b'J', 0, 115, 115)),
];

#[test]
fn a_job_place_by_place(rt: HostRuntime) -> Result<(), Fail> {
    plays(&rt, rt.alloc(), 9, PLACE_BY_PLACE)
}
