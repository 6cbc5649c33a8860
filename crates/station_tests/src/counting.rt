// Stations over counting rules of all sorts: texts and bars of type 3 count by the first, bars of type 9 by the second.
use crate::rules::{Capitals, Fives, NoWheels};
use crate::script::Step;
use crate::watched::Watched;
use printers::roll::Roll;
use station::state::Station;
use std::alloc::Global;
use std::process::Abort;
use std::test::Fail;
use stores::packed::PackedStore;
use texts::digits::{Code128Rule, PlainRule};
use texts::rule::CountingRule;

fn plays<R1: CountingRule + Drop, R2: CountingRule + Drop>(
    rt: &impl Abort,
    heap: Global,
    first: R1,
    second: R2,
    steps: &[Step],
) -> Result<(), Fail> {
    let mut watched = Watched {
        station: Station::new(PackedStore::new(), Roll::new(99)?, first, second),
        heap,
    };
    watched.plays(rt, steps)
}

// The same text in a field and in a bar of each type, all with the step 1; the first label has it as it was sent.
const THREE_FIELDS: Step = Step::Does(
    b"PC001;0100,0050,1,1,A,00,B,+0000000001=A9>0|XB01;0100,0060,3,1,01,01,01,01,01,0,0100,+0000000001=A9>0|XB02;0100,0070,9,1,01,01,01,01,01,0,0100,+0000000001=A9>0|XS;I,0002,0002C3000",
);

const FIRST_LABEL: Step = Step::Prints(
    b"0001,0002,T01,0100,0050,A9>0,B01,0100,0060,A9>0,B02,0100,0070,A9>0\n",
);

const USUAL: &[Step] = &[
    THREE_FIELDS,
    FIRST_LABEL,
    Step::Prints(b"0002,0002,T01,0100,0050,A9>1,B01,0100,0060,A9>1,B02,0100,0070,A0>0\n"),
];

const SWAPPED: &[Step] = &[
    THREE_FIELDS,
    FIRST_LABEL,
    Step::Prints(b"0002,0002,T01,0100,0050,A0>0,B01,0100,0060,A0>0,B02,0100,0070,A9>1\n"),
];

const NOTHING_COUNTS: &[Step] = &[
    THREE_FIELDS,
    FIRST_LABEL,
    Step::Prints(b"0002,0002,T01,0100,0050,A9>0,B01,0100,0060,A9>0,B02,0100,0070,A9>0\n"),
];

// 9 and 0 spell 20 on wheels of five; then 4 and 1 spell 21.
const FIVES_AND_CAPITALS: &[Step] = &[
    THREE_FIELDS,
    FIRST_LABEL,
    Step::Prints(b"0002,0002,T01,0100,0050,A4>1,B01,0100,0060,A4>1,B02,0100,0070,B9>0\n"),
];

// A step that comes round to the same number writes the wheels anew; a step of 0 does not.
const ROUND: &[Step] = &[
    Step::Does(
        b"PC001;0100,0050,1,1,A,00,B,+0000000025=79|PC002;0100,0060,1,1,A,00,B=79|PC003;0100,0070,1,1,A,00,B,-0000000001=05",
    ),
    Step::Does(
        b"XB01;0100,0080,9,1,01,01,01,01,01,0,0100,+0000000001=AZ9|XB02;0100,0090,9,1,01,01,01,01,01,0,0100,-0000000001=A-A",
    ),
    Step::Does(b"XS;I,0003,0002C3000"),
    Step::Prints(
        b"0001,0003,T01,0100,0050,79,T02,0100,0060,79,T03,0100,0070,05,B01,0100,0080,AZ9,B02,0100,0090,A-A\n",
    ),
    Step::Prints(
        b"0002,0003,T01,0100,0050,24,T02,0100,0060,79,T03,0100,0070,44,B01,0100,0080,BA9,B02,0100,0090,Z-Z\n",
    ),
    Step::Prints(
        b"0003,0003,T01,0100,0050,24,T02,0100,0060,79,T03,0100,0070,43,B01,0100,0080,BB9,B02,0100,0090,Z-Y\n",
    ),
];

#[test]
fn the_usual_rules_and_swapped(rt: HostRuntime) -> Result<(), Fail> {
    plays(&rt, rt.alloc(), PlainRule, Code128Rule, USUAL)?;
    plays(&rt, rt.alloc(), Code128Rule, PlainRule, SWAPPED)
}

#[test]
fn no_wheels(rt: HostRuntime) -> Result<(), Fail> {
    plays(&rt, rt.alloc(), NoWheels, NoWheels, NOTHING_COUNTS)
}

#[test]
fn fives_and_capitals(rt: HostRuntime) -> Result<(), Fail> {
    plays(&rt, rt.alloc(), Fives, Capitals, FIVES_AND_CAPITALS)?;
    plays(&rt, rt.alloc(), Fives, Capitals, ROUND)
}
