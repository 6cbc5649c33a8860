// Forms: saved, replaced, recalled and emptied, and recalls that are refused inside.
use crate::jobs::repeated;
use crate::script::{NOTHING_OWED, Refused, Step};
use crate::watched::{over, plays};
use printers::roll::Roll;
use std::alloc::Global;
use std::process::Abort;
use std::test::Fail;
use stores::packed::PackedStore;
use stores::quota::Quota;
use stores::slots::SlotStore;
use stores::store::FormStore;

const OLD_FORM: &[u8] =
    b"PC001;0100,0050,1,1,A,00,B,+0000000001=0041|LC;0000,0000,0539,0000,0,1|D0300,0200,0100";

const REPLACED: &[Step] = &[
    Step::Does(b"XO;03,0"),
    Step::Does(OLD_FORM),
    Step::Does(b"XP"),
    Step::Recalls(b"XQ;03,0,L", OLD_FORM),
    Step::Shows(160),
    Step::Does(b"XS;I,0001,0002C3000"),
    Step::Prints(b"0001,0001,T01,0100,0050,0041\n"),
    // Until the end of saving the old form stays.
    Step::Does(b"XO;03,1|RC001;0050|WR"),
    Step::Recalls(b"XQ;03,1,M", OLD_FORM),
    Step::Does(b"XO;03,1|RC001;0050|XP"),
    Step::Recalls(b"XQ;03,0,L", b"RC001;0050"),
    Step::Does(b"XS;I,0002,0002C3000"),
    Step::Prints(b"0001,0002,T01,0100,0050,0050\n"),
    Step::Prints(b"0002,0002,T01,0100,0050,0051\n"),
];

// An empty draft makes an empty form, which is there. The label stays when the store is emptied.
const EMPTIED: &[Step] = &[
    Step::Does(b"XO;20,0|XP"),
    Step::Recalls(b"XQ;20,0,L", b""),
    Step::Does(b"J1;B"),
    Step::Refuses(b"XQ;03,0,L", Refused(18, b'F', 3, 0, 12)),
    Step::Refuses(b"XQ;20,0,L", Refused(18, b'F', 20, 0, 12)),
    Step::Does(b"XS;I,0001,0002C3000"),
    Step::Prints(b"0001,0001,T01,0100,0050,0052\n"),
];

#[test]
fn saved_recalled_replaced_and_emptied(rt: HostRuntime) -> Result<(), Fail> {
    let mut watched = over(rt.alloc(), PackedStore::new(), Roll::new(9)?);
    watched.plays(&rt, REPLACED)?;
    watched.plays(&rt, EMPTIED)
}

const REFUSING_FORM: &[u8] = b"D0300,0300,0300|PC002;0000,0000,1,1,A,00,B=2|RC001;X|C";

const IN_ITS_MIDDLE: &[Step] = &[
    Step::Does(b"XO;03,0"),
    Step::Does(REFUSING_FORM),
    Step::Does(b"XP|PC003;0100,0050,1,1,A,00,B,+0000000001=0041|LC;0000,0000,0539,0000,0,1"),
    Step::RefusesInside(b"XQ;03,0,L", REFUSING_FORM, Refused(13, b'L', 3, 49, 12)),
    // Sizes, drawings and fields are as they were.
    Step::Shows(432),
    Step::Does(b"XS;I,0001,0002C3000"),
    Step::Prints(b"0001,0001,T03,0100,0050,0041\n"),
    Step::Does(b"PC001;0100,0050,1,1,A,00,B"),
    Step::Recalls(b"XQ;03,0,L", REFUSING_FORM),
    Step::Shows(0),
    // Now the label has the form's sizes.
    Step::Does(b"LC;0000,0000,0539,0000,0,1"),
    Step::Shows(240),
];

#[test]
fn a_recall_refused_in_its_middle(rt: HostRuntime) -> Result<(), Fail> {
    plays(&rt, rt.alloc(), 9, IN_ITS_MIDDLE)
}

// The place is the form's, and the next place is the job's.
#[test]
fn a_recall_behind_other_commands(rt: HostRuntime) -> Result<(), Fail> {
    let mut watched = over(rt.alloc(), PackedStore::new(), Roll::new(9)?);
    watched.plays(&rt, &[Step::Does(b"XO;03,0|C|RC001;X|XP")])?;
    watched.refuses_at(
        &rt,
        b"\x1bC\n\0\x1bXQ;03,0,L\n\0\x1bC\n\0",
        4,
        b"\x1bC\n\0\x1bRC001;X\n\0",
        Refused(13, b'L', 3, 4, 16),
    )
}

// It goes on saving, with its draft.
const TOO_LONG: &[Step] = &[
    Step::Does(b"XO;01,0|RC001;X|XP|XO;01,0|RC;"),
    Step::Repeats(b"RC001;0041", 39),
    Step::Refuses(b"XP", Refused(19, b'F', 0, 0, 5)),
    Step::RefusesAll(b"XO;02,0|XQ;01,0,L", 10),
    NOTHING_OWED,
    Step::Repeats(b"RC001;0041", 39),
    Step::Refuses(b"RC001;0041", Refused(12, b'S', 0, 0, 13)),
    Step::Refuses(b"XP", Refused(19, b'F', 0, 0, 5)),
    Step::Does(b"WR"),
    Step::Refuses(b"XP", Refused(11, b'S', 0, 0, 5)),
    Step::Does(b"PC001;0100,0050,1,1,A,00,B"),
    Step::Recalls(b"XQ;01,0,L", b"RC001;X"),
];

const FULL: &[Step] = &[
    Step::Does(b"XO;01,0|RC001;X|XP|XO;02,0|C"),
    Step::Refuses(b"XP", Refused(20, b'F', 0, 0, 5)),
    Step::Refuses(b"J1;B", Refused(10, b'S', 0, 0, 7)),
    Step::Refuses(b"XP", Refused(20, b'F', 0, 0, 5)),
    Step::Does(b"C|WR"),
    Step::Refuses(b"XQ;02,0,L", Refused(18, b'F', 2, 0, 12)),
    Step::Does(b"J1;B|XO;02,0|C|XP"),
    Step::Recalls(b"XQ;02,0,L", b"C"),
];

#[test]
fn an_end_of_saving_refused(rt: HostRuntime) -> Result<(), Fail> {
    over(rt.alloc(), SlotStore::new(), Roll::new(9)?).plays(&rt, TOO_LONG)?;
    let store = Quota::new(PackedStore::new(), 10);
    over(rt.alloc(), store, Roll::new(9)?).plays(&rt, FULL)
}

// A form by its bytes, and how its recall is refused.
#[derive(Clone, Copy)]
struct Damaged(&'static [u8], Refused);

const BYTES: &[Damaged] = &[
    Damaged(b"\xff\0\x1b\n", Refused(4, b'J', 11, 0, 12)),
    Damaged(b"\x1bC\n\0x\x1bC\n\0", Refused(4, b'J', 11, 4, 12)),
    Damaged(b"\x1bC\n\0\x1bRC003;X", Refused(5, b'J', 11, 4, 12)),
    Damaged(b"\x1bC\n\0\x1bRC003;X\n", Refused(5, b'J', 11, 4, 12)),
    Damaged(b"\x1bC\n\0\x1bQ\n\0", Refused(6, b'J', 11, 4, 12)),
    Damaged(b"\x1bC\n\0\x1bRC003;A,B\n\0", Refused(7, b'J', 11, 12, 12)),
    Damaged(b"\x1bC\n\0\x1bRC017;X\n\0", Refused(8, b'J', 11, 7, 12)),
];

// The first command that is refused decides.
const OTHER_COMMANDS: &[Damaged] = &[
    Damaged(b"\x1bC\n\0\x1bWS\n\0", Refused(10, b'S', 11, 4, 12)),
    Damaged(b"\x1bC\n\0\x1bWR\n\0", Refused(10, b'S', 11, 4, 12)),
    Damaged(b"\x1bXP\n\0\x1bC\n\0", Refused(10, b'S', 11, 0, 12)),
    Damaged(
        b"\x1bC\n\0\x1bC\n\0\x1bXQ;11,0,L\n\0",
        Refused(10, b'S', 11, 8, 12),
    ),
    Damaged(b"\x1bXS;I,0001,0002C3000\n\0", Refused(10, b'S', 11, 0, 12)),
    Damaged(b"\x1bRC002;X\n\0\x1bWS\n\0", Refused(13, b'L', 11, 0, 12)),
    Damaged(
        b"\x1bWS\n\0\x1bRC002;X\n\0\x1bQ\n\0",
        Refused(10, b'S', 11, 0, 12),
    ),
];

const OF_THE_LABEL: &[Damaged] = &[
    Damaged(
        b"\x1bRC003;B\n\0\x1bRB01;X\n\0",
        Refused(13, b'L', 11, 10, 12),
    ),
    Damaged(
        b"\x1bPC001;0100,0050,1,1,A,00,B;01\n\0\x1bRC001;X\n\0",
        Refused(14, b'L', 11, 32, 12),
    ),
    Damaged(
        b"\x1bPC001;0100,0050,1,1,A,00,B;01,02\n\0\x1bRC;012345678901234567890,012345678901234567890\n\0",
        Refused(15, b'L', 11, 35, 12),
    ),
    Damaged(
        b"\x1bC\n\0\x1bPC003;0100,0050,1,1,A,00,B,M0=AB\n\0",
        Refused(16, b'L', 11, 4, 12),
    ),
];

const LABEL: &[Step] = &[
    Step::Does(b"PC003;0100,0050,1,1,A,00,B=A|LC;0000,0000,0539,0000,0,1"),
    Step::Shows(432),
];

const SAME_LABEL: &[Step] = &[
    Step::Does(b"XS;I,0001,0002C3000"),
    Step::Prints(b"0001,0001,T03,0100,0050,A\n"),
];

// The form was in the store before the station was made.
fn is_damaged(rt: &impl Abort, heap: Global, form: &[u8], want: Refused) -> Result<(), Fail> {
    let mut store = PackedStore::new();
    store.put(11, form)?;
    let mut watched = over(heap, store, Roll::new(9)?);
    watched.plays(rt, LABEL)?;
    watched.refuses_at(rt, b"\x1bXQ;11,0,L\n\0", 0, form, want)?;
    watched.plays(rt, SAME_LABEL)
}

fn are_damaged(rt: &impl Abort, heap: Global, forms: &[Damaged]) -> Result<(), Fail> {
    for form in forms {
        is_damaged(rt, heap, form.0, form.1)?;
    }
    Ok(())
}

#[test]
fn damaged_forms(rt: HostRuntime) -> Result<(), Fail> {
    are_damaged(&rt, rt.alloc(), BYTES)?;
    are_damaged(&rt, rt.alloc(), OTHER_COMMANDS)?;
    are_damaged(&rt, rt.alloc(), OF_THE_LABEL)?;
    // The label has one drawing already.
    let drawings = repeated(rt.alloc(), b"LC;0010,0020,0010,0020,0,1", 24)?;
    is_damaged(&rt, rt.alloc(), &drawings, Refused(17, b'L', 11, 667, 12))
}

// The quota is smaller than what the store has: forms stay, and none is taken until they fit.
const OVER_THE_QUOTA: &[Step] = &[
    Step::Recalls(b"XQ;01,0,L", b"PC001;0100,0050,1,1,A,00,B=8"),
    Step::Recalls(b"XQ;20,0,L", b""),
    Step::Does(b"XS;I,0001,0002C3000"),
    Step::Prints(b"0001,0001,T01,0100,0050,8\n"),
    Step::Does(b"XO;02,0"),
    Step::Refuses(b"XP", Refused(20, b'F', 0, 0, 5)),
    Step::Does(b"WR|XO;01,0|RC001;9|XP"),
    Step::RefusesInside(b"XQ;01,0,L", b"RC001;9", Refused(13, b'L', 1, 0, 12)),
    Step::Does(b"XO;02,0|XP|J1;B"),
    Step::Refuses(b"XQ;20,0,L", Refused(18, b'F', 20, 0, 12)),
];

#[test]
fn forms_of_before_the_making(rt: HostRuntime) -> Result<(), Fail> {
    let mut store = PackedStore::new();
    store.put(1, b"\x1bPC001;0100,0050,1,1,A,00,B=8\n\0")?;
    store.put(20, b"")?;
    over(rt.alloc(), Quota::new(store, 10), Roll::new(9)?).plays(&rt, OVER_THE_QUOTA)
}
