// What refusals leave: not only the picture and the status, but the texts and the forms too; and the last tags of all.
use crate::script::{NOTHING_OWED, OUT_OF_STOCK, Refused, Step};
use crate::veteran::Veteran;
use crate::watched::{over, plays};
use std::test::Fail;
use stores::packed::PackedStore;

// One field with a text, a form that sets another, and a form that is refused in its middle.
const PREPARED: Step = Step::Does(
    b"PC001;0100,0050,1,1,A,00,B=A1|XO;01,0|RC001;B2|XP|XO;02,0|RC001;C3|RC003;X|XP",
);

// After each of them the tag shows the text that was set, and the forms are those that were saved.
const REFUSED: &[Step] = &[
    PREPARED,
    Step::Refuses(b"RC002;X", Refused(13, b'L', 0, 0, 10)),
    Step::Refuses(
        b"PC001;0100,0050,1,1,A,00,B,M0=A",
        Refused(16, b'L', 0, 0, 34),
    ),
    Step::Refuses(b"XP", Refused(11, b'S', 0, 0, 5)),
    Step::Refuses(b"Q", Refused(6, b'J', 0, 0, 4)),
    Step::Refuses(b"XQ;09,0,L", Refused(18, b'F', 9, 0, 12)),
    Step::RefusesInside(
        b"XQ;02,0,L",
        b"RC001;C3|RC003;X",
        Refused(13, b'L', 2, 11, 12),
    ),
    Step::Does(b"XS;I,0001,0002C3000"),
    Step::Refuses(b"RC001;D4", Refused(9, b'S', 0, 0, 11)),
    Step::Prints(b"0001,0001,T01,0100,0050,A1\n"),
    Step::Recalls(b"XQ;01,0,L", b"RC001;B2"),
    Step::Does(b"XS;I,0001,0002C3000"),
    Step::Prints(b"0001,0001,T01,0100,0050,B2\n"),
];

#[test]
fn texts_and_forms_stay(rt: HostRuntime) -> Result<(), Fail> {
    plays(&rt, rt.alloc(), 9, REFUSED)
}

// Two tags are left of all that a printer ever takes. Then a reload brings nothing, and what is owed stays owed.
const LAST_TAGS: &[Step] = &[
    Step::Does(b"XS;I,0005,0002C3000"),
    Step::Prints(b"0001,0005\n"),
    OUT_OF_STOCK,
    Step::Reloads,
    Step::Prints(b"0002,0005\n"),
    OUT_OF_STOCK,
    Step::Reloads,
    OUT_OF_STOCK,
    Step::Tells(b"\x01\x021310003\x03\x04\r\n"),
    Step::Does(b"WR"),
    NOTHING_OWED,
];

#[test]
fn the_last_tags_of_all(rt: HostRuntime) -> Result<(), Fail> {
    over(rt.alloc(), PackedStore::new(), Veteran::new()).plays(&rt, LAST_TAGS)
}
