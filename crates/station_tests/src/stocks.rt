// Stations over every kind of printer and store.
use crate::script::{NOTHING_OWED, NOTHING_TO_PRINT, OUT_OF_STOCK, Refused, Step};
use crate::watched::over;
use faults::{Refusal, unplaced};
use printers::printer::Printer;
use printers::roll::Roll;
use printers::strip::Strip;
use std::alloc::Global;
use std::process::Abort;
use std::test::Fail;
use stores::cache::ReadCache;
use stores::packed::PackedStore;
use stores::quota::Quota;
use stores::slots::SlotStore;
use stores::store::FormStore;

#[test]
fn outside_the_limits(rt: HostRuntime) -> Result<(), Fail> {
    assert_eq!(rt; Roll::new(0).err(), Some(unplaced(Refusal::ShortBuffer)));
    assert_eq!(rt;
        Roll::new(1_000_001).err(),
        Some(unplaced(Refusal::ShortBuffer))
    );
    assert!(rt; Roll::new(1_000_000).is_ok());
    let mut short = vec![in rt.alloc(); 0_u8; 1353]?;
    assert_eq!(rt;
        Strip::new(&mut short).err(),
        Some(unplaced(Refusal::ShortBuffer))
    );
    Ok(())
}

// One of three tags is gone; then a new roll comes, and another one before it is used up.
const USED_ROLL: &[Step] = &[
    Step::Does(b"XS;I,0009,0002C3000"),
    Step::Prints(b"0001,0009\n"),
    Step::Prints(b"0002,0009\n"),
    OUT_OF_STOCK,
    Step::Reloads,
    Step::Prints(b"0003,0009\n"),
    Step::Reloads,
    Step::Prints(b"0004,0009\n"),
    Step::Prints(b"0005,0009\n"),
    Step::Prints(b"0006,0009\n"),
    OUT_OF_STOCK,
];

const EMPTY_ROLL: &[Step] = &[
    NOTHING_OWED,
    NOTHING_TO_PRINT,
    Step::Does(b"XS;I,0001,0002C3000"),
    Step::Tells(b"\x01\x021310001\x03\x04\r\n"),
    OUT_OF_STOCK,
    Step::Reloads,
    Step::Prints(b"0001,0001\n"),
    NOTHING_OWED,
];

#[test]
fn used_rolls(rt: HostRuntime) -> Result<(), Fail> {
    let mut roll = Roll::new(3)?;
    roll.take(b"a tag of before")?;
    over(rt.alloc(), PackedStore::new(), roll).plays(&rt, USED_ROLL)?;
    let mut roll = Roll::new(1)?;
    roll.take(b"a tag of before")?;
    over(rt.alloc(), SlotStore::new(), roll).plays(&rt, EMPTY_ROLL)
}

// There is room for three lines of ten bytes, of which one was written before, and then for the longest line no more.
const USED_STRIP: &[Step] = &[
    Step::Does(b"XS;I,0009,0002C3000"),
    Step::Prints(b"0001,0009\n"),
    Step::Prints(b"0002,0009\n"),
    OUT_OF_STOCK,
    Step::Tells(b"\x01\x021310007\x03\x04\r\n"),
    Step::Reloads,
    Step::Tells(b"\x01\x020210007\x03\x04\r\n"),
    Step::Prints(b"0003,0009\n"),
    // Begun over in the middle.
    Step::Reloads,
    Step::Prints(b"0004,0009\n"),
    Step::Prints(b"0005,0009\n"),
    Step::Prints(b"0006,0009\n"),
    OUT_OF_STOCK,
    Step::Does(b"WR"),
    NOTHING_OWED,
];

#[test]
fn a_used_strip(rt: HostRuntime) -> Result<(), Fail> {
    let mut bytes = vec![in rt.alloc(); 0_u8; 1374]?;
    let mut strip = Strip::new(&mut bytes)?;
    strip.take(b"0123456789")?;
    over(rt.alloc(), PackedStore::new(), strip).plays(&rt, USED_STRIP)?;
    assert!(rt; bytes.starts_with(b"0004,0009\n0005,0009\n0006,0009\n"));
    Ok(())
}

// A store of at most 20 bytes: forms are recalled as they were put last.
const TWENTY_BYTES: &[Step] = &[
    Step::Does(b"XO;01,0|D0300,0200,0100|XP"),
    Step::Recalls(b"XQ;01,0,L", b"D0300,0200,0100"),
    Step::Recalls(b"XQ;01,0,L", b"D0300,0200,0100"),
    Step::Does(b"XO;01,0|D0400,0300,0100|XP"),
    Step::Recalls(b"XQ;01,0,L", b"D0400,0300,0100"),
    Step::Does(b"XO;02,0|C"),
    Step::Refuses(b"XP", Refused(20, b'F', 0, 0, 5)),
    Step::Does(b"WR|XO;02,0|XP"),
    Step::Recalls(b"XQ;02,0,L", b""),
    Step::Recalls(b"XQ;01,0,L", b"D0400,0300,0100"),
    Step::Does(b"J1;B"),
    Step::Refuses(b"XQ;01,0,L", Refused(18, b'F', 1, 0, 12)),
    Step::Refuses(b"XQ;02,0,L", Refused(18, b'F', 2, 0, 12)),
    Step::Does(b"XO;02,0|C|XP"),
    Step::Recalls(b"XQ;02,0,L", b"C"),
];

// A store that takes no byte takes an empty form.
const NO_BYTES: &[Step] = &[
    Step::Does(b"XO;01,0|XP"),
    Step::Recalls(b"XQ;01,0,L", b""),
    Step::Does(b"XO;01,0|C"),
    Step::Refuses(b"XP", Refused(20, b'F', 0, 0, 5)),
    Step::Does(b"WR"),
    Step::Recalls(b"XQ;01,0,L", b""),
];

// Over a store, and on a roll, that nothing else has.
fn keeps<S: FormStore + Drop>(
    rt: &impl Abort,
    heap: Global,
    store: S,
    steps: &[Step],
) -> Result<(), Fail> {
    let mut bytes = vec![in heap; 0_u8; 1354]?;
    over(heap, store, Strip::new(&mut bytes)?).plays(rt, steps)
}

#[test]
fn layers_of_stores(rt: HostRuntime) -> Result<(), Fail> {
    let heap = rt.alloc();
    keeps(&rt, heap, Quota::new(SlotStore::new(), 20), TWENTY_BYTES)?;
    keeps(
        &rt,
        heap,
        Quota::new(ReadCache::new(SlotStore::new()), 20),
        TWENTY_BYTES,
    )?;
    keeps(
        &rt,
        heap,
        ReadCache::new(Quota::new(SlotStore::new(), 20)),
        TWENTY_BYTES,
    )?;
    keeps(
        &rt,
        heap,
        Quota::new(ReadCache::new(PackedStore::new()), 20),
        TWENTY_BYTES,
    )?;
    keeps(
        &rt,
        heap,
        ReadCache::new(Quota::new(PackedStore::new(), 20)),
        TWENTY_BYTES,
    )?;
    keeps(
        &rt,
        heap,
        ReadCache::new(Quota::new(PackedStore::new(), 0)),
        NO_BYTES,
    )
}
