// What a station's store and printer hold: looked at in it, and given back.
use crate::script::Step;
use crate::watched::over;
use printers::printer::Printer;
use printers::roll::Roll;
use printers::strip::Strip;
use std::test::Fail;
use stores::packed::PackedStore;
use stores::store::FormStore;

const TWO_TAGS: &[Step] = &[
    Step::Does(b"XS;I,0009,0002C3000"),
    Step::Prints(b"0001,0009\n"),
    Step::Prints(b"0002,0009\n"),
];

#[test]
fn a_roll_in_a_station(rt: HostRuntime) -> Result<(), Fail> {
    let mut watched = over(rt.alloc(), PackedStore::new(), Roll::new(3)?);
    watched.plays(&rt, TWO_TAGS)?;
    assert_eq!(rt; watched.station.printer().left(), 1);
    watched.plays(&rt, &[Step::Reloads])?;
    assert_eq!(rt; watched.station.printer().left(), 3);
    let roll = watched.station.into_parts().printer;
    assert_eq!(rt; roll.taken(), 2);
    assert!(rt; roll.latest() == b"0002,0009\n".as_slice());
    Ok(())
}

#[test]
fn a_strip_in_a_station(rt: HostRuntime) -> Result<(), Fail> {
    let mut bytes = vec![in rt.alloc(); 0_u8; 1400]?;
    let mut watched = over(rt.alloc(), PackedStore::new(), Strip::new(&mut bytes)?);
    watched.plays(&rt, TWO_TAGS)?;
    assert!(rt;
        watched
            .station
            .printer()
            .bytes()
            .starts_with(b"0001,0009\n0002,0009\n")
    );
    watched.plays(&rt, &[Step::Reloads, Step::Prints(b"0003,0009\n")])?;
    assert!(rt;
        watched
            .station
            .printer()
            .bytes()
            .starts_with(b"0003,0009\n0002,0009\n")
    );
    Ok(())
}

#[test]
fn a_form_in_a_station(rt: HostRuntime) -> Result<(), Fail> {
    let mut watched = over(rt.alloc(), PackedStore::new(), Roll::new(1)?);
    watched.plays(&rt, &[Step::Does(b"XO;03,0|C|XP")])?;
    assert_eq!(rt; watched.station.store().size(3), Some(4));
    let mut store = watched.station.into_parts().store;
    let mut form = [0_u8; 4];
    assert_eq!(rt; store.read(3, &mut form)?, 4);
    assert!(rt; &form == b"\x1bC\n\0");
    Ok(())
}
