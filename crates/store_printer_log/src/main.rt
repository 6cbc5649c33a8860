// Drives every kind of store and printer through the same calls, and prints what happened.
#![tactic(auto)]

use printers::roll::Roll;
use printers::strip::Strip;
use std::io;
use stores::packed::PackedStore;
use stores::quota::Quota;
use stores::slots::SlotStore;

mod cached;
mod printing;
mod storing;

fn kinds(rt: &HostRuntime) -> io::Result<()> {
    storing::drive(rt, "slot store", SlotStore::new())?;
    storing::drive(rt, "packed store", PackedStore::new())?;
    storing::drive(
        rt,
        "slot store, quota 1500",
        Quota::new(SlotStore::new(), 1500),
    )?;
    storing::drive(
        rt,
        "packed store, quota 1500",
        Quota::new(PackedStore::new(), 1500),
    )?;
    storing::drive(
        rt,
        "packed store, quota 99999",
        Quota::new(PackedStore::new(), 99999),
    )?;
    storing::drive(rt, "slot store, quota 0", Quota::new(SlotStore::new(), 0))
}

fn rolls(rt: &HostRuntime) -> io::Result<()> {
    for size in [0, 1, 3, 1_000_000, 1_000_001] {
        match Roll::new(size) {
            Ok(roll) => printing::drive(rt, "roll", size, roll)?,
            Err(why) => println!(rt; "roll of {size}: refused {}", why.refusal.number())?,
        }
    }
    Ok(())
}

fn strips(rt: &HostRuntime) -> io::Result<()> {
    for size in [1353, 1354, 4000] {
        let mut bytes = vec![in rt.alloc(); 46u8; size]?;
        match Strip::new(&mut bytes) {
            Ok(strip) => printing::drive(rt, "strip", size as u64, strip)?,
            Err(why) => println!(rt; "strip of {size}: refused {}", why.refusal.number())?,
        }
    }
    Ok(())
}

fn main(rt: HostRuntime) -> io::Result<()> {
    kinds(&rt)?;
    storing::lowered(&rt)?;
    cached::layers(&rt)?;
    rolls(&rt)?;
    strips(&rt)
}
