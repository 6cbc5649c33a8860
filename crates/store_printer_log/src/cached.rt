// The read cache, under and over a quota, on both kinds. No other file names it.
use crate::storing::drive;
use std::io;
use stores::cache::ReadCache;
use stores::packed::PackedStore;
use stores::quota::Quota;
use stores::slots::SlotStore;

pub(crate) fn layers(rt: &HostRuntime) -> io::Result<()> {
    drive(rt, "slot store, cache", ReadCache::new(SlotStore::new()))?;
    drive(
        rt,
        "packed store, cache",
        ReadCache::new(PackedStore::new()),
    )?;
    drive(
        rt,
        "slot store, cache, quota 1500",
        Quota::new(ReadCache::new(SlotStore::new()), 1500),
    )?;
    drive(
        rt,
        "slot store, quota 1500, cache",
        ReadCache::new(Quota::new(SlotStore::new(), 1500)),
    )?;
    drive(
        rt,
        "packed store, cache, quota 1500",
        Quota::new(ReadCache::new(PackedStore::new()), 1500),
    )?;
    drive(
        rt,
        "packed store, quota 1500, cache",
        ReadCache::new(Quota::new(PackedStore::new(), 1500)),
    )
}
