// One round of calls over any form store.
use faults::Refusal;
use limits::sizes::LAST_FORM;
use std::io;
use std::io::Write;
use stores::answers::{LoadFault, StoreFault};
use stores::packed::PackedStore;
use stores::quota::Quota;
use stores::store::FormStore;

// A form is a letter, repeated.
// Kept so: the steps are data, since each kind and layer goes through the same ones.
#[derive(Clone, Copy)]
pub enum Step {
    Size(u8),
    Put(u8, usize, u8),
    Read(u8, usize),
    Fill(usize),
    Empty,
}

const ROUND: [Step; 34] = [
    Step::Size(1),
    Step::Put(1, 5, b'a'),
    Step::Put(20, 0, b'b'),
    Step::Put(0, 1, b'c'),
    Step::Put(21, 1, b'c'),
    Step::Size(1),
    Step::Size(20),
    Step::Size(2),
    // bytes behind a form stay, and all stay where it has no room
    Step::Read(1, 8),
    Step::Read(1, 4),
    Step::Read(20, 4),
    Step::Read(2, 4),
    Step::Read(200, 4),
    // what a copy of the form read last could spoil
    Step::Put(2, 6, b'd'),
    Step::Read(1, 8),
    Step::Read(2, 8),
    Step::Read(1, 8),
    Step::Put(1, 5, b'e'),
    Step::Read(1, 8),
    Step::Read(2, 8),
    Step::Empty,
    Step::Read(2, 8),
    Step::Size(1),
    // long forms, and full stores
    Step::Put(3, 512, b'f'),
    Step::Put(3, 513, b'f'),
    Step::Put(3, 1024, b'f'),
    Step::Put(3, 1025, b'f'),
    Step::Fill(410),
    Step::Fill(409),
    Step::Put(20, 421, b'g'),
    Step::Put(20, 422, b'g'),
    Step::Empty,
    Step::Fill(1024),
    Step::Empty,
];

// A quota laid over forms of 10 and 20 bytes: they stay, and puts are judged by the lower total.
const OVER: [Step; 7] = [
    Step::Read(2, 24),
    Step::Put(3, 0, b'c'),
    Step::Put(1, 1, b'c'),
    Step::Put(1, 0, b'c'),
    Step::Put(3, 1, b'c'),
    Step::Put(2, 20, b'c'),
    Step::Put(2, 21, b'c'),
];

fn put<S: FormStore>(
    rt: &HostRuntime,
    store: &mut S,
    number: u8,
    len: usize,
    letter: u8,
) -> io::Result<()> {
    let form = vec![in rt.alloc(); letter; len]?;
    match store.put(number, &form) {
        Ok(()) => println!(rt; "  put {number}, {len} bytes: done"),
        Err(why) => println!(rt;
            "  put {number}, {len} bytes: refused {}",
            Refusal::from(why).number()
        ),
    }
}

fn size<S: FormStore>(rt: &HostRuntime, store: &S, number: u8) -> io::Result<()> {
    match store.size(number) {
        Some(len) => println!(rt; "  size {number}: {len}"),
        None => println!(rt; "  size {number}: no form"),
    }
}

// Reads into a buffer of dots.
fn read<S: FormStore>(rt: &HostRuntime, store: &mut S, number: u8, room: usize) -> io::Result<()> {
    let mut out = vec![in rt.alloc(); b'.'; room]?;
    match store.read(number, &mut out) {
        Ok(len) => print!(rt; "  read {number}: {len} bytes ")?,
        Err(LoadFault::NoForm) => print!(rt; "  read {number}: nothing ")?,
        Err(LoadFault::NoRoom) => print!(rt; "  read {number}: no room ")?,
    }
    rt.stdout().write_all(&out)?;
    println!(rt; "")
}

// Puts forms of one length under every number, and tells how many were taken.
fn fill<S: FormStore>(rt: &HostRuntime, store: &mut S, len: usize) -> io::Result<()> {
    let form = vec![in rt.alloc(); b'A'; len]?;
    let mut done = 0u32;
    let mut full = 0u32;
    for number in 1..=LAST_FORM {
        match store.put(number, &form) {
            Ok(()) => done = done.saturating_add(1),
            Err(StoreFault::Full) => full = full.saturating_add(1),
            Err(_) => {}
        }
    }
    println!(rt; "  20 forms of {len} bytes: {done} done, {full} found it full")
}

fn perform<S: FormStore>(rt: &HostRuntime, store: &mut S, step: Step) -> io::Result<()> {
    match step {
        Step::Size(number) => size(rt, store, number),
        Step::Put(number, len, letter) => put(rt, store, number, len, letter),
        Step::Read(number, room) => read(rt, store, number, room),
        Step::Fill(len) => fill(rt, store, len),
        Step::Empty => {
            store.empty();
            println!(rt; "  emptied, longest form {}", store.longest())
        }
    }
}

pub(crate) fn drive<S: FormStore + Drop>(
    rt: &HostRuntime,
    name: &str,
    mut store: S,
) -> io::Result<()> {
    println!(rt; "{name}")?;
    for step in ROUND {
        perform(rt, &mut store, step)?;
    }
    Ok(())
}

pub(crate) fn lowered(rt: &HostRuntime) -> io::Result<()> {
    println!(rt; "packed store with 30 bytes, then quota 20")?;
    let mut below = PackedStore::new();
    put(rt, &mut below, 1, 10, b'a')?;
    put(rt, &mut below, 2, 20, b'b')?;
    let mut store = Quota::new(below, 20);
    for step in OVER {
        perform(rt, &mut store, step)?;
    }
    Ok(())
}
