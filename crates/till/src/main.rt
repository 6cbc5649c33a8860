// An example of a till: it does a job on a station of its own and makes a list of the tags, a line for each.
// docs/STATION.md has the calls.
#![tactic(auto)]

ghost use Rattle.std.specs.Io.KnownBytes.{Appends};
ghost use Rattle.till.specs.Listing.{listed_for};

use jobparts::bytes::first;
use jobrun::listener::Listener;
use jobrun::stage::Stage;
use shop_job::running::run_job;
use station::sizes::{ANSWER_BYTES, WORK_BYTES};
use std::io;
use std::io::{BufWriter, Read, Write};

// What stands in front of each tag's line.
const HEAD: &[u8] = b"tag ";

// Hears of each step of a job while it is done, and writes the list.
#[derive(Drop)]
struct TagList<W> {
    out: W,
}

impl<W: Write> Listener for TagList<W> {
    type Failed = io::Error;

    // What is written for a step is promised here, and so of the whole job by the contract of run_job.
    ghost hears = { λ l stage work m. Appends (W.contents l.out) (W.contents m.out) (listed_for stage work) };

    // After a tag the front of the work buffer has the tag's line.
    #[tactic(auto, using(crate::proofs::Appending::appends_none, crate::proofs::Appending::appends_both))]
    fn hear(&mut self, stage: &Stage, work: &[u8]) -> io::Result<()> {
        match stage {
            Stage::Tag(n) => {
                self.out.write_all(HEAD)?;
                self.out.write_all(first(work, *n))
            }
            Stage::Done(_) | Stage::Refused(_) | Stage::Ended(_) | Stage::NoStock(_) => Ok(()),
        }
    }
}

fn main(rt: HostRuntime) -> io::Result<()> {
    let mut job = Vec::new(rt.alloc());
    rt.stdin().read_to_end(&mut job)?;
    let mut list = TagList {
        out: BufWriter::new(rt.alloc(), rt.stdout())?,
    };
    let mut answer = [0u8; ANSWER_BYTES];
    let mut work = [0u8; WORK_BYTES];
    let tags = run_job(job.as_slice(), &mut answer, &mut work, &mut list)?;
    writeln!(list.out, "{tags} tags")?;
    list.out.flush()
}
