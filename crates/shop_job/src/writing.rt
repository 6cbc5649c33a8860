// A job whose tags and refusals are written out.
ghost use Rattle.std.specs.Prelude.{◌≡◌, ℕ, List, ◌==◌, IfOk, replicate};
ghost use Rattle.faults.specs.Numbers.{number_of};
ghost use Rattle.std.specs.Io.KnownBytes.{Appends};
ghost use Rattle.station.specs.Steps.{answer_bytes, work_bytes};
ghost use Rattle.shop_job.specs.Printing.{Told};
ghost use Rattle.shop_job.specs.Writing.{written_for, written_by};

use crate::running::run_job;
use crate::telling::refusal_line;
use faults::{Fault, Refusal};
use jobparts::bytes::first;
use jobrun::listener::Listener;
use jobrun::stage::Stage;
use station::sizes::{ANSWER_BYTES, WORK_BYTES};
use std::io;
use std::io::Write;

// Whether a fault is the job's end, which is not written.
fn is_end(fault: &Fault) -> bool
    ensures { result ≡ (number_of fault.now.refusal == 3) }
{
    fault.refusal == Refusal::JobEnd
}

// Writes what a job does.
#[derive(Drop)]
struct Report<W> {
    out: W,
}

impl<W: Write> Listener for Report<W> {
    type Failed = io::Error;

    ghost hears = { λ r stage work s. let bytes = written_for stage work in
        Appends (W.contents r.out) (W.contents s.out) bytes };

    #[tactic(auto, using(crate::proofs::Lines::nothing))]
    fn hear(&mut self, stage: &Stage, work: &[u8]) -> io::Result<()> {
        match stage {
            Stage::Tag(n) => self.out.write_all(first(work, *n)),
            Stage::Refused(fault) => self.out.write_all(&refusal_line(fault)),
            Stage::Ended(fault) => {
                if is_end(fault) {
                    Ok(())
                } else {
                    self.out.write_all(&refusal_line(fault))
                }
            }
            Stage::Done(_) | Stage::NoStock(_) => Ok(()),
        }
    }
}

/// Does a job on a new station, and writes every tag's line and every refusal. The writer comes back, not flushed,
/// with the number of tags, or with the first failure to write.
pub fn write_job<W: Write>(job: &[u8], out: W) -> (W, io::Result<u32>)
    ensures { let answer = replicate answer_bytes 0 in
        let work = replicate work_bytes 0 in
        IfOk result.1 (λ tags. (a w : List ℕ) × (t : Told job.now answer work tags a w)
        × Appends (W.contents out) (W.contents result.0) (written_by t.booked.led)) }
{
    let mut report = Report { out };
    let mut answer = [0_u8; ANSWER_BYTES];
    let mut work = [0_u8; WORK_BYTES];
    let told = run_job(job, &mut answer, &mut work, &mut report);
    (report.out, told)
}
