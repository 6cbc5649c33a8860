// Doing a job.
ghost use Rattle.std.specs.Prelude.{◌≡◌, IfOk};
ghost use Rattle.jobrun.specs.Hearing.{Heard};
ghost use Rattle.shop_job.specs.Printing.{Told};

use jobrun::listener::Listener;
use jobrun::working::work_through;
use printers::roll::Roll;
use station::state::{Parts, Station};
use stores::packed::PackedStore;
use texts::digits::{Code128Rule, PlainRule};

// A station of the kind that shops have.
type ShopStation = Station<PackedStore, Roll, PlainRule, Code128Rule>;

/// The tags of a roll. What a job prints does not depend on it.
pub const ROLL: u64 = 500;

/// Does a job on a new station, as the program `tagrun` does; tells how many tags it printed, each of which the
/// listener heard of, or why the listener gave up.
pub fn run_job<L: Listener>(
    job: &[u8],
    answer: &mut [u8],
    work: &mut [u8],
    listener: &mut L,
) -> Result<u32, L::Failed>
    ensures { let k = listener.old in
        let l = listener.new in
        IfOk result (λ tags. (t : Told job.now answer.old work.old tags answer.new work.new)
        × Heard L.hears t.booked.led k l) }
{
    let Ok(roll) = Roll::new(ROLL) else {
        unreachable!()
    };
    let parts = Parts {
        store: PackedStore::new(),
        printer: roll,
        first: PlainRule,
        second: Code128Rule,
    };
    let (_station, told): (ShopStation, Result<u32, L::Failed>) = work_through(
        parts, job, answer, work, listener,
    );
    told
}
