// The call for programs in C, over the library.
#![tactic(auto)]

ghost use Rattle.shop_job.specs.Printing.{Told};

use shop_job::counting;

/// How many tags the program `tagrun` prints for a job. A job that is too long and buffers that are too short print
/// none.
#[unsafe(no_mangle)]
pub extern "C" fn count_tags(job: &[u8], answer: &mut [u8], work: &mut [u8]) -> u32
    ensures { Told job.now answer.old work.old result answer.new work.new }
{
    counting::count_tags(job, answer, work)
}
