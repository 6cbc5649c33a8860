// What is done to a label at a place of a job.
ghost use Rattle.job.specs.Reading.{read_at, answer_of, next_of};
ghost use Rattle.label.specs.Labels.{seen_label};
ghost use Rattle.tagview.specs.Doing.{Done};

use faults::{Fault, Refusal};
use job::read::read;
use jobgroups::command::Command;
use label::label::Label;

// Does the label command at a place and passes over any other; answers the place behind it.
pub(crate) fn act_at(label: &mut Label, job: &[u8], at: usize) -> Result<usize, Fault>
    ensures { let read = read_at job.now at in
        Done (answer_of read) (next_of read) at result (seen_label label.old) (seen_label label.new) }
{
    let (answer, next) = read(job, at);
    let Command::Label(command) = answer? else {
        return Ok(next);
    };
    // Kept so: by map_err, what the fault says of the label stays open behind the closure.
    match label.act(&command) {
        Ok(()) => Ok(next),
        Err(fault) => Err(Fault {
            refusal: Refusal::from(fault),
            form: 0,
            place: at,
            next,
        }),
    }
}
