// Doing the commands of a form on a label.
ghost use Rattle.std.specs.Prelude.{◌<◌, IfOk};
ghost use Rattle.label.specs.Labels.{seen_label};
ghost use Rattle.station.specs.Reads.{read_at, next_at};
ghost use Rattle.jobgroups.specs.Commands.{seen_command};
ghost use Rattle.label.specs.Actions.{action_of};
ghost use Rattle.station.specs.Recalls.{acted_on, done_one, done_all, commands_of};
ghost use Rattle.station.specs.Forming.{Done, One, All};

use crate::blame::{Blame, PlacedFault};
use faults::Refusal;
use job::read::read;
use jobgroups::command::Command;
use label::label::Label;

// Kept so: the label and the form's number in one struct would be a borrowed label, whose name each contract would
// have to carry on.

// A command of a form, which has to be a label command.
fn do_command(label: &mut Label, number: u8, command: &Command<'_>, at: usize) -> Result<(), Blame>
    ensures { let before = seen_label label.old in
        let came = acted_on number before at (action_of (seen_command command.now)) in
        Done came result before (seen_label label.new) }
{
    let Command::Label(command) = command else {
        return Err(Blame {
            refusal: Refusal::NotWhileSaving,
            form: number,
            place: at,
        });
    };
    label.act(command).map_err(|why| PlacedFault {
        form: number,
        place: at,
        why,
    })?;
    Ok(())
}

// The command at a place of a form; tells the place behind it.
fn do_one(label: &mut Label, number: u8, form: &[u8], at: usize) -> Result<usize, Blame>
    ensures done { let before = seen_label label.old in
        let came = done_one number before at (read_at form.now at) in
        One came (next_at form.now at) result before (seen_label label.new) }
    ensures on { IfOk result (λ next. at < next) }
{
    let (reading, next) = read(form, at);
    let command = reading.map_err(|e| PlacedFault {
        form: number,
        place: e.place,
        why: e,
    })?;
    do_command(label, number, &command, at)?;
    Ok(next)
}

// All commands of a form in turn. Refused, the label may have taken some of them: lend a copy.
pub(crate) fn do_all(label: &mut Label, number: u8, form: &[u8]) -> Result<(), Blame>
    ensures { let came = done_all number (seen_label label.old) (commands_of form.now) in
        All came result (seen_label label.new) }
{
    let mut at = 0;
    while at < form.len() {
        at = do_one(label, number, form, at)?;
    }
    Ok(())
}
