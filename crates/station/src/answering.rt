// What a station answers to a well-formed command.
ghost use Rattle.std.specs.Prelude.{◌≡◌, ◌≤◌, length};
ghost use Rattle.jobgroups.specs.Commands.{seen_command};
ghost use Rattle.label.specs.Actions.{asked_by};
ghost use Rattle.station.specs.Requests.{on_label, request_of};
ghost use Rattle.station.specs.Steps.{Came, when_idle, answered, answer_by, work_in, answer_bytes, work_bytes};

use crate::blame::{Blame, PlacedFault};
use crate::machine::Machine;
use crate::mode::Mode;
use crate::state::Station;
use crate::status::tell;
use crate::steps::refused;
use faults::Refusal;
use jobgroups::command::{Command, LabelCommand, StationCommand};
use jobvalues::numbers::{four_digit_number, two_digit_number};
use printers::printer::Printer;
use stores::store::FormStore;
use texts::rule::CountingRule;

impl<S: FormStore, P: Printer, R1: CountingRule, R2: CountingRule> Station<S, P, R1, R2> {
    // A label command done on the label.
    fn act(&mut self, command: &LabelCommand<'_>, at: usize) -> Result<(), Blame>
        ensures step { let v = ⟦<Self as Machine>⟧.view self.old in
            let came = when_idle v (on_label (asked_by command.now)) at in
            Came result came v (⟦<Self as Machine>⟧.view self.new) }
        ensures printer { self.new.printer ≡ self.old.printer }
    {
        self.label
            .act(command)
            .map_err(|why| PlacedFault::in_job(at, why))?;
        Ok(())
    }

    // One match on what the station is doing together with the command accepts, drafts or refuses.
    pub(crate) fn answer(
        &mut self,
        command: &Command<'_>,
        whole: &[u8],
        at: usize,
        answer: &mut [u8],
        work: &mut [u8],
    ) -> Result<(), Blame>
        requires told { answer_bytes ≤ length answer.old }
        requires room { work_bytes ≤ length work.old }
        ensures step { let v = ⟦<Self as Machine>⟧.view self.old in
            let r = request_of (seen_command command.now) in
            Came result (answered v r whole.now at) v (⟦<Self as Machine>⟧.view self.new) }
        ensures answer { let v = ⟦<Self as Machine>⟧.view self.old in
            answer.new ≡ answer_by (request_of (seen_command command.now)) v answer.old }
        ensures work { let v = ⟦<Self as Machine>⟧.view self.old in
            work.new ≡ work_in v.mode (request_of (seen_command command.now)) v.forms work.old }
        ensures printer { self.new.printer ≡ self.old.printer }
    {
        match (&mut self.mode, command) {
            (_, Command::Station(StationCommand::WriteStatus)) => {
                tell(self.mode.owed(), self.printer.left(), answer);
                Ok(())
            }
            (_, Command::Station(StationCommand::Reset)) => {
                self.reset();
                Ok(())
            }
            (Mode::Owing(_), _) => refused(Refusal::LabelsOwed, at),
            (Mode::Saving(draft), Command::Label(_)) => draft.save(whole, at),
            (Mode::Saving(draft), Command::Station(StationCommand::EndSaving)) => {
                self.store
                    .put(draft.number, draft.commands.as_slice())
                    .map_err(|why| PlacedFault::in_job(at, why))?;
                self.mode = Mode::Idle;
                Ok(())
            }
            (Mode::Saving(_), Command::Station(_)) => refused(Refusal::NotWhileSaving, at),
            (Mode::Idle, Command::Label(command)) => self.act(command, at),
            (Mode::Idle, Command::Station(StationCommand::PrintIssue(issue))) => {
                self.order(four_digit_number(issue.count.labels.bytes), at)
            }
            (Mode::Idle, Command::Station(StationCommand::BeginSaving(form))) => {
                self.begin_saving(two_digit_number(form.form.bytes));
                Ok(())
            }
            (Mode::Idle, Command::Station(StationCommand::EndSaving)) => {
                refused(Refusal::NotSaving, at)
            }
            (Mode::Idle, Command::Station(StationCommand::RecallForm(recall))) => {
                self.recall(two_digit_number(recall.form.form.bytes), at, work)
            }
            (Mode::Idle, Command::Station(StationCommand::EmptyStore)) => {
                self.store.empty();
                Ok(())
            }
        }
    }
}
