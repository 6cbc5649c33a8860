// What a station does at each request.
ghost use Rattle.std.specs.Prelude.{◌≡◌, ◌≤◌, [], length, Err};
ghost use Rattle.station.specs.Drafts.{Saved};
ghost use Rattle.station.specs.Steps.{Came, ordering, recalled, work_bytes};
ghost use Rattle.station.specs.Views.{with_mode, with_label, saving, idle};
ghost use Rattle.stores.specs.Forms.{filled_with};
ghost use Rattle.station.specs.declared.mode.Mode.TheVariants.{Saving};
ghost use Rattle.label.specs.Labels.{new_label};

use crate::blame::{Blame, PlacedFault};
use crate::machine::Machine;
use crate::mode::{Draft, Issue, Mode};
use crate::recall::do_all;
use crate::sizes::MOST_ORDERED;
use crate::state::Station;
use faults::Refusal;
use fixedvec::FixedVec;
use label::label::Label;
use printers::printer::Printer;
use stores::answers::StoreFault;
use stores::store::FormStore;
use texts::rule::CountingRule;

// A refusal of the command at a place, outside any form.
pub(crate) fn refused(refusal: Refusal, place: usize) -> Result<(), Blame>
    ensures { result ≡ Err (record { refusal = refusal; form = 0; place = place }) }
{
    Err(PlacedFault::in_job(place, refusal).into())
}

impl Draft {
    // A label command joins the draft whole, unless the draft would get too long.
    pub(crate) fn save(&mut self, whole: &[u8], at: usize) -> Result<(), Blame>
        ensures { Saved self.old whole.now at result self.new }
    {
        self.commands
            .extend(whole)
            .or(refused(Refusal::DraftFull, at))
    }
}

impl<S: FormStore, P: Printer, R1: CountingRule, R2: CountingRule> Station<S, P, R1, R2> {
    // An issue of labels, unless it would be more than a station may be ordered.
    pub(crate) fn order(&mut self, labels: u16, at: usize) -> Result<(), Blame>
        ensures step { let v = ⟦<Self as Machine>⟧.view self.old in
            Came result (ordering v labels at) v (⟦<Self as Machine>⟧.view self.new) }
        ensures printer { self.new.printer ≡ self.old.printer }
    {
        let ordered = self
            .ordered
            .checked_add(u64::from(labels))
            .filter(|n| *n <= MOST_ORDERED)
            .ok_or(PlacedFault::in_job(at, Refusal::TooManyOrdered))?;
        self.ordered = ordered;
        self.mode = if labels == 0 {
            Mode::Idle
        } else {
            Mode::Owing(Issue {
                left: labels,
                size: labels,
            })
        };
        Ok(())
    }

    // Begins to save a form, with an empty draft.
    pub(crate) fn begin_saving(&mut self, form: u8)
        ensures step { let v = ⟦<Self as Machine>⟧.view self.old in
            ⟦<Self as Machine>⟧.view self.new ≡ with_mode (saving form []) v }
        ensures printer { self.new.printer ≡ self.old.printer }
    {
        self.mode = Mode::Saving(Draft {
            number: form,
            commands: FixedVec::new(0),
        });
    }

    // Drops label, draft and labels owed.
    pub(crate) fn reset(&mut self)
        ensures step { let v = ⟦<Self as Machine>⟧.view self.old in
            ⟦<Self as Machine>⟧.view self.new ≡ with_mode idle (with_label new_label v) }
        ensures printer { self.new.printer ≡ self.old.printer }
    {
        self.mode = Mode::Idle;
        self.label = Label::new();
    }

    // A form's commands, copied to the front of the work buffer, all or none.
    pub(crate) fn recall(&mut self, number: u8, at: usize, work: &mut [u8]) -> Result<(), Blame>
        requires { work_bytes ≤ length work.old }
        ensures step { let v = ⟦<Self as Machine>⟧.view self.old in
            let came = recalled v number at (v.forms.at number) in
            Came result came v (⟦<Self as Machine>⟧.view self.new) }
        ensures work { let v = ⟦<Self as Machine>⟧.view self.old in
            work.new ≡ filled_with (v.forms.at number) work.old }
        ensures printer { self.new.printer ≡ self.old.printer }
    {
        let n = self.store.read(number, work).map_err(|_| PlacedFault {
            form: number,
            place: at,
            why: StoreFault::NoForm,
        })?;
        let mut label = self.label;
        do_all(&mut label, number, &work[..n])?;
        self.label = label;
        Ok(())
    }
}
