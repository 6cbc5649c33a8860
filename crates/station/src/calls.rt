// The calls of a station.
ghost use Rattle.std.specs.Prelude.{◌≡◌, Ok};
ghost use Rattle.printers.specs.Paper.{with_tag, reloaded};
ghost use Rattle.station.specs.Seen.{seen, parts_of};
ghost use Rattle.station.specs.Views.{made};
ghost use Rattle.std.proofs.Common.{refl};

use crate::machine::Machine;
use crate::mode::Mode;
use crate::sizes::{ANSWER_BYTES, WORK_BYTES};
use crate::state::{Parts, Station};
use faults::{Fault, Refusal, unplaced};
use job::read::{check_bounds, read};
use jobparts::bytes::{first, rest_at};
use label::label::Label;
use printers::printer::Printer;
use stores::store::FormStore;
use texts::rule::CountingRule;

impl<S: FormStore, P: Printer, R1: CountingRule, R2: CountingRule> Station<S, P, R1, R2> {
    /// A new station, which changes neither the store nor the printer that it is given.
    pub fn new(store: S, printer: P, first: R1, second: R2) -> Station<S, P, R1, R2>
        ensures view { let forms = S.forms store in
            let new = made forms (P.paper printer) (R1.wheels first) (R2.wheels second) in
            ⟦<Station<S, P, R1, R2> as Machine>⟧.view result ≡ new }
        ensures store { (parts_of result).store ≡ store }
        ensures printer { (parts_of result).printer ≡ printer }
    {
        Station {
            store,
            printer,
            first,
            second,
            label: Label::new(),
            mode: Mode::Idle,
            ordered: 0,
        }
    }

    /// The store, as it is now.
    pub fn store(&self) -> &S
        ensures { result.now ≡ (parts_of self.now).store }
    {
        &self.store
    }

    /// The printer, as it is now.
    pub fn printer(&self) -> &P
        ensures { result.now ≡ (parts_of self.now).printer }
    {
        &self.printer
    }

    /// Gives back what the station was made of, as it is now. Label, draft and labels owed are gone.
    pub fn into_parts(self) -> Parts<S, P, R1, R2>
        ensures { result ≡ parts_of self }
    {
        Parts {
            store: self.store,
            printer: self.printer,
            first: self.first,
            second: self.second,
        }
    }
}

impl<S: FormStore, P: Printer, R1: CountingRule, R2: CountingRule> Machine
    for Station<S, P, R1, R2> {
    type Parts = Parts<S, P, R1, R2>;

    ghost view = { seen S.FormStore P.Printer R1.CountingRule R2.CountingRule };

    ghost made_of = { λ p. let forms = S.forms p.store in
        made forms (P.paper p.printer) (R1.wheels p.first) (R2.wheels p.second) };

    ghost takes = { λ s line t. let p = s.printer in
        let q = t.printer in
        (P.paper q ≡ with_tag (P.paper p) line (P.left_after_take p line)) × P.takes (Ok tt) p line q };

    ghost reloads = { λ s t. let p = s.printer in
        let q = t.printer in
        (P.paper q ≡ reloaded (P.paper p) (P.left_after_reload p)) × P.reloads p q };

    ghost keeps = { λ s t. t.printer ≡ s.printer };

    ghost new = { λ _. refl };

    ghost lawful = { λ s. S.lawful s.store };

    fn make(parts: Parts<S, P, R1, R2>) -> Station<S, P, R1, R2> {
        Station::new(parts.store, parts.printer, parts.first, parts.second)
    }

    fn reload(&mut self) {
        self.printer.reload();
    }

    fn command(
        &mut self,
        job: &[u8],
        at: usize,
        answer: &mut [u8],
        work: &mut [u8],
    ) -> Result<usize, Fault> {
        check_bounds(job, at)?;
        if answer.len() < ANSWER_BYTES || work.len() < WORK_BYTES {
            return Err(Fault {
                refusal: Refusal::ShortBuffer,
                form: 0,
                place: at,
                next: at,
            });
        }
        let (reading, next) = read(job, at);
        let command = reading?;
        let whole = first(rest_at(job, at), next.saturating_sub(at));
        self.answer(&command, whole, at, answer, work)
            .map_err(|blame| Fault {
                refusal: blame.refusal,
                form: blame.form,
                place: blame.place,
                next,
            })?;
        Ok(next)
    }

    fn owed(&self) -> u16 {
        self.mode.owed()
    }

    fn print(&mut self, work: &mut [u8]) -> Result<usize, Fault> {
        if work.len() < WORK_BYTES {
            return Err(unplaced(Refusal::ShortBuffer));
        }
        let Mode::Owing(issue) = self.mode else {
            return Err(unplaced(Refusal::NothingOwed));
        };
        // The stock is looked at before the line is written: a refused print leaves the buffer alone.
        if self.printer.left() == 0 {
            return Err(unplaced(Refusal::OutOfStock));
        }
        let number = issue.size - issue.left + 1;
        let n = self
            .label
            .write_line(number, issue.size, work)
            .ok_or(unplaced(Refusal::ShortBuffer))?;
        self.printer
            .take(&work[..n])
            .map_err(|why| unplaced(why.into()))?;
        self.label.turn(&self.first, &self.second);
        self.mode.one_less();
        Ok(n)
    }

    fn draw(&self, dots: &mut [u8]) -> Result<(), Fault> {
        self.label.draw(dots).map_err(unplaced)
    }
}
