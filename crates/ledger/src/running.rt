// A whole run on a new station, with the law on its contract.
ghost use Rattle.std.specs.Prelude.{◌≡◌};
ghost use Rattle.station.specs.Views.{made};
ghost use Rattle.ledger.specs.Log.{calls_in, events_in, Does};
ghost use Rattle.ledger.specs.Laws.{AllAccounted, AllAnswered, AccountedAfter};
ghost use Rattle.ledger.specs.Told.{ToldThroughout, ToldAfter};

use crate::log::LogEntry;
use crate::performing::perform;
use printers::printer::Printer;
use station::machine::Machine;
use station::state::{Parts, Station};
use stores::store::FormStore;
use texts::rule::CountingRule;

/// Makes a station and does the calls of the log in turn, noting whether each was accepted. The station comes
/// back as it is then.
pub fn run<M: Machine>(
    parts: M::Parts,
    log: &mut [LogEntry<'_>],
    answer: &mut [u8],
    work: &mut [u8],
) -> M
    ensures calls { calls_in log.new ≡ calls_in log.old }
    ensures does { let v = M.made_of parts in
        Does v answer.old work.old log.new (M.view result) answer.new work.new }
    ensures accounted { let es = events_in answer.old work.old log.new in
        AllAccounted (M.made_of parts) es (M.view result) }
    ensures answered { let es = events_in answer.old work.old log.new in
        AllAnswered (M.made_of parts) es (M.view result) }
    ensures end { let es = events_in answer.old work.old log.new in
        AccountedAfter (M.made_of parts) es (M.view result) }
    ensures told { let v = M.made_of parts in
        ToldThroughout v answer.old work.old log.new (M.view result) answer.new work.new }
    ensures told_end { let es = events_in answer.old work.old log.new in
        ToldAfter (M.made_of parts) es (M.view result) }
{
    let mut station = M::make(parts);
    for e in log.iter_mut() {
        e.accepted = perform(&mut station, e.call, answer, work);
    }
    station
}

/// The same of a station over any store, printer and pair of rules.
pub fn run_station<S: FormStore, P: Printer, R1: CountingRule, R2: CountingRule>(
    store: S,
    printer: P,
    first: R1,
    second: R2,
    log: &mut [LogEntry<'_>],
    answer: &mut [u8],
    work: &mut [u8],
) -> Station<S, P, R1, R2>
    ensures calls { calls_in log.new ≡ calls_in log.old }
    ensures does { let forms = S.forms store in
        let new = made forms (P.paper printer) (R1.wheels first) (R2.wheels second) in
        let left = ⟦<Station<S, P, R1, R2> as Machine>⟧.view result in
        Does new answer.old work.old log.new left answer.new work.new }
    ensures accounted { let forms = S.forms store in
        let new = made forms (P.paper printer) (R1.wheels first) (R2.wheels second) in
        let left = ⟦<Station<S, P, R1, R2> as Machine>⟧.view result in
        AllAccounted new (events_in answer.old work.old log.new) left }
    ensures answered { let forms = S.forms store in
        let new = made forms (P.paper printer) (R1.wheels first) (R2.wheels second) in
        let left = ⟦<Station<S, P, R1, R2> as Machine>⟧.view result in
        AllAnswered new (events_in answer.old work.old log.new) left }
    ensures end { let forms = S.forms store in
        let new = made forms (P.paper printer) (R1.wheels first) (R2.wheels second) in
        let left = ⟦<Station<S, P, R1, R2> as Machine>⟧.view result in
        AccountedAfter new (events_in answer.old work.old log.new) left }
    ensures told { let forms = S.forms store in
        let new = made forms (P.paper printer) (R1.wheels first) (R2.wheels second) in
        let left = ⟦<Station<S, P, R1, R2> as Machine>⟧.view result in
        ToldThroughout new answer.old work.old log.new left answer.new work.new }
    ensures told_end { let forms = S.forms store in
        let new = made forms (P.paper printer) (R1.wheels first) (R2.wheels second) in
        let left = ⟦<Station<S, P, R1, R2> as Machine>⟧.view result in
        ToldAfter new (events_in answer.old work.old log.new) left }
{
    run(
        Parts {
            store,
            printer,
            first,
            second,
        },
        log,
        answer,
        work,
    )
}
