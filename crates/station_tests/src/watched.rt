// A station whose calls are watched: what each answers, and every byte of the buffers that it is lent.
use crate::jobs::{behind, framed, repeated};
use crate::script::{Refused, Step};
use faults::Fault;
use jobparts::bytes::{first, rest_at};
use limits::sizes::PICTURE_BYTES;
use printers::printer::Printer;
use printers::roll::Roll;
use station::machine::Machine;
use station::state::Station;
use std::alloc::Global;
use std::process::Abort;
use std::test::Fail;
use stores::packed::PackedStore;
use stores::store::FormStore;
use texts::digits::{Code128Rule, PlainRule};
use texts::rule::CountingRule;

// What stands in every buffer before a call.
const BLANK: u8 = 0xaa;

fn figures(fault: Fault) -> Refused {
    Refused(
        fault.refusal.number(),
        fault.refusal.layer().letter(),
        fault.form,
        fault.place,
        fault.next,
    )
}

// The buffer begins with `front`, and behind it nothing was written.
fn holds(rt: &impl Abort, buffer: &[u8], front: &[u8]) {
    assert!(rt; first(buffer, front.len()) == front);
    assert!(rt; rest_at(buffer, front.len()).iter().all(|b| *b == BLANK));
}

#[derive(Drop)]
pub struct Watched<S, P, R1, R2> {
    pub station: Station<S, P, R1, R2>,
    pub heap: Global,
}

// A station over any store and printer, with the usual rules.
pub fn over<S: FormStore, P: Printer>(
    heap: Global,
    store: S,
    printer: P,
) -> Watched<S, P, PlainRule, Code128Rule> {
    Watched {
        station: Station::new(store, printer, PlainRule, Code128Rule),
        heap,
    }
}

// Plays on the station that shops have, with a roll of so many tags.
pub fn plays(rt: &impl Abort, heap: Global, roll: u64, steps: &[Step]) -> Result<(), Fail> {
    over(heap, PackedStore::new(), Roll::new(roll)?).plays(rt, steps)
}

impl<S: FormStore, P: Printer, R1: CountingRule, R2: CountingRule> Watched<S, P, R1, R2> {
    pub fn plays(&mut self, rt: &impl Abort, steps: &[Step]) -> Result<(), Fail> {
        for step in steps {
            self.play(rt, *step)?;
        }
        Ok(())
    }

    fn play(&mut self, rt: &impl Abort, step: Step) -> Result<(), Fail> {
        match step {
            Step::Does(bodies) => self.works(rt, bodies, 1),
            Step::Repeats(bodies, times) => self.works(rt, bodies, times),
            Step::Refuses(body, want) => self.refuses(rt, body, b"", want),
            Step::RefusesAt(job, at, want) => self.refuses_at(rt, job, at, b"", want),
            Step::RefusesAll(bodies, number) => self.refuses_all(rt, bodies, number),
            Step::Recalls(body, form) => self.recalls(rt, body, form),
            Step::RefusesInside(body, form, want) => self.refuses(rt, body, form, want),
            Step::Tells(answer) => self.tells(rt, answer),
            Step::Prints(line) => self.prints(rt, line),
            Step::PrintsNot(work, number, layer) => self.prints_not(rt, work, number, layer),
            Step::DrawsNot(dots) => self.draws_not(rt, dots),
            Step::Shows(black) => self.shows(rt, black),
            Step::Reloads => {
                self.station.reload();
                Ok(())
            }
        }
    }

    // The label's picture with the bytes behind it, and behind these the status answer.
    fn look(&mut self) -> Result<Vec<u8>, Fail> {
        let mut answer = [BLANK; 13];
        let mut work = [BLANK; 1400];
        self.station
            .command(b"\x1bWS\n\0", 0, &mut answer, &mut work)?;
        let mut look = vec![in self.heap; BLANK; PICTURE_BYTES + 3]?;
        self.station.draw(&mut look)?;
        look.extend_from_slice(&answer)?;
        Ok(look)
    }

    // The command at a place of a job is done, and no buffer is written; answers the place behind it.
    fn step(&mut self, rt: &impl Abort, job: &[u8], at: usize) -> Result<usize, Fail> {
        let mut answer = [BLANK; 16];
        let mut work = [BLANK; 1404];
        let next = self.station.command(job, at, &mut answer, &mut work)?;
        assert_eq!(rt; next, behind(job, at));
        holds(rt, &answer, b"");
        holds(rt, &work, b"");
        Ok(next)
    }

    fn works(&mut self, rt: &impl Abort, bodies: &[u8], times: u32) -> Result<(), Fail> {
        let job = repeated(self.heap, bodies, times)?;
        let mut at = 0;
        for _ in 0..job.len() {
            if at >= job.len() {
                break;
            }
            at = self.step(rt, &job, at)?;
        }
        Ok(())
    }

    fn recalls(&mut self, rt: &impl Abort, body: &[u8], form: &[u8]) -> Result<(), Fail> {
        let mut answer = [BLANK; 16];
        let mut work = [BLANK; 1404];
        let job = framed(self.heap, body)?;
        let form = framed(self.heap, form)?;
        let next = self.station.command(&job, 0, &mut answer, &mut work)?;
        assert_eq!(rt; next, job.len());
        holds(rt, &answer, b"");
        holds(rt, &work, &form);
        Ok(())
    }

    fn refuses(
        &mut self,
        rt: &impl Abort,
        body: &[u8],
        form: &[u8],
        want: Refused,
    ) -> Result<(), Fail> {
        let job = framed(self.heap, body)?;
        let form = framed(self.heap, form)?;
        self.refuses_at(rt, &job, 0, &form, want)
    }

    // Nothing changes, but that the form's bytes lie in the work buffer.
    pub fn refuses_at(
        &mut self,
        rt: &impl Abort,
        job: &[u8],
        at: usize,
        form: &[u8],
        want: Refused,
    ) -> Result<(), Fail> {
        let before = self.look()?;
        let mut answer = [BLANK; 16];
        let mut work = [BLANK; 1404];
        let got = self.station.command(job, at, &mut answer, &mut work);
        assert_eq!(rt; got.map_err(figures), Err(want));
        holds(rt, &answer, b"");
        holds(rt, &work, form);
        let after = self.look()?;
        assert!(rt; before.as_slice() == after.as_slice());
        Ok(())
    }

    fn refuses_all(&mut self, rt: &impl Abort, bodies: &[u8], number: u8) -> Result<(), Fail> {
        let job = framed(self.heap, bodies)?;
        let mut at = 0;
        for _ in 0..job.len() {
            if at >= job.len() {
                break;
            }
            let next = behind(&job, at);
            self.refuses_at(rt, &job, at, b"", Refused(number, b'S', 0, at, next))?;
            at = next;
        }
        Ok(())
    }

    // The command at a place of a job is refused, whatever it is, where it is lent so many bytes.
    pub fn is_short(
        &mut self,
        rt: &impl Abort,
        job: &[u8],
        at: usize,
        answer: usize,
        work: usize,
    ) -> Result<(), Fail> {
        let before = self.look()?;
        let mut answer = vec![in self.heap; BLANK; answer]?;
        let mut work = vec![in self.heap; BLANK; work]?;
        let got = self.station.command(job, at, &mut answer, &mut work);
        assert_eq!(rt; got.map_err(figures), Err(Refused(2, b'J', 0, at, at)));
        holds(rt, &answer, b"");
        holds(rt, &work, b"");
        let after = self.look()?;
        assert!(rt; before.as_slice() == after.as_slice());
        Ok(())
    }

    // It is asked with another command before it, which is not done.
    fn tells(&mut self, rt: &impl Abort, want: &[u8]) -> Result<(), Fail> {
        let mut answer = [BLANK; 16];
        let mut work = [BLANK; 1404];
        let job = b"\x1bWR\n\0\x1bWS\n\0";
        let next = self.station.command(job, 5, &mut answer, &mut work)?;
        assert_eq!(rt; next, 10);
        holds(rt, &answer, want);
        holds(rt, &work, b"");
        Ok(())
    }

    fn prints(&mut self, rt: &impl Abort, line: &[u8]) -> Result<(), Fail> {
        let mut work = [BLANK; 1404];
        let n = self.station.print(&mut work)?;
        assert_eq!(rt; n, line.len());
        holds(rt, &work, line);
        Ok(())
    }

    fn prints_not(
        &mut self,
        rt: &impl Abort,
        work: usize,
        number: u8,
        layer: u8,
    ) -> Result<(), Fail> {
        let before = self.look()?;
        let mut work = vec![in self.heap; BLANK; work]?;
        let got = self.station.print(&mut work);
        assert_eq!(rt; got.map_err(figures), Err(Refused(number, layer, 0, 0, 0)));
        holds(rt, &work, b"");
        let after = self.look()?;
        assert!(rt; before.as_slice() == after.as_slice());
        Ok(())
    }

    fn draws_not(&self, rt: &impl Abort, dots: usize) -> Result<(), Fail> {
        let mut dots = vec![in self.heap; BLANK; dots]?;
        let got = self.station.draw(&mut dots);
        assert_eq!(rt; got.map_err(figures), Err(Refused(2, b'J', 0, 0, 0)));
        holds(rt, &dots, b"");
        Ok(())
    }

    // No byte behind the picture is written.
    fn shows(&self, rt: &impl Abort, black: u32) -> Result<(), Fail> {
        let mut dots = vec![in self.heap; BLANK; PICTURE_BYTES + 3]?;
        self.station.draw(&mut dots)?;
        let shown = first(&dots, PICTURE_BYTES)
            .iter()
            .fold(0_u32, |n, b| n.saturating_add(b.count_ones()));
        assert_eq!(rt; shown, black);
        holds(rt, rest_at(&dots, PICTURE_BYTES), b"");
        Ok(())
    }
}
