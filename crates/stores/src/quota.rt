// A layer over any store that lowers its total to a fixed figure, if that is smaller.
ghost use Rattle.std.specs.Prelude.{◌≡◌, length, if◌then◌else◌, nat_eq};
ghost use Rattle.stores.specs.Forms.{lowered, others, size_of};
ghost use Rattle.std.proofs.Common.{rules};

use crate::answers::{LoadFault, StoreFault};
use crate::parts::Number;
use crate::store::FormStore;
use limits::sizes::LAST_FORM;

/// Forms that have more bytes than the figure already stay and are read: only puts are judged by it.
#[derive(Drop)]
pub struct Quota<S> {
    below: S,
    figure: usize,
}

impl<S: FormStore> Quota<S> {
    /// The store below, with a total of at most `figure` bytes.
    pub fn new(below: S, figure: usize) -> Quota<S>
        ensures store { result.below ≡ below }
        ensures figure { result.figure ≡ figure }
    {
        Quota { below, figure }
    }

    /// Takes the layer off.
    pub fn into_below(self) -> S
        ensures { result ≡ self.below }
    {
        let Quota { below, figure: _ } = self;
        below
    }
}

// The bytes of all forms but one.
// Kept so: by filter_map and sum over the numbers, that the sum fits and what it is stayed open.
fn others_of<S: FormStore>(store: &S, but: u8) -> usize
    ensures { result ≡ others (S.FormStore.forms store.now) but }
{
    let mut sum = 0;
    for number in 1..=LAST_FORM {
        if number != but {
            sum += store.size(number).unwrap_or(0);
        }
    }
    sum
}

impl<S: FormStore> FormStore for Quota<S> {
    ghost forms = { λ q. lowered q.figure (S.FormStore.forms q.below) };

    ghost lawful = { Prim.search rules };

    fn size(&self, number: u8) -> Option<usize> {
        self.below.size(number)
    }

    fn read(&mut self, number: u8, out: &mut [u8]) -> Result<usize, LoadFault> {
        self.below.read(number, out)
    }

    fn longest(&self) -> usize {
        self.below.longest()
    }

    // Too long is told before full.
    #[tactic(auto, using(crate::specs::FormLaws::others_least))]
    fn put(&mut self, number: u8, form: &[u8]) -> Result<(), StoreFault> {
        if others_of(&self.below, number) + form.len() > self.figure {
            Number::to_put(number, form.len(), self.below.longest())?;
            return Err(StoreFault::Full);
        }
        self.below.put(number, form)
    }

    fn empty(&mut self) {
        self.below.empty();
    }
}
