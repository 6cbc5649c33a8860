// A layer over any store that keeps a copy of the form read last. It changes no meaning.
ghost use Rattle.std.specs.Prelude.{◌≡◌, length, Some, ⊤, MatchOption, MatchResult};
ghost use Rattle.fixedvec.specs.Items.{items};
ghost use Rattle.stores.specs.Forms.{loaded_of, filled_with};
ghost use Rattle.stores.specs.declared.cache.Copied.{Copied as Copy};
ghost use Rattle.std.proofs.Common.{rules};

use crate::answers::{LoadFault, StoreFault};
use crate::parts::fill;
use crate::store::FormStore;
use fixedvec::FixedVec;
use limits::sizes::LONGEST_FORM;

#[derive(Clone, Copy)]
struct Copied {
    number: u8,
    form: FixedVec<u8, LONGEST_FORM>,
}

/// Size and longest are asked below; a form that was read last is not read again.
// The copy is always the form below; a put or emptying gives it up.
#[derive(Drop)]
pub struct ReadCache<S: FormStore> {
    below: S,
    copy: Option<Copied>,
    ghost kept: { (c : Copy) → copy ≡ Some c →
        (S.FormStore.forms below).at c.number ≡ Some (items c.form) },
}

impl<S: FormStore> ReadCache<S> {
    /// The store below, with no form read yet.
    pub fn new(below: S) -> ReadCache<S>
        ensures { result.below ≡ below }
    {
        ReadCache { below, copy: None }
    }

    /// Takes the layer off.
    pub fn into_below(self) -> S
        ensures { result ≡ self.below }
    {
        let ReadCache { below, copy: _ } = self;
        below
    }

    // Fills `out` from below, and keeps the form.
    fn reread(&mut self, number: u8, out: &mut [u8]) -> Result<usize, LoadFault>
        ensures answer { let form = (S.FormStore.forms self.old.below).at number in
            result ≡ loaded_of form (length out.old) }
        ensures buffer { let form = (S.FormStore.forms self.old.below).at number in
            out.new ≡ filled_with form out.old }
        ensures same { S.FormStore.forms self.new.below ≡ S.FormStore.forms self.old.below }
        ensures copied { let of_number = MatchOption self.new.copy ⊥ (λ c. c.number ≡ number) in
            MatchResult result (λ _. of_number) (λ _. ⊤) }
    {
        let mut bytes = [0; LONGEST_FORM];
        let len = self.below.read(number, &mut bytes)?;
        let form = FixedVec::of_front(bytes, len);
        self.copy = Some(Copied { number, form });
        fill(Some(form.as_slice()), out)
    }
}

impl<S: FormStore> FormStore for ReadCache<S> {
    ghost forms = { λ c. S.FormStore.forms c.below };

    ghost lawful = { Prim.search rules };

    fn size(&self, number: u8) -> Option<usize> {
        self.below.size(number)
    }

    // The form that was read is the one that is kept.
    fn read(&mut self, number: u8, out: &mut [u8]) -> Result<usize, LoadFault>
        ensures answer { let form = (S.FormStore.forms self.old.below).at number in
            result ≡ loaded_of form (length out.old) }
        ensures buffer { let form = (S.FormStore.forms self.old.below).at number in
            out.new ≡ filled_with form out.old }
        ensures same { S.FormStore.forms self.new.below ≡ S.FormStore.forms self.old.below }
        ensures copied { let of_number = MatchOption self.new.copy ⊥ (λ c. c.number ≡ number) in
            MatchResult result (λ _. of_number) (λ _. ⊤) }
    {
        match &self.copy {
            Some(copy) if copy.number == number => fill(Some(copy.form.as_slice()), out),
            _ => self.reread(number, out),
        }
    }

    fn longest(&self) -> usize {
        self.below.longest()
    }

    fn put(&mut self, number: u8, form: &[u8]) -> Result<(), StoreFault> {
        self.copy = None; // it may be of the form that is replaced
        self.below.put(number, form)
    }

    fn empty(&mut self) {
        self.copy = None; // the copied form goes too
        self.below.empty();
    }
}
