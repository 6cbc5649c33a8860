// The packed store: forms one behind the other in 8,192 bytes, in the order of their numbers.
ghost use Rattle.std.specs.Prelude.{◌≡◌, ◌+◌, ◌≤◌, length, option_copied};
ghost use Rattle.stores.specs.Forms.{others, stored, vacant};
ghost use Rattle.stores.specs.Packed.{packed_longest, packed_total};
ghost use Rattle.stores.specs.PackedForms.{packed_store_lawful};

use crate::answers::{LoadFault, StoreFault};
use crate::packed::bytes::splice;
use crate::packed::lens::Lens;
use crate::parts::{Number, fill};
use crate::store::FormStore;

mod bytes;
mod lens;

const LONGEST: usize = 1024;

const TOTAL: usize = 8192;

/// Forms of up to 1,024 bytes, of which short ones leave their room to others. Bytes behind the last form mean nothing.
// Kept so: a store of fixed memory keeps its forms packed in an array.
#[derive(Clone, Copy)]
pub struct PackedStore {
    lens: Lens,
    bytes: [u8; TOTAL],
    ghost sized: { length bytes ≡ packed_total },
}

impl PackedStore {
    ghost use Rattle.stores.specs.PackedStores.{packed_of};

    /// A store with no form.
    pub fn new() -> PackedStore
        ensures { packed_of result ≡ vacant packed_longest packed_total }
    {
        PackedStore {
            lens: Lens::none(),
            bytes: [0; TOTAL],
        }
    }

    // The form under a number.
    #[tactic(auto, using(crate::specs::PackedForms::packed_under))]
    fn form(&self, number: u8) -> Option<&[u8]>
        ensures { option_copied result ≡ (packed_of self.now).at number }
    {
        let number = Number::new(number)?;
        self.lens.len(number)?;
        let at = self.lens.extent(number);
        Some(&self.bytes[at.start..at.end])
    }

    // The bytes of all forms but one.
    #[tactic(auto, using(crate::specs::PackedForms::packed_rest))]
    fn others(&self, number: Number) -> usize
        ensures is { result ≡ others (packed_of self.now) number.value }
        ensures within { result ≤ packed_total }
    {
        let at = self.lens.extent(number);
        at.all - (at.end - at.start)
    }

    // Puts a form in its place among the others, which move where its length asks for it.
    #[tactic(auto, using(crate::specs::PackedForms::packed_rest, crate::specs::PackedForms::packed_stored))]
    fn replace(&mut self, number: Number, form: &[u8])
        requires short { length form.now ≤ packed_longest }
        requires room { others (packed_of self.old) number.value + length form.now ≤ packed_total }
        ensures { packed_of self.new ≡ stored (packed_of self.old) number.value form.now }
    {
        let at = self.lens.extent(number);
        splice(&mut self.bytes, at, form);
        self.lens.set(number, form.len());
    }
}

impl FormStore for PackedStore {
    ghost use Rattle.stores.specs.PackedStores.{packed_of};

    ghost forms = { packed_of };

    ghost lawful = { λ s.
        packed_store_lawful s.lens.entries s.bytes s.lens.all s.sized s.lens.within s.lens.short };

    fn size(&self, number: u8) -> Option<usize> {
        self.form(number).map(|form| form.len())
    }

    fn read(&mut self, number: u8, out: &mut [u8]) -> Result<usize, LoadFault> {
        fill(self.form(number), out)
    }

    fn longest(&self) -> usize {
        LONGEST
    }

    fn put(&mut self, number: u8, form: &[u8]) -> Result<(), StoreFault> {
        let number = Number::to_put(number, form.len(), LONGEST)?;
        if self.others(number) + form.len() > TOTAL {
            return Err(StoreFault::Full);
        }
        self.replace(number, form);
        Ok(())
    }

    fn empty(&mut self) {
        self.lens = Lens::none();
    }
}
