// The slot store: room for a form of its own under each number.
ghost use Rattle.std.specs.Prelude.{◌≡◌, ◌+◌, ◌≤◌, length, option_copied};
ghost use Rattle.limits.specs.Limits.{last_form};
ghost use Rattle.stores.specs.Forms.{vacant};
ghost use Rattle.stores.specs.Slots.{slot_forms, slot_longest, slot_total};
ghost use Rattle.stores.specs.SlotLaws.{slots_lawful};

use crate::answers::{LoadFault, StoreFault};
use crate::parts::{NUMBERS, Number, fill};
use crate::store::FormStore;
use fixedvec::FixedVec;

const SLOT_BYTES: usize = 512;

/// Twenty slots of 512 bytes: as large as their total, so no put finds it full.
#[derive(Clone, Copy)]
pub struct SlotStore {
    slots: [Option<FixedVec<u8, SLOT_BYTES>>; NUMBERS],
    ghost all: { length slots ≡ last_form },
}

impl SlotStore {
    /// A store with no form.
    #[tactic(auto, using(crate::specs::SlotLaws::slots_vacant))]
    pub fn new() -> SlotStore
        ensures { slot_forms result.slots ≡ vacant slot_longest slot_total }
    {
        SlotStore {
            slots: [None; NUMBERS],
        }
    }

    // The form under a number.
    #[tactic(auto, using(crate::specs::SlotLaws::slots_at))]
    fn form(&self, number: u8) -> Option<&[u8]>
        ensures { option_copied result ≡ (slot_forms self.now.slots).at number }
    {
        let place = Number::new(number)?.place();
        self.slots[place].as_ref().map(|form| form.as_slice())
    }
}

impl FormStore for SlotStore {
    ghost forms = { λ s. slot_forms s.slots };

    ghost lawful = { λ s. slots_lawful s.slots s.all };

    fn size(&self, number: u8) -> Option<usize> {
        self.form(number).map(|form| form.len())
    }

    fn read(&mut self, number: u8, out: &mut [u8]) -> Result<usize, LoadFault> {
        fill(self.form(number), out)
    }

    fn longest(&self) -> usize {
        SLOT_BYTES
    }

    #[tactic(auto, using(crate::specs::SlotLaws::slots_room, crate::specs::SlotLaws::slots_stored))]
    fn put(&mut self, number: u8, form: &[u8]) -> Result<(), StoreFault> {
        let Some(number) = Number::new(number) else {
            return Err(StoreFault::TooLong);
        };
        let Ok(form) = FixedVec::from_slice(0, form) else {
            return Err(StoreFault::TooLong);
        };
        self.slots[number.place()] = Some(form);
        Ok(())
    }

    fn empty(&mut self) {
        *self = SlotStore::new();
    }
}
