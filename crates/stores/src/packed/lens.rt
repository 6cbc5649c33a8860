// The lengths of packed forms, and where each form lies by them.
ghost use Rattle.std.specs.Prelude.{◌≡◌, ℕ, ◌+◌, ◌-◌, ◌≤◌, List, length, None, slice_index_or, slice_set, Some};
ghost use Rattle.limits.specs.Limits.{last_form};
ghost use Rattle.stores.specs.Forms.{vacant};
ghost use Rattle.stores.specs.Packed.{before, used, size_at, packed_forms, packed_longest, packed_total};

use crate::parts::{NUMBERS, Number};

// The length of each form, or None where there is none.
#[derive(Clone, Copy)]
pub struct Lens {
    entries: [Option<usize>; NUMBERS],
    ghost all: { length entries ≡ last_form },
    ghost within: { used entries ≤ packed_total },
    ghost short: { (k : ℕ) → size_at entries k ≤ packed_longest },
}

// The part of the bytes that a form has, and the end of all forms.
#[derive(Clone, Copy)]
pub struct Extent {
    pub start: usize,
    pub end: usize,
    pub all: usize,
    ghost ordered: { start ≤ end },
    ghost inside: { end ≤ all },
}

// The bytes of all entries.
#[tactic(auto, using(crate::specs::PackedLaws::used_sum))]
fn total(lens: &[Option<usize>]) -> usize
    requires { used lens.now ≤ packed_total }
    ensures { result ≡ used lens.now }
{
    lens.iter().map(|len| len.unwrap_or(0)).sum()
}

impl Lens {
    // No form at all.
    pub fn none() -> Lens
        ensures { let empty = vacant packed_longest packed_total in
            (b : List ℕ) → packed_forms result.entries b ≡ empty }
    {
        Lens {
            entries: [None; NUMBERS],
        }
    }

    // The length of a form, or None where there is none.
    pub fn len(&self, number: Number) -> Option<usize>
        ensures { result ≡ slice_index_or self.now.entries (number.value - 1) None }
    {
        self.entries[number.place()]
    }

    // Where a form lies.
    #[tactic(auto, using(crate::specs::PackedLaws::before_used, crate::specs::PackedLaws::used_front))]
    pub fn extent(&self, number: Number) -> Extent
        ensures start { result.start ≡ before self.now.entries (number.value - 1) }
        ensures end { result.end ≡ result.start + size_at self.now.entries (number.value - 1) }
        ensures all { result.all ≡ used self.now.entries }
    {
        let place = number.place();
        let start = total(&self.entries[..place]);
        let end = start + self.entries[place].unwrap_or(0);
        let all = total(&self.entries);
        Extent { start, end, all }
    }

    // Notes the length of a form that there is room for.
    pub fn set(&mut self, number: Number, len: usize)
        requires short { len ≤ packed_longest }
        requires room { let old_len = size_at self.old.entries (number.value - 1) in
            used self.old.entries + len ≤ packed_total + old_len }
        ensures { self.new.entries ≡ slice_set self.old.entries (number.value - 1) (Some len) }
    {
        self.entries[number.place()] = Some(len);
    }
}
