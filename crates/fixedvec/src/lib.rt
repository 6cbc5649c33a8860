// A vector of at most N items that lie in the value itself: it allocates nothing and, other than the library's of
// that kind, is copied as a whole.
#![tactic(auto)]

ghost use Rattle.std.specs.Prelude.{◌≡◌, ◌<◌, ◌≤◌, ⊤, [], ◌∷◌, length, take, ◌==◌, MatchResult};

use std::alloc::AllocError;

/// No room is left.
#[derive(Clone, Copy, PartialEq, Eq, Debug)]
pub struct Full;

/// At most N items. Cells behind the first `len` mean nothing.
pub struct FixedVec<T: Copy, const N: usize> {
    cells: [T; N],
    len: usize,
    ghost sized: { length cells ≡ N },
    ghost within: { len ≤ N },
}

// Kept so: a struct with ghost fields over a type parameter derives neither.
impl<T: Copy, const N: usize> Clone for FixedVec<T, N> {
    ghost is_clone = { λ x y. y ≡ x };

    ghost is_infallible = { λ _. ⊤ };

    fn clone(&self) -> Result<FixedVec<T, N>, AllocError> {
        Ok(*self)
    }
}

impl<T: Copy, const N: usize> Copy for FixedVec<T, N> {}

impl<T: Copy, const N: usize> FixedVec<T, N> {
    ghost use Rattle.fixedvec.specs.Items.{items};
    ghost use Rattle.fixedvec.specs.Growing.{Grown, Replaced};

    /// No items. The cells hold `blank` until an item comes.
    pub fn new(blank: T) -> FixedVec<T, N>
        ensures { items result ≡ [] }
    {
        FixedVec {
            cells: [blank; N],
            len: 0,
        }
    }

    pub fn len(&self) -> usize
        ensures count { result ≡ length (items self.now) }
        ensures within { result ≤ N }
    {
        self.as_slice().len()
    }

    pub fn is_empty(&self) -> bool
        ensures { result ≡ (length (items self.now) == 0) }
    {
        self.as_slice().is_empty()
    }

    pub fn as_slice(&self) -> &[T]
        ensures items { result.now ≡ items self.now }
        ensures within { length result.now ≤ N }
    {
        &self.cells[..self.len]
    }

    /// One item more, behind the others. Without room nothing changes.
    pub fn push(&mut self, item: T) -> Result<(), Full>
        ensures { Grown N (items self.old) (item ∷ []) result (items self.new) }
    {
        if self.len == N {
            return Err(Full);
        }
        self.cells[self.len] = item;
        self.len += 1;
        Ok(())
    }

    /// Items more, behind the others: all of them or, without room, none.
    pub fn extend(&mut self, more: &[T]) -> Result<(), Full>
        ensures { Grown N (items self.old) more.now result (items self.new) }
    {
        if more.len() > N - self.len {
            return Err(Full);
        }
        let to = self.len + more.len();
        let cells = &mut self.cells[..];
        cells[self.len..to].copy_from_slice(more);
        self.len = to;
        Ok(())
    }

    /// Other items in place of those that are held: all of them or, without room, none.
    pub fn set(&mut self, others: &[T]) -> Result<(), Full>
        ensures { Replaced N (items self.old) others.now result (items self.new) }
    {
        if others.len() > N {
            return Err(Full);
        }
        self.len = 0;
        self.extend(others)
    }

    /// The items of a slice; none where it has more than there is room for.
    pub fn from_slice(blank: T, slice: &[T]) -> Result<FixedVec<T, N>, Full>
        ensures { let count = length slice.now in
            MatchResult result (λ v. (items v ≡ slice.now) × (count ≤ N)) (λ _. N < count) }
    {
        let mut all = FixedVec::new(blank);
        all.extend(slice)?;
        Ok(all)
    }

    /// The first `len` items of an array, at most all.
    pub fn of_front(cells: [T; N], len: usize) -> FixedVec<T, N>
        ensures { items result ≡ take len cells }
    {
        FixedVec {
            cells,
            len: len.min(N),
        }
    }

    /// An array that begins with the items, so that they can be written over; what stands behind them means nothing.
    // Kept so: a slice lent for writing would need a clause on what it leaves, which gets no proof beside ghost fields,
    // and a closure would be a requires of a public call. So the array is taken, and given back by of_front.
    pub fn to_array(self) -> [T; N]
        ensures { take (length (items self)) result ≡ items self }
    {
        let FixedVec { cells, len: _ } = self;
        cells
    }
}
