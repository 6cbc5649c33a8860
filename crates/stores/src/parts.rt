// What every kind of store does alike: telling the numbers that a form can have, and filling a buffer's front.
ghost use Rattle.std.specs.Prelude.{◌≡◌, ◌-◌, ◌≤◌, cond, false, length, option_copied, MatchOption, MatchResult, nat_le};
ghost use Rattle.limits.specs.Limits.{last_form};
ghost use Rattle.stores.specs.Forms.{numbered, loaded_of, filled_with};
ghost use Rattle.stores.specs.declared.answers.StoreFault.TheVariants.{TooLong};

use crate::answers::{LoadFault, StoreFault};
use limits::sizes::LAST_FORM;

// How many numbers there are.
pub const NUMBERS: usize = LAST_FORM as usize;

// A number that a form can have.
#[derive(Clone, Copy)]
pub struct Number {
    value: u8,
    ghost from: { 1 ≤ value },
    ghost to: { value ≤ last_form },
}

impl Number {
    // None for a number that no form has.
    pub fn new(number: u8) -> Option<Number>
        ensures { MatchOption result (numbered number ≡ false) (λ n. n.value ≡ number) }
    {
        if (1..=LAST_FORM).contains(&number) {
            Some(Number { value: number })
        } else {
            None
        }
    }

    // The number for a form of `len` bytes to be put under. Under a number that no form has, every form is too long.
    pub fn to_put(number: u8, len: usize, longest: usize) -> Result<Number, StoreFault>
        ensures { let fits = cond (numbered number) (nat_le len longest) false in
            MatchResult result
            (λ n. (n.value ≡ number) × (len ≤ longest))
            (λ e. (fits ≡ false) × (e ≡ TooLong)) }
    {
        match Number::new(number) {
            Some(number) if len <= longest => Ok(number),
            _ => Err(StoreFault::TooLong),
        }
    }

    // Where its form stands among all, counted from 0.
    pub fn place(self) -> usize
        ensures { result ≡ self.value - 1 }
    {
        usize::from(self.value) - 1
    }
}

// Fills the front of `out` with a form that is there and fits, and else leaves all of `out`.
pub fn fill(form: Option<&[u8]>, out: &mut [u8]) -> Result<usize, LoadFault>
    ensures answer { result ≡ loaded_of (option_copied form.entry) (length out.old) }
    ensures buffer { out.new ≡ filled_with (option_copied form.entry) out.old }
{
    let form = form.ok_or(LoadFault::NoForm)?;
    let len = form.len();
    if len > out.len() {
        return Err(LoadFault::NoRoom);
    }
    out[..len].copy_from_slice(form);
    Ok(len)
}
