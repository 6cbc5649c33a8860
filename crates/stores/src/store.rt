// The interface of every form store. Its meaning is `forms`.
ghost use Rattle.std.specs.Prelude.{◌≡◌, ℕ, length};
ghost use Rattle.stores.specs.Forms.{Forms, Lawful, length_of, loaded_of, filled_with, put_answer, after_put, emptied};

use crate::answers::{LoadFault, StoreFault};

/// A form store keeps a form of at most 1,024 bytes, or nothing, under each number from 1 to 20. Nothing is asked of a
/// caller: any number and length is answered.
pub trait FormStore {
    ghost forms: { Self → Forms };

    /// The bytes of a form, or None where there is none.
    fn size(&self, number: u8) -> Option<usize>
        ensures { result ≡ length_of ((forms self.now).at number) };

    /// Fills the front of `out` with a form that fits, and else leaves all of `out`. The answer is the form's length.
    fn read(&mut self, number: u8, out: &mut [u8]) -> Result<usize, LoadFault>
        ensures answer { result ≡ loaded_of ((forms self.old).at number) (length out.old) }
        ensures buffer { out.new ≡ filled_with ((forms self.old).at number) out.old }
        ensures same { forms self.new ≡ forms self.old };

    /// The longest form that is taken, in bytes.
    fn longest(&self) -> usize
        ensures { result ≡ (forms self.now).longest };

    /// Puts a form under a number, in place of the one that is there. A refusal changes nothing.
    fn put(&mut self, number: u8, form: &[u8]) -> Result<(), StoreFault>
        ensures answer { result ≡ put_answer (forms self.old) number (length form.now) }
        ensures after { forms self.new ≡ after_put result (forms self.old) number form.now };

    /// Takes every form out.
    fn empty(&mut self)
        ensures { forms self.new ≡ emptied (forms self.old) };

    ghost lawful: { (s : Self) → Lawful (forms s) };
}
