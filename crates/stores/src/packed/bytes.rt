// How a packed form is put between others.
ghost use Rattle.std.specs.Prelude.{◌≡◌, ◌+◌, ◌-◌, ◌≤◌, length};
ghost use Rattle.stores.specs.Packed.{spliced};

use crate::packed::lens::Extent;

// Puts a form in place of the bytes from `start` to `end`. The bytes from there to `all` move with its end.
pub fn splice(bytes: &mut [u8], at: Extent, form: &[u8])
    requires all { at.all ≤ length bytes.old }
    requires room { at.start + length form.now + (at.all - at.end) ≤ length bytes.old }
    ensures { bytes.new ≡ spliced bytes.old at.start at.end at.all form.now }
{
    let to = at.start + form.len();
    bytes.copy_within(at.end..at.all, to);
    bytes[at.start..to].copy_from_slice(form);
}
