// The check characters of fields.
ghost use Rattle.std.specs.Prelude.{◌≡◌};
ghost use Rattle.jobparts.specs.Parts.{seen_option};
ghost use Rattle.jobvalues.specs.Meaning.{text_check_of, bar_check_of};

use jobparts::part::Part;
use texts::checks::Check;

/// The check of a text field, by the figure behind M.
pub fn text_check<'a>(check: Option<Part<'a>>) -> Check
    ensures { result ≡ text_check_of (seen_option check.entry) }
{
    match check.map(|part| part.number()) {
        None => Check::NoCheck,
        Some(0) => Check::Modulus10,
        Some(_) => Check::Modulus43,
    }
}

/// The check of a bar field.
pub fn bar_check<'a>(check: Part<'a>) -> Check
    ensures { result ≡ bar_check_of check.entry.bytes.now }
{
    match check.number() {
        3 => Check::Modulus43,
        _ => Check::NoCheck,
    }
}
