// What the bytes of a part mean.
ghost use Rattle.std.specs.Prelude.{◌≡◌};
ghost use Rattle.jobparts.specs.Values.{number_of};

use crate::bytes::first;

/// The number that digits write; a numeric part has ten at most.
// Kept so: a fold has to add so that it can not fail, and would hide that ten digits always fit.
#[tactic(auto, unfolding(crate::specs::Values::number_of))]
pub fn number_of(bytes: &[u8]) -> u64
    ensures { result ≡ number_of bytes.now }
{
    let digits = first(bytes, 10);
    let mut n = 0;
    for b in digits {
        n = n * 10 + u64::from(b.saturating_sub(b'0'));
    }
    n
}
