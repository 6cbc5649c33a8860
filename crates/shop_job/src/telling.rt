// A refusal as it is written: R, number, layer, form and place in 2, 1, 2 and 6 characters, parted by commas.
ghost use Rattle.std.specs.Prelude.{◌≡◌};
ghost use Rattle.shop_job.specs.Refusals.{refusal_line};

use faults::Fault;
use tagline::digits::digits;

/// The line of a refusal.
pub fn refusal_line(fault: &Fault) -> [u8; 17]
    ensures { result ≡ refusal_line fault.now }
{
    let [n1, n0] = digits::<2>(usize::from(fault.refusal.number()));
    let [f1, f0] = digits::<2>(usize::from(fault.form));
    let [p5, p4, p3, p2, p1, p0] = digits::<6>(fault.place);
    let layer = fault.refusal.layer().letter();
    [
        b'R', b',', n1, n0, b',', layer, b',', f1, f0, b',', p5, p4, p3, p2, p1, p0, b'\n',
    ]
}
