// Numbers as a tag writes them.
ghost use Rattle.std.specs.Prelude.{◌≡◌};
ghost use Rattle.tagline.specs.Digits.{digits};

// The numbers of two digits, one behind the other.
const PAIRS: &[u8; 200] =
    b"0001020304050607080910111213141516171819202122232425262728293031323334353637383940414243444546474849\
    5051525354555657585960616263646566676869707172737475767778798081828384858687888990919293949596979899";

/// The last N decimal digits of a number, as characters.
// Kept so: two digits at a time take half the divisions.
pub fn digits<const N: usize>(n: usize) -> [u8; N]
    ensures { result ≡ digits N n }
{
    let mut told = [b'0'; N];
    let mut rest = n;
    let mut place = N;
    while place > 1 {
        let at = 2 * (rest % 100);
        told[place - 1] = PAIRS[at + 1];
        told[place - 2] = PAIRS[at];
        rest /= 100;
        place -= 2;
    }
    if place == 1 {
        told[0] = b'0' + (rest % 10) as u8;
    }
    told
}
