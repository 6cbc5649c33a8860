// The kinds of bytes that texts and commands are made of.
ghost use Rattle.std.specs.Prelude.{◌≡◌};
ghost use Rattle.limits.specs.Bytes.{is_digit, is_capital, in_text};

/// One of 0 to 9.
pub fn is_digit(b: u8) -> bool
    ensures { result ≡ is_digit b }
{
    b.is_ascii_digit()
}

/// One of A to Z.
pub fn is_capital(b: u8) -> bool
    ensures { result ≡ is_capital b }
{
    b.is_ascii_uppercase()
}

/// A byte that a text may hold: 20H to 7EH, but no comma.
pub fn is_in_text(b: u8) -> bool
    ensures { result ≡ in_text b }
{
    matches!(b, 0x20..=0x7e) && b != b','
}
