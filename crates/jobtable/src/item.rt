// What can stand in a body.
use jobparts::part::ByteKind;

// A rule that bytes of the right kind have to meet.
#[derive(Clone, Copy)]
pub enum Rule {
    // a length of a label, which its pitch is not below
    Length,
    // a check that the type of the bar has
    BarCheck,
    // the Y of an end, which makes no slanted line
    LineEnd,
    // 00, 11, 22 or 33
    Rotation,
    // 3 or 9
    BarType,
    // one of two letters
    Letters(u8, u8),
}

// Bytes that stand in a body, one item behind the other.
#[derive(Clone, Copy)]
pub enum Item {
    // a byte that is always the same
    Byte(u8),
    // so many bytes of a kind
    Part(ByteKind, usize),
    // so many digits, whose number lies between two limits
    Number(usize, u64, u64),
    // so many bytes of a kind that meet a rule
    Chosen(ByteKind, usize, Rule),
    // an option: a comma, a letter and so many digits up to a highest number; whether no option can follow it
    Lettered(u8, usize, u64, bool),
    // an option: a comma, a sign and so many digits; whether no option can follow it
    Signed(usize, bool),
    // a text to the body's end
    Text,
    // at most so many link strings to the body's end
    Strings(usize),
    // nothing, `=` and a text, or `;` and at most so many numbers of link strings
    Source(usize),
}

// An item with the name of its part; of a byte, what the byte stands for.
#[derive(Clone, Copy)]
pub struct Named(pub &'static str, pub Item);
