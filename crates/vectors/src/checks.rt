// Check characters as they are published.
use std::io;
use texts::checks::Check;
use texts::text::Text;

// GS1: keys of 8, 12, 13, 14 and 18 digits, without and then with their check digit.
const GS1: [(&str, u8); 9] = [
    ("9638507", b'4'),
    ("7351353", b'7'),
    ("61414199999", b'6'),
    ("03600029145", b'2'),
    ("629104150021", b'3'),
    ("400638133393", b'1'),
    ("590123412345", b'7'),
    ("1061414154321", b'9'),
    ("37610425002123456", b'9'),
];

// Code 39 texts with their modulus 43 character.
const CODE_39: [(&str, u8); 5] = [
    ("CODE39", b'W'),
    ("12345ABCDE/", b'T'),
    ("HELLO WORLD", b'.'),
    ("WIKIPEDIA", b'$'),
    ("-12345", b'8'),
];

fn told(check: Check, text: &str) -> Option<u8> {
    let text = Text::from_bytes(text.as_bytes()).ok()?;
    check.character(&text)
}

fn run_table(rt: &HostRuntime, name: &str, check: Check, table: &[(&str, u8)]) -> io::Result<()> {
    for (text, wanted) in table {
        let got = told(check, text);
        let verdict = if got == Some(*wanted) {
            "right"
        } else {
            "WRONG"
        };
        let shown = got.map_or('?', char::from);
        println!(rt; "{name} {text}: {shown} {verdict}")?;
    }
    Ok(())
}

pub(crate) fn run_all(rt: &HostRuntime) -> io::Result<()> {
    run_table(rt, "modulus 10", Check::Modulus10, &GS1)?;
    run_table(rt, "modulus 43", Check::Modulus43, &CODE_39)
}
