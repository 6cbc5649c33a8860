// Texts, and what commas part: link strings, and the numbers of link strings.
ghost use Rattle.std.specs.Prelude.{◌≡◌, map};
ghost use Rattle.texts.specs.Contents.{contents};
ghost use Rattle.fields.specs.Records.{seen_links};
ghost use Rattle.jobvalues.specs.Meaning.{text_of, links_of, strings_of};

use crate::numbers::two_digit_number;
use fields::links::Links;
use texts::text::Text;

/// Bytes that are no text are the empty text.
pub fn text_of(bytes: &[u8]) -> Text
    ensures { contents result ≡ text_of bytes.now }
{
    Text::from_bytes(bytes).unwrap_or_else(|_| Text::empty())
}

/// The links of a field, in their order; a number that no link string has is left out.
pub fn links_of(bytes: &[u8]) -> Links
    ensures { seen_links result ≡ links_of bytes.now }
{
    let mut links = Links::none();
    for number in bytes.split(|b| *b == b',').take(4) {
        let _ = links.push(two_digit_number(number));
    }
    links
}

/// The eight link strings; one that was not sent is empty.
// Kept so: over iter_mut().zip(..) the loop can not name what was written. Inlined, other commands would make room
// for the strings too.
#[inline(never)]
pub fn strings_of(bytes: &[u8]) -> [Text; 8]
    ensures { map contents result ≡ strings_of bytes.now }
{
    let mut strings = [Text::empty(); 8];
    for (k, string) in bytes.split(|b| *b == b',').take(8).enumerate() {
        strings[k] = text_of(string);
    }
    strings
}
