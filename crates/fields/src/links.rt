// The links of a field: up to four numbers of link strings, in the order in which the strings are joined.
ghost use Rattle.std.specs.Prelude.{◌≡◌, [], length, map, IfSome, IfNone};
ghost use Rattle.fixedvec.specs.Items.{items};
ghost use Rattle.fields.specs.Counts.{LinksBelow};
ghost use Rattle.texts.specs.Contents.{contents};
ghost use Rattle.fields.specs.Joining.{string_of};

use fixedvec::FixedVec;
use limits::sizes::{LAST_LINK, LONGEST_TEXT, MOST_LINKS};
use texts::checks::Check;
use texts::text::Text;

#[derive(Clone, Copy)]
pub struct Links {
    numbers: FixedVec<u8, MOST_LINKS>,
    ghost admitted: { LinksBelow (items numbers) (length (items numbers)) },
}

/// Why a link is not taken.
#[derive(Clone, Copy, PartialEq, Eq, Debug)]
pub enum LinkFault {
    /// No link string has the number.
    NoString,
    /// A field has no more than four.
    Fifth,
}

// The string of a number, counted from 1; none was sent where there is none.
fn string(strings: &[Text], number: u8) -> Option<&Text>
    ensures sent { let named = string_of (map contents strings.now) number in
        IfSome result (λ t. contents t.now ≡ named) }
    ensures unsent { IfNone result (string_of (map contents strings.now) number ≡ []) }
{
    strings.get(usize::from(number).saturating_sub(1))
}

impl Links {
    ghost use Rattle.std.specs.Prelude.{◌∷◌, ◌++◌, false, true, if◌then◌else◌, ◌==◌, is_ok, nat_lt, Err};
    ghost use Rattle.limits.specs.Limits.{longest_text};
    ghost use Rattle.texts.specs.Checks.{admits_all};
    ghost use Rattle.texts.specs.Joining.{Fits};
    ghost use Rattle.fields.specs.Counts.{is_link};
    ghost use Rattle.fields.specs.Records.{seen_links, link_taken};
    ghost use Rattle.fields.specs.Joining.{joined_text};

    /// A field without links is not linked.
    pub fn none() -> Links
        ensures { seen_links result ≡ [] }
    {
        Links {
            numbers: FixedVec::new(0),
        }
    }

    /// One link more, behind the others: a fifth is not taken, nor a number that no string has.
    pub fn push(&mut self, number: u8) -> Result<(), LinkFault>
        ensures taken { is_ok result ≡ link_taken (seen_links self.old) number }
        ensures after { let old = seen_links self.old in
            seen_links self.new ≡ (if link_taken old number then old ++ number ∷ [] else old) }
        ensures no_string { is_link number ≡ false → result ≡ Err LinkFault.NoString }
        ensures fifth { is_link number ≡ true
            → link_taken (seen_links self.old) number ≡ false → result ≡ Err LinkFault.Fifth }
    {
        if !matches!(number, 1..=LAST_LINK) {
            return Err(LinkFault::NoString);
        }
        self.numbers.push(number).map_err(|_| LinkFault::Fifth)
    }

    pub(crate) fn is_empty(&self) -> bool
        ensures { result ≡ (length (seen_links self.now) == 0) }
    {
        self.numbers.is_empty()
    }

    // The strings that the links name are too long for a text, when they are joined.
    pub(crate) fn joins_too_long(&self, strings: &[Text]) -> bool
        ensures { let joined = joined_text (map contents strings.now) (seen_links self.now) in
            result ≡ nat_lt longest_text (length joined) }
    {
        let mut long = 0;
        for n in self.numbers.as_slice() {
            if let Some(text) = string(strings, *n) {
                long += text.as_bytes().len();
            }
        }
        long > LONGEST_TEXT
    }

    // The strings that the links name have only characters of a check's set.
    pub(crate) fn are_admitted(&self, strings: &[Text], check: Check) -> bool
        ensures { let joined = joined_text (map contents strings.now) (seen_links self.now) in
            result ≡ admits_all check joined }
    {
        for n in self.numbers.as_slice() {
            if let Some(text) = string(strings, *n) {
                if !check.admits(text.as_bytes()) {
                    return false;
                }
            }
        }
        true
    }

    // The strings that the links name, joined in their order; none where that is too long for a text.
    pub(crate) fn joined(&self, strings: &[Text]) -> Option<Text>
        ensures { Fits (joined_text (map contents strings.now) (seen_links self.now)) result }
    {
        let mut text = Text::empty();
        for n in self.numbers.as_slice() {
            if let Some(more) = string(strings, *n) {
                text = text.joined(more)?;
            }
        }
        Some(text)
    }
}
