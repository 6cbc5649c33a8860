// A place in a body, from which bytes and parts are taken one after another.
ghost use Rattle.std.specs.Prelude.{◌≡◌, ◌-◌, ◌≤◌, take, drop, length, nat_eq, cond, ◌+◌, ◌<◌};
ghost use Rattle.jobparts.specs.Items.{byte_at, part_at, number_at, end_at, text_stop, text_at, stopped_at, string_at, element_at, list_at, list_part_at, left_out, lettered_at, signed_at, source_at};
ghost use Rattle.jobparts.specs.Kinds.{stands};
ghost use Rattle.limits.specs.Limits.{most_links};
ghost use Rattle.jobparts.specs.Parts.{seen_part, given, part_alone, option_alone, source_alone};

use crate::bytes::{first, rest_at, run_of, sign_at, stands_at};
use crate::part::{ByteKind, List, Part, Source, Wrong};
use limits::sizes::{LAST_LINK, LONGEST_TEXT, MOST_LINKS};

/// A field joins at most so many link strings behind its first.
pub const FURTHER_LINKS: usize = MOST_LINKS - 1;

/// Each method takes what stands at the place and moves behind it; after an error the place tells nothing.
#[derive(Clone, Copy)]
pub struct Cursor<'a> {
    pub body: &'a [u8],
    pub at: usize,
}

impl<'a> Cursor<'a> {
    ghost use Rattle.jobparts.specs.Cursors.{got_to, Moves, Takes};

    // Whether a byte stands at the place.
    fn stands(&self, b: u8) -> bool
        ensures { result ≡ stands (nat_eq b) self.now.body.now self.now.at }
    {
        stands_at(self.body, self.at, b)
    }

    // Moves behind a byte, if it stands at the place.
    fn passes(&mut self, b: u8) -> bool
        ensures stood { result ≡ stands (nat_eq b) self.old.body.now self.old.at }
        ensures place { self.new.at ≡ self.old.at + cond result 1 0 }
        ensures body { self.new.body ≡ self.old.body }
    {
        let stands = self.stands(b);
        if stands {
            self.at += 1;
        }
        stands
    }

    // The part from a place to the cursor.
    fn since(&self, from: usize) -> Part<'a>
        ensures { let bytes = take (self.now.at - from) (drop from self.now.body.now) in
            seen_part result ≡ given from bytes }
    {
        Part {
            place: from,
            bytes: first(rest_at(self.body, from), self.at.saturating_sub(from)),
        }
    }

    /// A fixed byte.
    #[tactic(auto, unfolding(crate::specs::Items::byte_at))]
    pub fn byte(&mut self, b: u8) -> Result<(), Wrong>
        ensures { Moves result self.old self.new (byte_at b) }
    {
        if self.passes(b) {
            Ok(())
        } else {
            Err(Wrong::byte(self.at))
        }
    }

    /// The body has ended.
    #[tactic(auto, unfolding(crate::specs::Items::end_at))]
    pub fn end(&self) -> Result<(), Wrong>
        ensures { result ≡ end_at self.now.body.now self.now.at }
    {
        if self.at < self.body.len() {
            Err(Wrong::byte(self.at))
        } else {
            Ok(())
        }
    }

    /// So many bytes of a kind.
    #[tactic(auto, unfolding(crate::specs::Items::part_at))]
    pub fn part(&mut self, kind: ByteKind, count: usize) -> Result<Part<'a>, Wrong>
        ensures { Takes part_alone result self.old self.new (part_at kind count) }
    {
        let place = self.at;
        let rest = rest_at(self.body, place);
        let fits = run_of(rest, kind, count);
        if fits < count {
            return Err(Wrong::byte(place + fits));
        }
        self.at += count;
        Ok(Part {
            place,
            bytes: &rest[0..count],
        })
    }

    /// So many digits, whose number lies between two limits.
    #[tactic(auto, unfolding(crate::specs::Items::number_at, crate::specs::Items::part_at))]
    pub fn number(&mut self, count: usize, low: u64, high: u64) -> Result<Part<'a>, Wrong>
        ensures { Takes part_alone result self.old self.new (number_at count low high) }
    {
        let digits = self.part(ByteKind::Digit, count)?;
        let n = digits.number();
        digits.admitted((low..=high).contains(&n))
    }

    // Moves behind the bytes that a text may hold.
    fn skip_text(&mut self)
        ensures stop { self.new.at ≡ text_stop self.old.body.now self.old.at }
        ensures behind { self.old.at ≤ self.new.at }
        ensures body { self.new.body ≡ self.old.body }
    {
        let rest = rest_at(self.body, self.at);
        self.at += run_of(rest, ByteKind::Text, rest.len());
    }

    /// A text, which runs to the body's end.
    #[tactic(auto, unfolding(crate::specs::Items::text_at))]
    pub fn text(&mut self) -> Result<Part<'a>, Wrong>
        ensures { Takes part_alone result self.old self.new text_at }
    {
        let from = self.at;
        self.skip_text();
        self.end()?;
        self.since(from).admitted(self.at - from <= LONGEST_TEXT)
    }

    // A link string stops at a comma or at the body's end.
    fn string_stops(&self) -> Result<(), Wrong>
        ensures { result ≡ stopped_at self.now.body.now self.now.at }
    {
        if self.stands(b',') {
            Ok(())
        } else {
            self.end()
        }
    }

    // One link string.
    #[tactic(auto, unfolding(crate::specs::Items::string_at))]
    fn string(&mut self) -> Result<Part<'a>, Wrong>
        ensures { Moves result self.old self.new string_at }
    {
        let from = self.at;
        self.skip_text();
        self.string_stops()?;
        self.since(from).admitted(self.at - from <= LONGEST_TEXT)
    }

    // One element of a list.
    // Kept so: a closure in place of the kind of list would be a requires of a public call.
    #[tactic(auto, unfolding(crate::specs::Items::element_at, crate::specs::Items::link_at))]
    fn element(&mut self, list: List) -> Result<Part<'a>, Wrong>
        ensures { Moves result self.old self.new (element_at list) }
    {
        match list {
            List::Strings => self.string(),
            List::Numbers => self.number(2, 1, u64::from(LAST_LINK)),
        }
    }

    // An element and as many as `further` behind it, parted by commas.
    fn elements(&mut self, list: List, further: usize) -> Result<(), Wrong>
        ensures { Moves result self.old self.new (list_at list further) }
    {
        self.element(list)?;
        for _ in 0..further {
            if !self.passes(b',') {
                break;
            }
            self.element(list)?;
        }
        Ok(())
    }

    /// A list to its end, as one part.
    #[tactic(auto, unfolding(crate::specs::Items::list_part_at))]
    pub fn list_part(&mut self, list: List, further: usize) -> Result<Part<'a>, Wrong>
        ensures { Takes part_alone result self.old self.new (list_part_at list further) }
    {
        let from = self.at;
        self.elements(list, further)?;
        Ok(self.since(from))
    }

    // An option that does not follow its comma is left out, unless no other may follow that comma.
    fn left_out(&self, last: bool) -> Result<Option<Part<'a>>, Wrong>
        requires room { self.now.at < length self.now.body.now }
        ensures { let at = self.now.at in
            got_to option_alone result at ≡ left_out last at (at + 1) }
    {
        if last {
            Err(Wrong::byte(self.at + 1))
        } else {
            Ok(None)
        }
    }

    /// A comma, a letter and a number, which alone is the part.
    #[tactic(auto, unfolding(crate::specs::Items::lettered_at))]
    pub fn lettered(
        &mut self,
        letter: u8,
        count: usize,
        high: u64,
        last: bool,
    ) -> Result<Option<Part<'a>>, Wrong>
        ensures { Takes option_alone result self.old self.new (lettered_at letter count high last) }
    {
        if !self.stands(b',') {
            return Ok(None);
        }
        if !stands_at(self.body, self.at + 1, letter) {
            return self.left_out(last);
        }
        self.at += 2;
        Ok(Some(self.number(count, 0, high)?))
    }

    /// A comma and a signed number.
    #[tactic(auto, unfolding(crate::specs::Items::signed_at))]
    pub fn signed(&mut self, count: usize, last: bool) -> Result<Option<Part<'a>>, Wrong>
        ensures { Takes option_alone result self.old self.new (signed_at count last) }
    {
        if !self.stands(b',') {
            return Ok(None);
        }
        let from = self.at + 1;
        if !sign_at(self.body, from) {
            return self.left_out(last);
        }
        self.at += 2;
        self.part(ByteKind::Digit, count)?;
        Ok(Some(self.since(from)))
    }

    /// Nothing, `=` and a text, or `;` and link numbers.
    #[tactic(auto, unfolding(crate::specs::Items::source_at))]
    pub fn source(&mut self) -> Result<Source<'a>, Wrong>
        ensures { Takes source_alone result self.old self.new (source_at (most_links - 1)) }
    {
        if self.passes(b'=') {
            Ok(Source::Text(self.text()?))
        } else if self.passes(b';') {
            Ok(Source::Links(self.list_part(List::Numbers, FURTHER_LINKS)?))
        } else {
            Ok(Source::Nothing)
        }
    }
}
