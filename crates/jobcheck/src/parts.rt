// Where the parts of a body stand, by the table of commands.
use jobgroups::letters::Letters;
use jobparts::cursor::Cursor;
use jobparts::part::{List, Wrong};
use jobtable::item::{Item, Named};
use jobtable::rows::item;

// The items of a command that can stand at a place: from `first` up to `behind`. A number behind the last item
// stands for the end of the command.
#[derive(Clone, Copy)]
pub(crate) struct Choices {
    pub(crate) first: usize,
    pub(crate) behind: usize,
}

// A part as it stands in a body.
#[derive(Clone, Copy)]
pub(crate) struct Standing<'a> {
    pub(crate) named: Named,
    pub(crate) place: usize,
    pub(crate) bytes: &'a [u8],
}

// A place in a body, and the number of the item that is next there.
#[derive(Clone, Copy)]
pub(crate) struct Walk<'a> {
    letters: Letters,
    cursor: Cursor<'a>,
    next: usize,
}

// Takes an item as the reader does, but for a rule, which a part of the right kind may break.
fn take(cursor: &mut Cursor<'_>, item: Item) -> Result<(), Wrong> {
    match item {
        Item::Byte(b) => cursor.byte(b)?,
        Item::Part(kind, count) | Item::Chosen(kind, count, _) => {
            cursor.part(kind, count)?;
        }
        Item::Number(digits, low, high) => {
            cursor.number(digits, low, high)?;
        }
        Item::Lettered(letter, digits, high, last) => {
            cursor.lettered(letter, digits, high, last)?;
        }
        Item::Signed(digits, last) => {
            cursor.signed(digits, last)?;
        }
        Item::Text => {
            cursor.text()?;
        }
        Item::Strings(most) => {
            cursor.list_part(List::Strings, most.saturating_sub(1))?;
        }
        Item::Source(_) => {
            cursor.source()?;
        }
    }
    Ok(())
}

impl<'a> Walk<'a> {
    pub(crate) fn new(letters: Letters, body: &'a [u8]) -> Walk<'a> {
        Walk {
            letters,
            cursor: Cursor {
                body,
                at: letters.bytes().len(),
            },
            next: 0,
        }
    }

    // Takes the next item, which may be an option that is left out. Nothing where it does not fit, and behind the last.
    pub(crate) fn step(&mut self) -> Option<Standing<'a>> {
        let named = item(self.letters, self.next)?;
        let place = self.cursor.at;
        let mut cursor = self.cursor;
        take(&mut cursor, named.1).ok()?;
        self.cursor = cursor;
        self.next = self.next.saturating_add(1);
        Some(Standing {
            named,
            place,
            bytes: cursor.body.get(place..cursor.at).unwrap_or(&[]),
        })
    }
}

// The items that can stand at a place, at which a body is refused.
pub(crate) fn choices_at(letters: Letters, body: &[u8], place: usize) -> Choices {
    let mut walk = Walk::new(letters, body);
    let mut first = 0;
    // (no command has as many items)
    for _ in 0..64 {
        let Some(standing) = walk.step() else {
            break;
        };
        if !standing.bytes.is_empty() {
            if walk.cursor.at > place {
                return Choices {
                    first: walk.next.saturating_sub(1),
                    behind: walk.next,
                };
            }
            first = walk.next;
        }
    }
    // an option that has begun is the only one
    if place > walk.cursor.at.saturating_add(1) {
        first = walk.next;
    }
    Choices {
        first,
        behind: walk.next.saturating_add(1),
    }
}
