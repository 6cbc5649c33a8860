// What a station is doing: nothing, saving a form, or owing labels of an issue.
ghost use Rattle.std.specs.Prelude.{◌≤◌};

use fixedvec::FixedVec;
use limits::sizes::LONGEST_FORM;

// The draft of a form that is being saved: whole commands, one behind the other.
#[derive(Clone, Copy)]
pub struct Draft {
    pub(crate) number: u8,
    pub(crate) commands: FixedVec<u8, LONGEST_FORM>,
}

// The labels of an issue: how many are still owed, of how many.
#[derive(Clone, Copy)]
pub struct Issue {
    pub(crate) left: u16,
    pub(crate) size: u16,
    ghost some: { 1 ≤ left },
    ghost within: { left ≤ size },
}

#[derive(Clone, Copy)]
pub enum Mode {
    Idle,
    Saving(Draft),
    Owing(Issue),
}

mod owing;
