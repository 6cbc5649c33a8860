// Tag texts: what they may hold, how they count, and what is finally printed of them.
#![tactic(auto)]

pub mod checks;
pub mod digits;
pub mod finished;
pub mod rule;
pub mod text;
pub mod turn;
