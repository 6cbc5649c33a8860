// Printers: what a printer means, a roll of tags, and a strip that lines are written into.
#![tactic(auto)]

pub mod fault;
pub mod printer;
pub mod roll;
pub mod strip;
pub mod tally;
