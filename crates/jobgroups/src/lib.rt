// The table of commands, the parts of each, and the functions that take groups of parts.
#![tactic(auto)]

pub mod checks;
pub mod command;
pub mod groups;
pub mod letters;
