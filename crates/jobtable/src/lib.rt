// The table of commands as a program can read it: what stands in a body, part by part, with the names of the parts.
#![tactic(auto)]

pub mod item;
pub mod rows;
