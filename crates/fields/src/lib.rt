// The fields of a label: their formats, links and texts.
#![tactic(auto)]

pub mod fault;
pub mod field;
pub mod format;
pub mod links;
pub mod table;
