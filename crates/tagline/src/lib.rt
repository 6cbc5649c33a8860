// The line of a finished tag, as it is handed to the printer.
#![tactic(auto)]

pub mod digits;
pub mod line;
