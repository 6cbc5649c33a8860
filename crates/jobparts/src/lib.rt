// The parts of a command: bytes of the job at a known place, and a cursor that takes one after another.
#![tactic(auto)]

pub mod bytes;
pub mod cursor;
pub mod part;
pub mod values;
