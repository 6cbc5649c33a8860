// The tag ledger of a station, and the law that it accounts for every tag of every run.
#![tactic(auto)]

pub mod log;
pub mod odd;
pub mod performing;
pub mod running;
