// A job on a new station of the kind that shops have: a packed form store, a roll, the plain and the Code 128
// counting rule.
#![tactic(auto)]

pub mod counting;
pub mod running;
pub mod telling;
pub mod writing;
