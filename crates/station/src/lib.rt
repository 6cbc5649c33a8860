// A label station: one label, a form store, a printer and two counting rules.
#![tactic(auto)]

mod answering;
mod blame;
pub mod calls;
pub mod machine;
mod mode;
mod recall;
pub mod sizes;
pub mod state;
mod status;
mod steps;
