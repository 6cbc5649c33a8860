// Works through a job on a station: one command after another, and every tag that is owed before the next.
#![tactic(auto)]

pub mod listener;
pub mod stage;
pub mod staging;
pub mod working;
