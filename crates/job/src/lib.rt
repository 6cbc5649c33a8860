// Reads the commands of a job.
#![tactic(auto)]

pub mod commands;
pub mod dispatch;
pub mod fault;
pub mod read;
