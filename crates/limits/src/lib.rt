// The limits and the kinds of bytes that every layer shares.
#![tactic(auto)]

pub mod bytes;
pub mod sizes;
