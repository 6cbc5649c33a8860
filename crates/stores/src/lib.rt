// Form stores: what a store means, the kinds of stores, and the layers over any store.
#![tactic(auto)]

pub mod answers;
pub mod cache;
pub mod packed;
mod parts;
pub mod quota;
pub mod refusals;
pub mod slots;
pub mod store;
