// What the parts of a command mean to the layers above: numbers, steps, zero suppression, checks, texts, links and
// link strings.
#![tactic(auto)]

pub mod checks;
pub mod lists;
pub mod numbers;
