// A label: its sizes, fields and drawings, and what commands do to them.
#![tactic(auto)]

mod action;
mod drawings;
pub mod fault;
mod formats;
pub mod label;
mod shapes;
