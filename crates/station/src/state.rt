// A station: one label, with the store, the printer and the two counting rules that it owns alone.
use crate::mode::Mode;
use label::label::Label;

// What a station is made of: a store, a printer, and the rules by which text and bar fields count.
#[derive(Drop)]
pub struct Parts<S, P, R1, R2> {
    pub store: S,
    pub printer: P,
    pub first: R1,
    pub second: R2,
}

// Kept so: it has no model. What is seen of a station holds functions (forms by number, rules), and the value of a
// model is data; so contracts name it by `seen`, of the meanings of the store, the printer and the rules.
#[derive(Drop)]
pub struct Station<S, P, R1, R2> {
    pub(crate) store: S,
    pub(crate) printer: P,
    pub(crate) first: R1,
    pub(crate) second: R2,
    pub(crate) label: Label,
    pub(crate) mode: Mode,
    // Labels ordered since the station was made.
    pub(crate) ordered: u64,
}
