// Drives a station by its calls: every refusal, every kind of store, printer and rule, and what each call leaves.
#![tactic(auto)]

#[cfg(test)]
mod buffers;
#[cfg(test)]
mod counting;
#[cfg(test)]
mod forms;
#[cfg(test)]
mod jobs;
#[cfg(test)]
mod kept;
#[cfg(test)]
mod logs;
#[cfg(test)]
mod modes;
#[cfg(test)]
mod parts;
#[cfg(test)]
mod refusals;
pub mod rules;
#[cfg(test)]
mod runs;
#[cfg(test)]
mod script;
#[cfg(test)]
mod stocks;
pub mod veteran;
#[cfg(test)]
mod watched;
