// Tests of the label: what each command does to it, and each of its refusals.
#![tactic(auto)]

#[cfg(test)]
mod tests;
