// Tests of the picture: each drawing by its dots, the cut, the order of drawings and the buffer.
#![tactic(auto)]

#[cfg(test)]
mod tests;
