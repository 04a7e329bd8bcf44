// The words of a script's lines: the parts between spaces, and decimal numbers.
#![tactic(auto)]

pub mod laws;
pub mod numbers;
pub mod words;
