// Principals: terms that were read, what they are made of, and whose voice they have.
#![tactic(auto)]

pub mod laws;
pub mod term;
