// Reads numbers and terms from bytes, and says what may go wrong there.
#![tactic(auto)]

pub mod cursor;
pub mod kind;
pub mod laws;
pub mod number;
pub mod refusal;
