// What the test programs and `examples` print with: the engine's answers in words, and an f64 in decimal.
#![tactic(auto)]

pub mod answers;
pub mod decimal;
