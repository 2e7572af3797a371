// Whole numbers and f64: notes, pitches, ratios, the measure and the nearest note. Models and senders are crates above.
#![tactic(auto)]

pub mod note;
pub mod pitch;
pub mod refusal;
pub mod tuning;
