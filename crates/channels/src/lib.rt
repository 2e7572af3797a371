// What plans and pools share, over arithmetic's contracts: the list of channels that a model is opened with, keys and where they are found, and the values in
// which a channel's detuning is sent.
#![tactic(auto)]

pub mod channel;
pub mod keys;
pub mod list;
pub mod tuning_value;

// What the crates above need of arithmetic, passed on.
pub use arithmetic::note::Note;
pub use arithmetic::pitch::{Pitch, Ratio};
pub use arithmetic::refusal::Refusal;
