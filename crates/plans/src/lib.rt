// Plans: every key gets a channel and a note before anyone plays (SPEC 6).
#![tactic(auto)]

pub mod aot;
pub mod lists;
mod placing;
mod sorted_keys;
