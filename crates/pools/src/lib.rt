// Pools: channels are handed out while somebody plays (SPEC 7).
#![tactic(auto)]

pub mod jit;
mod pool;
mod queue;
mod settings;
