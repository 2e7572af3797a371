// The plan tuner: plans whose tunings are sent, written into lent buffers (SPEC 9.3).
#![tactic(auto)]

pub mod aot;
