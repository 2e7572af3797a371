// The functions for C, C++, Rust and Python (`include/tarvoued.h`, SPEC 12): tuners and models in blocks of the caller's memory, messages, and values. Each is
// thin: it calls the function in place and gives its answer in numbers. Names begin with `tarvoued_`, since a name is the whole program's.
#![tactic(auto)]

pub mod message;
pub mod plan;
pub mod pool;
pub mod value;
