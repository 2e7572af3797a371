// The types of the interface for C, C++, Rust and Python (`include/tarvoued.h`, SPEC 12): answers in numbers, messages, and blocks of the caller's memory. The
// functions are in `capi_c`, since a crate is built as a library or for C, not as both.
#![tactic(auto)]

pub mod answer;
pub mod block;
pub mod message;
