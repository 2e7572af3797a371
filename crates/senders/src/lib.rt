// Channel messages, the bytes of tunings, what tuners send and the pool tuner, written into lent buffers.
#![tactic(auto)]

pub(crate) mod data_byte;
pub mod event;
pub mod jit;
pub mod midi;
pub mod mts;
pub mod outgoing;
pub(crate) mod record;
pub mod tuner;
