//! Three transactional memories over registers of 64 bits: two that ought to be opaque, and one that is not.
//!
//! Each may be used by several threads at once, each thread with a transaction of its own. That they are opaque is not
//! proved: they are what is tested. Proved is that each call returns, and what it does to its transaction.
#![tactic(auto)]

mod gate_memory;
mod global_lock;
mod norec;
mod register_words;
mod torn;
mod tx_calls;

pub use gate_memory::{Gate, Gated};
pub use global_lock::{GlobalLock, Lock};
pub use norec::NoRec;
pub use torn::{OpenGate, Torn};
