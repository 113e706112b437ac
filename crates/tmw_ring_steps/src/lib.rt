//! The ring as a machine that a user steps: what each of its writers and its reader does next, and how that is
//! answered.
#![tactic(auto)]

mod reader_steps;
mod ring_state;
mod sim;
mod step;
mod writer_steps;

pub use sim::Sim;
pub use tmw_ring_defs::{Reply, RingFault, RingSize, Step};
