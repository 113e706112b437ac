//! The ring in which events are recorded, as a machine of atomic steps: its definitions, and the laws about them.
#![tactic(auto)]

mod laws;
mod ring_cell;
mod ring_fault;
mod ring_phase;
mod ring_size;
mod ring_step;

pub use laws::{law_4, law_one_log, law_one_run, law_room};
pub use ring_cell::RingCell;
pub use ring_fault::RingFault;
pub use ring_phase::{ReaderPhase, WriterPhase};
pub use ring_size::{MOST_CELLS, MOST_PLACES, MOST_WRITERS, RingSize};
pub use ring_step::{Answered, Reply, Step};
