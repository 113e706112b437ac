//! Events of a transactional memory's history: the text of one, and its two words in a ring.
#![tactic(auto)]

mod event;
mod event_text;
mod event_words;
mod ix;
mod kind_line;
mod number;
mod registers;

pub use event::{Event, Kind};
pub use event_text::{EventTexts, put_event};
pub use event_words::{join, pack, split, unpack};
pub use ix::{Ix, MOST_THREADS};
pub use kind_line::{ix_of, kind_of};
pub use number::number_of;
pub use registers::{MOST_REGISTERS, Registers};
pub use tmw_streams::{
    IoFault, MemorySink, MemorySource, Sink, Source, StdSink, StdSource, put_all,
};
