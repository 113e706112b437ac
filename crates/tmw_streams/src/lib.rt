//! The streams that texts are read from and written to: sources and sinks, over memory and over std.
#![tactic(auto)]

mod bounded_sink;
mod io_fault;
mod item_lines;
mod memory_sink;
mod memory_source;
mod put_bytes;
mod read_fault;
mod read_to_end;
mod sink;
mod source;
mod std_sink;
mod std_source;

pub use bounded_sink::BoundedSink;
pub use io_fault::IoFault;
pub use item_lines::{Texts, put_lines};
pub use memory_sink::MemorySink;
pub use memory_source::MemorySource;
pub use put_bytes::{put_all, put_with_number};
pub use read_fault::ReadFault;
pub use read_to_end::read_all;
pub use sink::Sink;
pub use source::Source;
pub use std_sink::StdSink;
pub use std_source::StdSource;
