//! What a seat of the ring's table knows. Such values stand in views alone, and none is made when the program runs.
use std::collections::LinkedList;
use tmw_events::{Event, Ix};
use tmw_ring_defs::{Answered, ReaderPhase, RingSize, WriterPhase};

/// What one actor of the ring knows.
pub enum Part {
    /// A writer.
    Writes(WriterPart),
    /// The reader.
    Reads(ReaderPart),
}

/// What a writer knows.
pub struct WriterPart {
    pub size: RingSize,
    pub number: Ix,
    /// How far it has come.
    pub phase: WriterPhase,
    /// The places that it has claimed, in order, each with its event.
    pub made: LinkedList<Made>,
    /// So many places, at least, were claimed.
    pub seen: u64,
    /// All steps that were made on the ring up to its own last step, or up to its last meeting.
    pub run: LinkedList<Answered>,
}

/// What the reader knows.
pub struct ReaderPart {
    pub size: RingSize,
    /// How far it has come.
    pub phase: ReaderPhase,
    /// The events that it has taken, in order.
    pub taken: LinkedList<Event>,
    /// All steps that were made on the ring up to its own last step, or up to its last meeting.
    pub run: LinkedList<Answered>,
}

/// A place that was claimed for an event.
pub struct Made {
    pub place: u64,
    pub event: Event,
}
