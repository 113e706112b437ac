use tmw_events::{MOST_REGISTERS, Registers};
use tmw_monitor::Bounds;

/// What is watched, and how far.
#[derive(Clone, Copy, PartialEq, Eq, Debug)]
pub struct WatchSettings {
    /// How many registers the memory has.
    pub registers: Registers,
    /// What they hold at first, by their numbers. Of those that the memory does not have nothing is read.
    pub start: [u64; MOST_REGISTERS],
    /// How many transactions a window may have, and how many outcomes there may be at a cut: past either the verdict
    /// is undecided.
    pub bounds: Bounds,
    /// How many events stand in the ring at once: from as many as there are recorders to 4,096.
    pub cells: u64,
    /// How many events are recorded in all: from as many as there are recorders to 2^40.
    pub limit: u64,
    /// How many threads record: 1 to 8.
    pub recorders: u64,
}
