use tmw_cuts::States;
use tmw_events::Event;
use tmw_monitor::{BrokenRule, Verdict};

/// What is shown of a run: its last window, up to the event at which something is wrong, and the states from which that begins.
#[derive(Debug, Drop)]
pub struct ShownWindow {
    /// How many events the run has.
    pub fed: u64,
    /// The verdict on them.
    pub verdict: Verdict,
    /// The first event that fits no run, if one does not: after a final verdict too.
    pub broken: Option<BrokenRule>,
    /// How many events stand before the window.
    pub from: u64,
    /// The states from which it begins, in rising order, 1 to 64.
    pub states: States,
    /// Its events: up to the one at which something is wrong, or else all.
    pub events: Vec<Event>,
}
