use crate::rising_count::Count;
use std::sync::atomic::{AtomicBool, Ordering};

/// What a leader and its workers tell all, beside what goes by their lines. Only that a run ends rests on it, which no
/// clause says: workers end when the run is over.
#[derive(Drop)]
pub struct Orders {
    /// How often a worker has begun a round, and then that no further one begins.
    pub begun: Count,
    /// How often one has ended a round.
    pub ended: Count,
    /// How often the leader has told something.
    pub told: Count,
    over: AtomicBool,
}

impl Orders {
    /// Makes orders by which nothing was told.
    pub fn new() -> Orders {
        Orders {
            begun: Count::new(),
            ended: Count::new(),
            told: Count::new(),
            over: AtomicBool::new(false),
        }
    }

    /// Tells all that no further round begins.
    pub fn end(&self) {
        self.over.store(true, Ordering::SeqCst);
        self.told.rise(1);
        self.begun.rise(1);
    }

    /// Tells whether no further round begins.
    pub fn is_over(&self) -> bool {
        self.over.load(Ordering::SeqCst)
    }
}
