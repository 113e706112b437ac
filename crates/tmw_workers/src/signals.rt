use std::sync::atomic::{AtomicBool, AtomicU64, Ordering};

/// What the threads that record and the one that pumps tell one another.
#[derive(Drop)]
pub struct Signals {
    ended: AtomicU64,
    given_up: AtomicBool,
}

impl Signals {
    /// Makes signals of which none is given: no thread has ended, and nothing is given up.
    pub fn new() -> Signals {
        Signals {
            ended: AtomicU64::new(0),
            given_up: AtomicBool::new(false),
        }
    }

    /// Counts one more thread that has ended.
    pub fn end(&self) {
        self.ended.fetch_add(1, Ordering::SeqCst);
    }

    /// Returns how many threads have ended.
    pub fn ended(&self) -> u64 {
        self.ended.load(Ordering::SeqCst)
    }

    /// Tells the threads that nobody pumps any more, so that one that finds the ring full stops.
    pub fn give_up(&self) {
        self.given_up.store(true, Ordering::SeqCst);
    }

    /// Tells whether nobody pumps any more.
    pub fn is_given_up(&self) -> bool {
        self.given_up.load(Ordering::SeqCst)
    }
}
