use std::sync::Wait;
use std::sync::atomic::{AtomicU64, Ordering};
use std::time::Duration;

/// A count that only rises, and threads that sleep until it does. No clause rests on it.
#[derive(Drop)]
pub struct Count {
    count: AtomicU64,
    asleep: AtomicU64,
}

impl Count {
    /// Makes a count that is 0, on which nobody sleeps.
    pub fn new() -> Count {
        Count {
            count: AtomicU64::new(0),
            asleep: AtomicU64::new(0),
        }
    }

    /// Returns the count.
    pub fn get(&self) -> u64 {
        self.count.load(Ordering::SeqCst)
    }

    /// Adds one to the count. If it is then a multiple of `each`, those who sleep look again.
    pub fn rise(&self, each: u64) {
        let count = self.count.fetch_add(1, Ordering::SeqCst).wrapping_add(1);
        if count.is_multiple_of(each) && self.asleep.load(Ordering::SeqCst) > 0 {
            self.count.wake_all();
        }
    }

    /// Sleeps while the count is this, but for no longer than `longest`, and perhaps for less.
    pub fn sleep<R: Wait>(&self, rt: &R, count: u64, longest: Duration) {
        self.asleep.fetch_add(1, Ordering::SeqCst);
        // The low 32 bits, which are what is slept on.
        self.count
            .park_timeout(rt, (count % 0x1_0000_0000) as u32, longest);
        self.asleep.fetch_sub(1, Ordering::SeqCst);
    }
}
