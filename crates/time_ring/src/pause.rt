//! What a thread does before it tries again.
use std::{hint, thread};

/// Waits for a moment after so many tries, and each 64th time gives the processor away.
pub fn pause(tries: u8) {
    if tries % 64 == 63 {
        thread::yield_now();
    } else {
        hint::spin_loop();
    }
}
