use std::io::Write;
use std::sync::atomic::{AtomicBool, Ordering};
use tmw_bench::Progress;
use tmw_streams::{BoundedSink, IoFault, StdSink, put_all, put_with_number};

/// Clears the terminal's line, and goes back to its start.
const CLEAR: &[u8] = b"\r\x1b[K";

/// After so many rounds, each time, the line is written anew: so seldom that it slows no bench down.
const EVERY: u64 = 100_000;

/// A progress on a terminal: one line, which is written over each time and cleared at the end.
#[derive(Drop)]
pub struct Terminal<W> {
    errors: W,
    /// The line is shown.
    shown: AtomicBool,
}

impl<W: Write + Copy> Progress for Terminal<W> {
    fn every(&self) -> u64 {
        EVERY
    }

    fn tell(&self, rounds: u64, events: u64, unasked: u64) {
        let mut line = BoundedSink::new();
        if put_line(&mut line, rounds, events, unasked).is_ok() {
            self.shown.store(true, Ordering::Relaxed);
            self.show(line.bytes());
        }
    }

    fn end(&self) {
        if self.shown.load(Ordering::Relaxed) {
            self.show(CLEAR);
        }
    }
}

impl<W: Write + Copy> Terminal<W> {
    /// Makes a progress that shows nothing yet.
    pub fn new(errors: W) -> Terminal<W> {
        Terminal {
            errors,
            shown: AtomicBool::new(false),
        }
    }

    /// Shows these bytes, as far as the terminal takes them.
    fn show(&self, bytes: &[u8]) {
        let mut errors = StdSink::new(self.errors);
        let _shown = put_all(&mut errors, bytes);
    }
}

/// The line, in place of the one before.
fn put_line(line: &mut BoundedSink, rounds: u64, events: u64, unasked: u64) -> Result<(), IoFault> {
    put_all(line, CLEAR)?;
    put_with_number(line, b"", rounds)?;
    put_with_number(line, b" rounds, ", events)?;
    put_with_number(line, b" events, ", unasked)?;
    put_all(line, b" forced aborts")
}
