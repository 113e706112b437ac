/// Who is told how far a bench has come, by the thread that judges, between two rounds: all workers wait meanwhile. No
/// contract says what becomes of it.
pub trait Progress {
    /// Returns after how many rounds it is told each time, where 0 counts as 1.
    fn every(&self) -> u64;

    /// Tells that so many rounds have ended. The log has `events` by then, of which `unasked` are aborts that answer no
    /// abort request.
    // By rounds, so no clock is read; not by the sink for errors, so that the command's contract has all its bytes.
    fn tell(&self, rounds: u64, events: u64, unasked: u64);

    /// Tells that the bench is over: it tells no more.
    fn end(&self);
}

/// A progress that tells nobody.
#[derive(Clone, Copy, Debug)]
pub struct Silent;

impl Progress for Silent {
    fn every(&self) -> u64 {
        u64::MAX
    }

    fn tell(&self, _rounds: u64, _events: u64, _unasked: u64) {}

    fn end(&self) {}
}

impl<P: Progress> Progress for Option<&P> {
    fn every(&self) -> u64 {
        match self {
            Some(progress) => progress.every(),
            None => u64::MAX,
        }
    }

    fn tell(&self, rounds: u64, events: u64, unasked: u64) {
        if let Some(progress) = self {
            progress.tell(rounds, events, unasked);
        }
    }

    fn end(&self) {
        if let Some(progress) = self {
            progress.end();
        }
    }
}
