//! What a bench keeps of its log, and whom it tells how far it has come.
ghost use Rattle.std.specs.Prelude.{[], IfOk};

use std::alloc::{AllocError, Global};
use tmw_events::Event;
use tmw_monitor::Monitor;
use tmw_pump::Keep;

/// What is kept of a bench's log. Somebody may be told how far the bench has come.
pub trait BenchKeep: Keep {
    ghost use Rattle.std.specs.Prelude.{[], IfOk};
    ghost use Rattle.tmw_defs.specs.Verdict.{Rules};
    ghost use Rattle.tmw_monitor.specs.Fits.{Fits};

    /// Who is told.
    type Told: Drop;

    /// Begins to keep, before the first event that the monitor is fed.
    fn begin(alloc: Global, monitor: &Monitor, told: Self::Told) -> Result<Self, AllocError>
        ensures { IfOk result
            (λ kept. (rules : Rules) → Fits rules [] monitor.now
            → Self.keeps rules [] monitor.now.verdict kept) };

    /// Tells that so many rounds have ended, and so many events are judged. Of these so many are aborts that answer no abort
    /// request.
    fn tell(&self, rounds: u64, events: u64, unasked: u64);
}

/// The whole log, of which nobody is told.
impl BenchKeep for Vec<Event> {
    type Told = ();

    fn begin(alloc: Global, _monitor: &Monitor, _told: ()) -> Result<Vec<Event>, AllocError> {
        Ok(Vec::new(alloc))
    }

    fn tell(&self, _rounds: u64, _events: u64, _unasked: u64) {}
}
