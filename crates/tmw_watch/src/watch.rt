//! The end by which what the threads record is judged.
ghost use Rattle.tmw_watch.specs.Shared.{GivesHeadline, IsPumped, ReaderOf, TellsVerdict, front_part, judged_of, pump_in, reader_of, verdict_on};
ghost use Rattle.std.specs.Prelude.{◌≡◌, length};
ghost use Rattle.tmw_counts.specs.Summary.{IsSummary};

use crate::report::WatchReport;
use std::alloc::Global;
use std::sync::Arc;
use tmw_counts::Summary;
use tmw_pump::{Pump, Pumped};
use tmw_ring::Ring;

/// The end by which one thread has judged what the recorders record, by the definition of opacity (Guerraoui and
/// Kapalka 2008, section 5). It keeps no event that it has judged.
#[derive(Drop)]
pub struct Watch {
    pub(crate) alloc: Global,
    pub(crate) ring: Arc<Ring, Global>,
    pub(crate) pump: Pump<()>,
    // How many recorders there are.
    pub(crate) recorders: u64,
    pub ghost of_ring: { ReaderOf ring.value (reader_of (pump_in pump)) },
    pub ghost counted: { recorders ≡ ring.value.size.writers },
}

impl Watch {
    ghost use Rattle.tmw_watch.specs.WatchParts.{watch_front, watch_pump, watch_ring};

    /// Takes and judges up to `most` events, in the order of their places: fewer only if the next place has no event
    /// yet. It never waits for one, and takes no memory.
    pub fn pump(&mut self, most: u64) -> Pumped
        ensures ring { watch_ring self.new ≡ watch_ring self.old }
        ensures pumped { IsPumped most result (watch_pump self.old) (watch_pump self.new) }
        ensures headline { GivesHeadline (watch_front self.old)
            (reader_of (watch_pump self.new)).taken (judged_of (watch_front self.new))
            (verdict_on (watch_front self.new)) }
    {
        let Ok(pumped) = self.pump.pump(&self.ring, most) else {
            unreachable!();
        };
        pumped
    }

    /// Returns how many events were judged so far, and the verdict on them.
    pub fn report(&self) -> WatchReport
        ensures events { result.events ≡ length (judged_of (watch_front self.now)) }
        ensures verdict { TellsVerdict (watch_front self.now) result.verdict }
        ensures headline { GivesHeadline (watch_front self.now)
            (reader_of (watch_pump self.now)).taken (judged_of (watch_front self.now))
            result.verdict }
    {
        WatchReport {
            events: self.pump.front().fed(),
            verdict: self.pump.verdict(),
        }
    }

    /// Returns what the events that were judged have shown: up to the one that the verdict names, or before it if they
    /// are malformed, or all. A close returns no such counts: pump until nothing is left, call this, then close.
    pub fn summary(&self) -> Summary
        ensures { IsSummary (front_part (watch_front self.now)) result }
    {
        self.pump.front().summary()
    }
}
