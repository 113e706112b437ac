//! What is counted of the events that are judged: nothing, or what a history has shown.
use crate::monitors::{Monitors, covers_event, covers_last, feed_copy};
use tmw_counts::{Counter, Summary};
use tmw_events::{Event, Registers};

/// Counts the events of a history, one after another, and feeds them to monitors. Its type tells what these mostly judge by, so that
/// their steps are inlined into the reading of each kind's line, and an event is no value in memory.
pub trait Tally: Drop {
    ghost use Rattle.std.specs.Prelude.{◌<◌, ◌-◌, ◌^◌, ℕ, Bool, List, [], ◌∷◌, ◌++◌, length, IsTrue};
    ghost use Rattle.tmw_judge.specs.Judge.{HaveRoom};
    ghost use Rattle.tmw_judge.specs.FeedEvents.{FeedsEach};
    ghost use Rattle.tmw_defs.specs.History.{is_well_formed};
    ghost use Rattle.tmw_events.specs.declared.event.Event.{Event};
    ghost use Rattle.tmw_judge.specs.Tally.{HasSummary, TellsCovered};

    /// Whether it counts.
    ghost counted: { Bool };

    /// It has counted this history of a run with so many registers.
    ghost counts: { ℕ → List Event → Self → Type 0 };

    /// Makes one for a run with so many registers, before its first event.
    fn begin(registers: Registers) -> Self
        ensures { counts registers.number [] result };

    /// Counts the next event, with which the history stays well-formed. It has fewer than 2^64 - 1 events.
    fn take(&mut self, event: Event)
        requires { (registers : ℕ) × (history : List Event) × counts registers history self.old
            × IsTrue (is_well_formed registers (history ++ event ∷ [])) }
        ensures { (registers : ℕ) (history : List Event) → length history < 2 ^ 64 - 1
            → IsTrue (is_well_formed registers (history ++ event ∷ []))
            → counts registers history self.old
            → counts registers (history ++ event ∷ []) self.new };

    /// Feeds an event to each monitor, and tells whether what is counted ends with it.
    fn feed(monitors: &mut Monitors, event: Event) -> bool
        requires { HaveRoom monitors.old }
        ensures feeds { FeedsEach monitors.old event monitors.new }
        ensures covers { TellsCovered monitors.new result };

    /// Returns what the counted history has shown, if it counts.
    fn summary(&self) -> Option<Summary>
        ensures { (registers : ℕ) (history : List Event) → counts registers history self.now
            → HasSummary counted history result };
}

/// Counts nothing.
#[derive(Drop)]
pub struct NoTally;

impl Tally for NoTally {
    ghost use Rattle.std.specs.Prelude.{false};

    ghost counted = { false };

    ghost counts = { λ registers history counting. Unit {0} };

    #[inline(always)]
    fn begin(_registers: Registers) -> NoTally {
        NoTally
    }

    #[inline(always)]
    fn take(&mut self, _event: Event) {}

    #[inline(always)]
    fn feed(monitors: &mut Monitors, event: Event) -> bool {
        if let Monitors::Opacity(monitor) = monitors {
            monitor.take(event);
            return covers_event(monitor.fed(), &monitor.verdict());
        }
        feed_copy(monitors, event);
        covers_last(monitors)
    }

    fn summary(&self) -> Option<Summary> {
        None
    }
}

/// Counts nothing, of a history that is judged by strict serializability.
#[derive(Drop)]
pub struct StrictNoTally;

impl Tally for StrictNoTally {
    ghost use Rattle.std.specs.Prelude.{false};

    ghost counted = { false };

    ghost counts = { λ registers history counting. Unit {0} };

    #[inline(always)]
    fn begin(_registers: Registers) -> StrictNoTally {
        StrictNoTally
    }

    #[inline(always)]
    fn take(&mut self, _event: Event) {}

    #[inline(always)]
    fn feed(monitors: &mut Monitors, event: Event) -> bool {
        if let Monitors::Strict(monitor) = monitors {
            monitor.take(event);
            return covers_event(monitor.fed(), &monitor.verdict());
        }
        feed_copy(monitors, event);
        covers_last(monitors)
    }

    fn summary(&self) -> Option<Summary> {
        None
    }
}

/// Counts nothing, of a history that is judged by both criteria.
#[derive(Drop)]
pub struct BothNoTally;

impl Tally for BothNoTally {
    ghost use Rattle.std.specs.Prelude.{false};

    ghost counted = { false };

    ghost counts = { λ registers history counting. Unit {0} };

    #[inline(always)]
    fn begin(_registers: Registers) -> BothNoTally {
        BothNoTally
    }

    #[inline(always)]
    fn take(&mut self, _event: Event) {}

    #[inline(always)]
    fn feed(monitors: &mut Monitors, event: Event) -> bool {
        if let Monitors::Both(both) = monitors {
            both.take(event);
        } else {
            feed_copy(monitors, event);
        }
        covers_last(monitors)
    }

    fn summary(&self) -> Option<Summary> {
        None
    }
}

impl Tally for Counter {
    ghost use Rattle.tmw_counts.specs.Counter.{CountsSo};
    ghost use Rattle.std.specs.Prelude.{true};

    ghost counted = { true };

    ghost counts = { CountsSo };

    fn begin(registers: Registers) -> Counter {
        Counter::new(registers)
    }

    #[inline(always)]
    fn take(&mut self, event: Event) {
        let Ok(()) = self.take(event) else {
            unreachable!();
        };
    }

    #[inline(always)]
    fn feed(monitors: &mut Monitors, event: Event) -> bool {
        NoTally::feed(monitors, event)
    }

    fn summary(&self) -> Option<Summary> {
        Some(self.summary())
    }
}
