ghost use Rattle.std.specs.Prelude.{◌≡◌, ◌∷◌, ◌++◌, ◌<◌, ◌≤◌, ◌^◌, [], length};
ghost use Rattle.tmw_counts.specs.Summary.{IsSummary};
ghost use Rattle.tmw_pump.specs.WasFed.{JudgesOpacity, WasCounted, WasFed};

use crate::pumped::Pumped;
use tmw_counts::{Counter, Summary, is_open};
use tmw_cuts::GhostList;
use tmw_defs::Verdict;
use tmw_events::Event;
use tmw_monitor::Monitor;

/// The judged front. No event is kept: the list of judged events is for clauses alone.
#[derive(Drop)]
pub struct Front {
    monitor: Monitor,
    counter: Counter,
    judged: GhostList<Event>,
    pub ghost opacity: { JudgesOpacity monitor },
    pub ghost fed: { ∥ WasFed judged.items monitor ∥₁ },
    pub ghost counted: { ∥ WasCounted judged.items monitor counter ∥₁ },
    pub ghost few: { length judged.items ≤ 2 ^ 40 },
}

impl Front {
    ghost use Rattle.tmw_pump.specs.Front.{KeepsFit, TellsVerdict, front_part, verdict_on};

    /// Makes a front without events, over a monitor by opacity that was fed none.
    pub(crate) fn new(monitor: Monitor) -> Front
        requires opacity { JudgesOpacity monitor }
        requires fed { WasFed [] monitor }
        ensures judged { result.judged.items ≡ [] }
        ensures monitor { result.monitor ≡ monitor }
    {
        let counter = Counter::new(monitor.registers());
        Front {
            monitor,
            counter,
            judged: GhostList::new(),
        }
    }

    /// Judges the next event.
    pub(crate) fn judge(&mut self, event: Event)
        requires few { length self.old.judged.items < 2 ^ 40 }
        ensures fits { KeepsFit self.old self.new }
        ensures judged { self.new.judged.items ≡ self.old.judged.items ++ event ∷ [] }
    {
        let open = is_open(&self.monitor.verdict());
        self.monitor.take(event);
        if open {
            let _refused = self.counter.take(event);
        }
        self.judged = self.judged.then(&Some(event));
    }

    /// Returns the monitor that judges.
    pub fn monitor(&self) -> &Monitor
        ensures { result.now ≡ self.now.monitor }
    {
        &self.monitor
    }

    /// Returns how many events were judged.
    pub fn fed(&self) -> u64
        ensures { result ≡ length self.now.judged.items }
    {
        self.monitor.fed()
    }

    /// Returns the verdict on the events that were judged.
    pub fn verdict(&self) -> Verdict
        ensures { TellsVerdict self.now result }
    {
        self.monitor.verdict()
    }

    /// Returns what the events that were judged have shown: up to the one that the verdict names, or before it where they
    /// are malformed, or all.
    pub fn summary(&self) -> Summary
        ensures { IsSummary (front_part self.now) result }
    {
        self.counter.summary()
    }

    /// Returns the answer of a call to `pump` that has judged so many events.
    pub(crate) fn pumped(&self, judged: u64) -> Pumped
        ensures { result ≡ record { judged = judged; verdict = verdict_on self.now } }
    {
        Pumped {
            judged,
            verdict: self.monitor.verdict(),
        }
    }
}
