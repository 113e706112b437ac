ghost use Rattle.tmw_window.specs.Shared.{Event, IsOpen, IsVerdict, Rules, fed_of, members, rules_for};
ghost use Rattle.std.specs.Prelude.{◌≡◌, ◌<◌, ◌^◌, List, [], ◌∷◌, ◌++◌, IfOk, IsOk, OnOk, OnErr, length};

use crate::kept_window::KeptWindow;
use crate::shown_window::ShownWindow;
use std::alloc::{AllocError, Global};
use tmw_cuts::{State, States};
use tmw_events::{Event, Registers};
use tmw_monitor::{Bounds, Criterion, Monitor, Verdict};

/// A judge of a history as its events come, which keeps the last window, up to the event at which something is wrong,
/// and the states from which that window begins. It keeps no event before them.
#[derive(Drop)]
pub struct LastWindow {
    monitor: Monitor,
    kept: KeptWindow,
}

impl LastWindow {
    ghost use Rattle.tmw_window.specs.ShownWindow.{IsShowing};
    ghost use Rattle.tmw_window.specs.KeptWindow.{events_of, from_of, states_of};
    ghost use Rattle.tmw_window.specs.LastWindow.{Watches, monitor_of, window_of};

    /// Makes a judge of a run whose registers begin with these values, before its first event. Those that the run
    /// does not have are to be 0.
    pub fn new(
        alloc: Global,
        criterion: Criterion,
        registers: Registers,
        start: State,
        bounds: Bounds,
    ) -> Result<LastWindow, AllocError>
        ensures { IfOk result
            (λ window. Watches (rules_for criterion registers start bounds) [] window) }
    {
        let monitor = Monitor::for_criterion(alloc, criterion, registers, start, bounds)?;
        let kept = KeptWindow::new(alloc, &monitor)?;
        Ok(LastWindow { monitor, kept })
    }

    /// Takes the next event. After a failed allocation the event is not taken: feed it again.
    pub fn feed(&mut self, event: Event) -> Result<(), AllocError>
        requires room { fed_of (monitor_of self.old) < 2 ^ 40 }
        ensures ok { OnOk result
            ((rules : Rules) (history : List Event) → Watches rules history self.old
            → Watches rules (history ++ event ∷ []) self.new) }
        ensures err { OnErr result
            ((rules : Rules) (history : List Event) → Watches rules history self.old
            → Watches rules history self.new) }

        // After a verdict that something is wrong each call succeeds.
        ensures stays { (IsOpen (monitor_of self.old) → ⊥) → IsOk result }
    {
        let next = self.kept.make_room(&self.monitor)?;
        self.monitor.take(event);
        self.kept.take(next, event);
        Ok(())
    }

    /// Returns how many events stand before the window that is shown.
    pub fn from(&self) -> u64
        ensures { result ≡ from_of (window_of self.now) }
    {
        self.kept.from()
    }

    /// Returns the states from which that window begins, in rising order, 1 to 64.
    pub fn states(&self) -> &States
        ensures { members result.now ≡ members (states_of (window_of self.now)) }
    {
        self.kept.states()
    }

    /// Returns the events of that window: up to the one at which something is wrong, or else all.
    pub fn events(&self) -> &[Event]
        ensures { result.now ≡ events_of (window_of self.now) }
    {
        self.kept.events()
    }

    /// Returns how many events were taken.
    pub fn fed(&self) -> u64
        ensures shown { result ≡ fed_of (monitor_of self.now) }
        ensures fits { (rules : Rules) (history : List Event) → Watches rules history self.now
            → result ≡ length history }
    {
        self.monitor.fed()
    }

    /// Returns the verdict on the events taken.
    pub fn verdict(&self) -> Verdict
        ensures { (rules : Rules) (history : List Event) → Watches rules history self.now
            → IsVerdict rules history result }
    {
        self.monitor.verdict()
    }

    /// Returns what is shown of the run, if no event follows.
    pub fn finish(self) -> ShownWindow
        ensures { (rules : Rules) (history : List Event) → Watches rules history self
            → IsShowing rules history result }
    {
        self.kept.finish(&self.monitor)
    }
}
