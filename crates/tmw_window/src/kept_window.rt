ghost use Rattle.tmw_window.specs.Shared.{Event, Fits, IsOpen, IsVerdict, Monitor, Rules, Verdict, verdict_of};
ghost use Rattle.std.specs.Prelude.{◌≡◌, List, [], ◌∷◌, ◌++◌, IfOk, IsOk};

use crate::shown_window::ShownWindow;
use crate::window_change::WindowChange;
use std::alloc::{AllocError, Global};
use tmw_cuts::States;
use tmw_events::Event;
use tmw_monitor::Monitor;

/// The last window of a history that a monitor judges, up to the event at which something is wrong, and the states
/// from which it begins. No event before it is kept.
#[derive(Debug, Drop)]
pub struct KeptWindow {
    from: u64,
    states: States,
    events: Vec<Event>,
}

impl KeptWindow {
    ghost use Rattle.tmw_window.specs.KeptWindow.{HasPlaceFor, IsNext, KeepsSame, KeepsShown, events_of, from_of, states_of};
    ghost use Rattle.tmw_window.specs.ShownWindow.{IsShowing};

    /// Makes what is kept before the first event that the monitor is fed.
    pub fn new(alloc: Global, monitor: &Monitor) -> Result<KeptWindow, AllocError>
        ensures { IfOk result
            (λ kept. (rules : Rules) → Fits rules [] monitor.now
            → KeepsShown rules [] (verdict_of monitor.now) kept) }
    {
        let states = monitor.outcomes().copy()?;
        Ok(KeptWindow {
            from: 0,
            states,
            events: Vec::new(alloc),
        })
    }

    /// Makes room for the event that the monitor takes next, and returns what that does with the window. If something
    /// is wrong already it succeeds.
    pub fn make_room(&mut self, monitor: &Monitor) -> Result<WindowChange, AllocError>
        ensures same { KeepsSame self.old self.new }
        ensures next { IfOk result (IsNext monitor.now) }
        ensures room { IfOk result (λ next. HasPlaceFor next self.new) }
        ensures stays { (IsOpen monitor.now → ⊥) → IsOk result }
    {
        if !monitor.is_open() {
            return Ok(WindowChange::None);
        }
        self.events.reserve(1)?;
        if !monitor.is_at_cut() {
            return Ok(WindowChange::GoesOn);
        }
        let states = monitor.outcomes().copy()?;
        Ok(WindowChange::Begins {
            from: monitor.fed(),
            states,
        })
    }

    /// Takes the event that the monitor has taken, and keeps it unless something was wrong before it.
    pub fn take(&mut self, next: WindowChange, event: Event)
        requires { HasPlaceFor next self.old }
        ensures { (rules : Rules) (history : List Event) (before : Monitor) (verdict : Verdict)
            → IsNext before next
            → Fits rules history before → IsVerdict rules (history ++ event ∷ []) verdict
            → KeepsShown rules history (verdict_of before) self.old
            → KeepsShown rules (history ++ event ∷ []) verdict self.new }
    {
        match next {
            WindowChange::None => {}
            WindowChange::Begins { from, states } => {
                self.from = from;
                self.states = states;
                self.events.clear();
                self.events.push_reserved(event);
            }
            WindowChange::GoesOn => self.events.push_reserved(event),
        }
    }

    /// Returns how many events stand before the window.
    pub fn from(&self) -> u64
        ensures { result ≡ from_of self.now }
    {
        self.from
    }

    /// Returns the states from which the window begins, in rising order, 1 to 64.
    pub fn states(&self) -> &States
        ensures { result.now ≡ states_of self.now }
    {
        &self.states
    }

    /// Returns the window's events: up to the one at which something is wrong, or else all.
    pub fn events(&self) -> &[Event]
        ensures { result.now ≡ events_of self.now }
    {
        &self.events
    }

    /// Returns what is shown of the run that the monitor was fed, if no event follows.
    pub fn finish(self, monitor: &Monitor) -> ShownWindow
        ensures { (rules : Rules) (history : List Event) → Fits rules history monitor.now
            → KeepsShown rules history (verdict_of monitor.now) self
            → IsShowing rules history result }
    {
        ShownWindow {
            fed: monitor.fed(),
            verdict: monitor.verdict(),
            broken: monitor.broken(),
            from: self.from,
            states: self.states,
            events: self.events,
        }
    }
}
