use crate::bench_keep::BenchKeep;
use crate::progress::Progress;
use std::alloc::{AllocError, Global};
use tmw_events::Event;
use tmw_monitor::Monitor;
use tmw_pump::Keep;
use tmw_window::{KeptWindow, WindowChange};

/// The last window. Somebody is told now and then how far the bench has come.
#[derive(Drop)]
pub struct Hunting<'a, P> {
    pub window: KeptWindow,
    pub progress: &'a P,
}

impl<'a, P: Progress> Keep for Hunting<'a, P> {
    ghost use Rattle.tmw_window.specs.KeptWindow.{HasPlaceFor, IsNext, KeepsShown};

    type Next = WindowChange;

    ghost keeps = { λ rules history verdict hunting. KeepsShown rules history verdict hunting.window };

    ghost awaits = { λ monitor next hunting. IsNext monitor next × HasPlaceFor next hunting.window };

    ghost refuses = { Unit {0} };

    fn make_room(&mut self, monitor: &Monitor) -> Result<WindowChange, AllocError> {
        self.window.make_room(monitor)
    }

    fn take(&mut self, next: WindowChange, event: Event) {
        self.window.take(next, event);
    }
}

impl<'a, P: Progress> BenchKeep for Hunting<'a, P> {
    type Told = &'a P;

    fn begin(alloc: Global, monitor: &Monitor, told: &'a P) -> Result<Hunting<'a, P>, AllocError> {
        Ok(Hunting {
            window: KeptWindow::new(alloc, monitor)?,
            progress: told,
        })
    }

    fn tell(&self, rounds: u64, events: u64, unasked: u64) {
        if rounds % self.progress.every().max(1) == 0 {
            self.progress.tell(rounds, events, unasked);
        }
    }
}
