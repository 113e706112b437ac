ghost use Rattle.std.specs.Prelude.{◌++◌};
ghost use Rattle.tmw_window.specs.WindowTaker.{window_taking};
ghost use Rattle.std.proofs.Common.{append_assoc, append-nil};

use crate::last_window::LastWindow;
use tmw_events::Event;
use tmw_lines::{Stop, Taker};

/// A `LastWindow` takes events by being fed them, and stops at one for which an allocation failed.
impl Taker<Event> for LastWindow {
    ghost taking = { window_taking };

    fn take(&mut self, event: Event) -> Result<(), Stop> {
        match self.feed(event) {
            Ok(()) => Ok(()),
            Err(_) => Err(Stop),
        }
    }

    ghost takes_none = { λ window rules history watches. Prim.rw (append-nil history) watches };

    ghost takes_more = { λ a b c xs ys taken more rules history watches. Prim.rw (← append_assoc history xs ys)
        (more rules (history ++ xs) (taken rules history watches)) };
}
