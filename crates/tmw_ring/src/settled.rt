//! What a ring leaves, from which the events that nobody took are taken in order.
ghost use Rattle.std.specs.Prelude.{IfNone, IfSome, [], ◌∷◌, ◌≡◌};

use crate::cell_layout::words_at;
use atomic_table::Closed;
use std::alloc::Global;
use std::marker::Model;
use tmw_events::{Event, split, unpack};

/// The words of a ring that no thread uses any more. It is seen as the events that are left, in the order of their
/// places.
pub struct Settled {
    pub(crate) closed: Closed<(), Global>,
    pub(crate) cells: u64,
    // The next place, and the one behind the last.
    pub(crate) front: u64,
    pub(crate) tail: u64,
}

impl Model for Settled {
    ghost use Rattle.std.specs.Prelude.{List, ◌-◌};
    ghost use Rattle.std.specs.Mem.Slots.{slots_items};
    ghost use Rattle.tmw_events.specs.declared.event.Event.{Event};

    ghost Value = { List Event };

    ghost use Rattle.tmw_ring.specs.Settle.{events_from, IsLeft};

    ghost view = { λ left. events_from (slots_items left.closed.words) left.cells left.front
        (left.tail - left.front) };

    ghost invariant = { λ left. IsLeft left.closed left.cells left.front left.tail };
}

impl Settled {
    /// Takes the next event, or returns `None` if all were taken.
    pub fn take(&mut self) -> Option<Event>
        ensures some { IfSome result (λ event. self.old ≡ event ∷ self.new) }
        ensures none { IfNone result ((self.old ≡ []) × (self.new ≡ [])) }
    {
        if self.front == self.tail {
            return None;
        }
        let words = words_at(self.cells, self.front);
        let (_stamp, header) = split(self.closed.word(words.stamp));
        let value = self.closed.word(words.value);
        self.front += 1;
        unpack(header, value)
    }
}

impl Drop for Settled {
    fn drop(self) {
        let Settled {
            closed,
            cells: _,
            front: _,
            tail: _,
        } = self;
        closed.free();
    }
}
