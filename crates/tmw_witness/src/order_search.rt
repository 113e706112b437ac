ghost use Rattle.std.specs.Prelude.{◌≡◌, ◌≤◌, List, IfSome, IsTrue, length, map};
ghost use Rattle.std.specs.List.{Contains};
ghost use Rattle.tmw_events.specs.declared.event.Event.{Event};
ghost use Rattle.tmw_defs.specs.Opaque.{State};
ghost use Rattle.tmw_cuts.specs.Members.{members};
ghost use Rattle.tmw_cuts.specs.StandsFor.{StandsFor, views_of};
ghost use Rattle.tmw_cuts.specs.Views.{view};
ghost use Rattle.tmw_search.specs.EndStates.{TellsEnd};

use crate::witness::Witness;
use tmw_cuts::{MOST_TRANSACTIONS, State, States, Txn, Window};
use tmw_defs::Criterion;
use tmw_search::{SerialStep, find_order, is_next, may_hold};

impl Witness {
    ghost use Rattle.tmw_witness.specs.Witness.{PlacesThose, Witnesses};
    ghost use Rattle.tmw_search.specs.NodeOrders.{In};

    /// Places a transaction after those of the mask, if it can stand there, and returns the mask with it.
    fn place(&mut self, items: &[Txn], step: SerialStep, mask: u8) -> Option<u8>
        requires { length items.now ≤ 8 }
        ensures known { self.new.known ≡ self.old.known }
        ensures placed { IfSome result (λ above. (starts : List State)
            → PlacesThose starts (map view items.now) (In mask) self.old
            → PlacesThose starts (map view items.now) (In above) self.new) }
    {
        let place = step.place;
        let Some(item) = items.get(place) else {
            return None;
        };
        let rank = usize::from(self.top);
        // Those that precede it have begun before it, so that their places are lower.
        if rank >= 8 || item.before >> place != 0 {
            return None;
        }
        if !is_next(item, place, mask) || !may_hold(item.status, step.held) {
            return None;
        }
        let Some(end) = item.after(&self.states[rank]) else {
            return None;
        };
        self.ranks[place] = self.top;
        self.committed[place] = step.held;
        self.states[rank + 1] = end;
        self.top += u8::from(step.held);
        Some(mask | 1 << place)
    }

    /// Takes this order in, from this state: step n is the one with n steps after it. The order is known if it is one
    /// of all transactions.
    fn take(&mut self, items: &[Txn], start: &State, steps: &[SerialStep; MOST_TRANSACTIONS])
        requires { length items.now ≤ 8 }
        ensures { (starts : List State) → Contains starts start.now
            → Witnesses starts (map view items.now) self.new }
    {
        self.known = false;
        self.states[0] = *start;
        self.top = 0;
        let mut mask = 0u8;
        let mut left = items.len();
        while left > 0 {
            left -= 1;
            let Some(above) = self.place(items, steps[left], mask) else {
                return;
            };
            mask = above;
        }
        self.known = usize::from(mask) + 1 == 1 << items.len();
    }

    /// Looks for a legal serial order of the window's transactions, for some completion, from one of the states, and tells
    /// whether there is one. The order may be kept if it is one of all transactions.
    pub fn finds(&mut self, criterion: Criterion, starts: &States, window: &Window) -> bool
        ensures tells { TellsEnd criterion starts.now window.now result }
        ensures known { (events : List Event) → StandsFor window.now events
            → Witnesses (members starts.now) (views_of events) self.new }
    {
        self.known = false;
        // Transactions that have an order by opacity have one by strict serializability, and only an order of all is kept.
        if let Some(order) = find_order(Criterion::Opacity, starts, window) {
            self.take(window.transactions(), &order.start, &order.steps);
            return true;
        }
        match criterion {
            Criterion::Opacity => false,
            Criterion::Strict => find_order(Criterion::Strict, starts, window).is_some(),
        }
    }
}
