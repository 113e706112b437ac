//! Where both criteria have the same end states: what has not committed can come first in each serial order.
ghost use Rattle.tmw_search.specs.Shared.{Contains, EndsBy, Event, Opacity, StandsFor, State, Strict, is_cut, reads_hold, transactions, view, views_of};
ghost use Rattle.std.specs.Prelude.{IsTrue, List, length, map, ◌↔◌, ◌≡◌, ◌≤◌};
ghost use Rattle.tmw_search.specs.EndStates.{EndsOf};

use crate::root::statuses_of;
use tmw_cuts::{State, States, Txn, Window};

/// Tells whether no transaction of the window precedes this one, and each of its operations was answered what each of the states
/// holds.
fn can_be_first(item: &Txn, states: &[State]) -> bool
    ensures { IsTrue result ↔ ((item.now.before ≡ 0)
        × ((s : State) → Contains states.now s → IsTrue (reads_hold s item.now.ops.items))) }
{
    item.before == 0 && states.iter().all(|state| item.fits(state))
}

/// Looks whether each of the transactions that has not committed can come first, from each of the starts. Returns `true` at a cut only if
/// each end state by strict serializability is one by opacity.
fn are_free(items: &[Txn], starts: &[State]) -> bool
    requires { length items.now ≤ 8 }
    ensures { IsTrue result → (events : List Event) → map view items.now ≡ views_of events
        → IsTrue (is_cut events) → (end : State)
        → EndsBy Strict (Contains starts.now) (transactions events) end
        → EndsBy Opacity (Contains starts.now) (transactions events) end }
{
    let committed = statuses_of(items).committed;
    for (place, item) in items.iter().enumerate() {
        if committed >> place & 1 == 0 && !can_be_first(item, starts) {
            return false;
        }
    }
    true
}

/// Looks whether each transaction of the window that has not committed can come first in a serial order, from each of the states. Returns
/// `true` at a cut only if each end state by strict serializability is one by opacity.
pub fn ends_alike(states: &States, window: &Window) -> bool
    ensures { IsTrue result → (events : List Event) → StandsFor window.now events
        → IsTrue (is_cut events) → (end : State) → EndsOf Strict states.now events end
        → EndsOf Opacity states.now events end }
{
    are_free(window.transactions(), states.states())
}
