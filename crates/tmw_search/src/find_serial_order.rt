//! Looks for a legal serial order of a window's transactions.
ghost use Rattle.tmw_search.specs.Shared.{Contains, members};
ghost use Rattle.std.specs.Prelude.{IfSome, MatchOption, is_some, length, ◌≤◌};
ghost use Rattle.tmw_search.specs.EndStates.{TellsEnd};
ghost use Rattle.tmw_search.specs.LegalOrders.{Explains, NoneExplains};

use crate::node::Node;
use crate::read_consequences::{read_all, written_by};
use crate::root::{all_agree, order_of, orderly, root_of, statuses_of};
use crate::search::any;
use crate::serial_order::{SerialOrder, steps_of};
use tmw_cuts::{State, States, Txn, Window};
use tmw_defs::Criterion;

/// A node whose orders are all legal from this state.
#[derive(Clone, Copy)]
struct Explained {
    start: State,
    node: Node,
}

/// Looks for a state of these from which the transactions have a legal serial order, and for the order.
fn find_in(criterion: Criterion, items: &[Txn], starts: &[State]) -> Option<Explained>
    requires { length items.now ≤ 8 }
    ensures { MatchOption result (NoneExplains criterion items.now starts.now)
        (λ found. Contains starts.now found.start × Explains criterion items.now found.start) }
{
    let statuses = statuses_of(items);
    let reach = order_of(items, orderly(criterion, &statuses));
    let root = root_of(criterion, items, &reach, statuses.committed);
    if !all_agree(items, root.members) {
        return None;
    }
    let may = statuses.pending;
    let written = written_by(items, may);
    for start in starts {
        let mut node = root;
        if read_all(items, start, may, written, &mut node) {
            match any(items, start, may, &node) {
                Some(node) => {
                    return Some(Explained {
                        start: *start,
                        node,
                    });
                }
                None => {}
            }
        }
    }
    None
}

/// Looks for a legal serial order of the window's transactions, for some completion, from one of the states. By opacity the
/// order has all of them, by strict serializability those that the completion holds.
pub fn find_order(criterion: Criterion, states: &States, window: &Window) -> Option<SerialOrder>
    ensures tells { TellsEnd criterion states.now window.now (is_some result) }
    ensures start { IfSome result (λ order. Contains (members states.now) order.start) }
{
    match find_in(criterion, window.transactions(), states.states()) {
        Some(found) => Some(SerialOrder {
            start: found.start,
            steps: steps_of(&found.node),
        }),
        None => None,
    }
}
