ghost use Rattle.std.specs.Prelude.{◌≡◌, ◌-◌, ◌<◌, ◌&&◌, ◌||◌, true, false, IfOk, length, remove};
ghost use Rattle.tmw_defs.specs.Opaque.{precedes, may_hold};
ghost use Rattle.tmw_defs.specs.OrderDecision.{is_free, may_come, has_order, is_explained};
ghost use Rattle.tmw_plain_check.specs.PlainTransaction.{txn_of, txns_of, shown};

use crate::operation_and_status::{is_ended, status_of};
use crate::plain_transaction::PlainTransaction;
use crate::replay_text::replay;
use std::alloc::{AllocError, Global};
use tmw_cuts::State;
use tmw_defs::Status;

/// Whether the one precedes the other in real time: it is completed, and its last event is before the other's first.
fn precedes(one: &PlainTransaction, other: &PlainTransaction) -> bool
    ensures { result ≡ precedes (txn_of one.now) (txn_of other.now) }
{
    is_ended(&one.text) && one.last < other.first
}

/// Tells whether none of the others precedes the transaction in real time.
fn is_free(transaction: &PlainTransaction, others: &[&PlainTransaction]) -> bool
    ensures { result ≡ is_free (txn_of transaction.now) (shown others.now) }
{
    for other in others {
        if precedes(other, transaction) {
            return false;
        }
    }
    true
}

/// Returns all of these transactions but the one at the index.
fn without<'a>(
    alloc: Global,
    list: &[&'a PlainTransaction],
    index: usize,
) -> Result<Vec<&'a PlainTransaction>, AllocError>
    requires { index < length list.now }
    ensures { IfOk result (λ rest. shown rest.items ≡ remove (shown list.now) index) }
{
    let mut rest = list.to_vec(alloc)?;
    rest.remove(index);
    Ok(rest)
}

/// Whether the transaction at the index can come first in a serial order that is legal from the state, the others after it.
#[cycle(orders)]
fn may_come(
    alloc: Global,
    waiting: &[&PlainTransaction],
    index: usize,
    state: &State,
) -> Result<bool, AllocError>
    requires { index < length waiting.now }
    ensures { IfOk result (λ may. may
        ≡ may_come (has_order (length waiting.now - 1)) state.now (shown waiting.now) index) }
{
    let next = waiting[index];
    let Some(after) = replay(&next.text, state) else {
        return Ok(false);
    };
    let rest = without(alloc, waiting, index)?;
    if !is_free(next, &rest) {
        return Ok(false);
    }
    goes_on(alloc, status_of(&next.text), &rest, &after, state)
}

/// Whether the rest has an order after a transaction of this status: from the state that it leaves where the completion
/// holds it, or from the one before it where the completion leaves it out.
#[cycle(orders)]
fn goes_on(
    alloc: Global,
    status: Status,
    rest: &[&PlainTransaction],
    held: &State,
    left_out: &State,
) -> Result<bool, AllocError>
    ensures { IfOk result (λ goes. goes ≡
        (may_hold status true && is_explained held.now (shown rest.now)
        || may_hold status false && is_explained left_out.now (shown rest.now))) }
{
    match status {
        Status::Committed => has_order(alloc, rest, held),
        Status::Pending => {
            Ok(has_order(alloc, rest, held)? || has_order(alloc, rest, left_out)?)
        }
        Status::Live | Status::Aborted => has_order(alloc, rest, left_out),
    }
}

/// Tells whether these transactions have a serial order, with a completion, that keeps the real-time order and is
/// legal from the state.
#[cycle(orders)]
pub fn has_order(
    alloc: Global,
    waiting: &[&PlainTransaction],
    state: &State,
) -> Result<bool, AllocError>
    ensures { IfOk result (λ has. has ≡ is_explained state.now (shown waiting.now)) }
{
    for index in 0..waiting.len() {
        if may_come(alloc, waiting, index, state)? {
            return Ok(true);
        }
    }
    Ok(waiting.is_empty())
}

/// Tells whether the transactions of a list that owns them have a serial order, with a completion, as `has_order`
/// asks.
pub fn is_explained(
    alloc: Global,
    list: &[PlainTransaction],
    start: &State,
) -> Result<bool, AllocError>
    ensures { IfOk result (λ has. has ≡ is_explained start.now (txns_of list.now)) }
{
    let mut waiting = Vec::new(alloc);
    for transaction in list {
        waiting.push(transaction)?;
    }
    has_order(alloc, &waiting, start)
}
