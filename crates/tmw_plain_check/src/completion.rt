ghost use Rattle.std.specs.Prelude.{◌≡◌, ◌∷◌, ◌++◌, [], IfOk};
ghost use Rattle.tmw_plain_check.specs.Completions.{goes_with, has_completion};
ghost use Rattle.tmw_plain_check.specs.PlainTransaction.{txn_of, txns_of, shown};

use crate::operation_and_status::status_of;
use crate::order::has_order;
use crate::plain_transaction::PlainTransaction;
use std::alloc::{AllocError, Global};
use tmw_cuts::State;
use tmw_defs::Status;

/// Tells whether the transactions that some completion of these holds have a legal serial order of their own, from
/// the start.
pub fn has_completion(
    alloc: Global,
    list: &[PlainTransaction],
    start: &State,
) -> Result<bool, AllocError>
    ensures { IfOk result (λ has. has ≡ has_completion start.now (txns_of list.now)) }
{
    goes_with(alloc, &[], list, start)
}

/// Whether some completion of these members, and of what it may hold of the transactions behind, has a legal serial order.
#[cycle(completions)]
fn goes_with<'a>(
    alloc: Global,
    members: &[&'a PlainTransaction],
    behind: &'a [PlainTransaction],
    start: &State,
) -> Result<bool, AllocError>
    ensures { IfOk result (λ goes. goes
        ≡ goes_with start.now (shown members.now) (txns_of behind.now)) }
{
    let [next, rest @ ..] = behind else {
        return has_order(alloc, members, start);
    };
    match status_of(&next.text) {
        Status::Committed => goes_on_with(alloc, members, next, rest, start),
        Status::Pending => Ok(
            goes_on_with(alloc, members, next, rest, start)?
                || goes_with(alloc, members, rest, start)?,
        ),
        Status::Live | Status::Aborted => goes_with(alloc, members, rest, start),
    }
}

/// Whether some completion of these members and the next transaction, and of what it may hold of the rest, has one.
#[cycle(completions)]
fn goes_on_with<'a>(
    alloc: Global,
    members: &[&'a PlainTransaction],
    next: &'a PlainTransaction,
    rest: &'a [PlainTransaction],
    start: &State,
) -> Result<bool, AllocError>
    ensures { IfOk result (λ goes. goes
        ≡ goes_with start.now (shown members.now ++ txn_of next.now ∷ []) (txns_of rest.now)) }
{
    let mut more = members.to_vec(alloc)?;
    more.push(next)?;
    goes_with(alloc, &more, rest, start)
}
