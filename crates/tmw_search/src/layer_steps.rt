ghost use Rattle.tmw_search.specs.Shared.{may_hold, view};
ghost use Rattle.std.specs.Prelude.{IsTrue, OnOk, length, map, true, ◌<◌, ◌↔◌, ◌≡◌, ◌≤◌};
ghost use Rattle.tmw_search.specs.LastWriters.{Adds};
ghost use Rattle.tmw_search.specs.Layers.{MayCome, Makes, Follows};

use std::alloc::AllocError;
use tmw_cuts::{State, Txn};
use tmw_defs::Status;

/// The transactions that were placed, as a mask, and the state that they have led to.
pub type Reached = (u8, State);

/// Tells whether a completion may hold a transaction of this status, or leave it out if `held` is `false`.
pub fn may_hold(status: Status, held: bool) -> bool
    ensures { result ≡ may_hold status held }
{
    match status {
        Status::Committed => held,
        Status::Pending => true,
        Status::Live | Status::Aborted => !held,
    }
}

/// Tells whether the transaction at the place isn't placed, and no other that isn't placed precedes it.
pub fn is_next(item: &Txn, place: usize, mask: u8) -> bool
    requires { place < 8 }
    ensures { IsTrue result ↔ MayCome (view item.now).before place mask }
{
    mask >> place & 1 == 0 && item.before | mask == mask
}

/// Adds what placing the transaction makes of what was reached, held or left out as told here, if it may be placed so.
fn push_next(
    nexts: &mut Vec<Reached>,
    item: &Txn,
    place: usize,
    held: bool,
    reached: &Reached,
) -> Result<(), AllocError>
    requires { place < 8 }
    ensures { OnOk result (Adds true nexts.old.items nexts.new.items
        (Makes (view item.now) place held reached.now)) }
{
    let (mask, state) = *reached;
    if !is_next(item, place, mask) || !may_hold(item.status, held) {
        return Ok(());
    }
    let Some(after) = item.after(&state) else {
        return Ok(());
    };
    let end = if held { after } else { state };
    nexts.push((mask | 1 << place, end))?;
    Ok(())
}

/// Adds what placing each transaction makes of what was reached.
pub fn push_nexts(
    nexts: &mut Vec<Reached>,
    items: &[Txn],
    reached: &Reached,
) -> Result<(), AllocError>
    requires { length items.now ≤ 8 }
    ensures { OnOk result (Adds true nexts.old.items nexts.new.items
        (Follows (map view items.now) reached.now)) }
{
    for (place, item) in items.iter().enumerate() {
        push_next(nexts, item, place, true, reached)?;
        push_next(nexts, item, place, false, reached)?;
    }
    Ok(())
}
