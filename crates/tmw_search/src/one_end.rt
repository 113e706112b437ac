ghost use Rattle.tmw_search.specs.Shared.{view};
ghost use Rattle.std.specs.Prelude.{IsTrue, if◌then◌else◌, map};
ghost use Rattle.tmw_cuts.specs.RegisterMask.{IsMaskOf};
ghost use Rattle.tmw_defs.specs.declared.status.Status.TheVariants.{Committed};
ghost use Rattle.tmw_search.specs.OneEnd.{is_writer, AreForced, AreForcedWith};

use tmw_cuts::Txn;
use tmw_defs::Status;
use tmw_events::Ix;

/// The registers that the transaction writes, as a mask, if it has committed or is taken as committed.
fn written_by(item: &Txn, is_held: bool) -> u8
    ensures { IsMaskOf (λ r. is_writer r (if is_held then Committed else item.now.status)
        item.now.ops.items) result }
{
    if is_held || item.status == Status::Committed {
        item.written()
    } else {
        0
    }
}

/// Returns `true` only if no register that two of these transactions write is written blindly by one: of those that have committed, and
/// the one at the place, if there is one.
fn are_forced(items: &[Txn], place: usize) -> bool
    ensures { IsTrue result → AreForcedWith place (map view items.now) }
{
    let mut once = 0;
    let mut twice = 0;
    let mut blind = 0;
    for (index, item) in items.iter().enumerate() {
        let own = written_by(item, index == place);
        twice |= once & own;
        once |= own;
        blind |= own & !item.needed();
    }
    twice & blind == 0
}

/// Returns `true` only if no register that two committed transactions write is written blindly by one. Once all have ended, all
/// their legal orders from one start then end in one state.
pub fn is_forced(items: &[Txn]) -> bool
    ensures { IsTrue result → AreForced (map view items.now) }
{
    are_forced(items, items.len())
}

/// Returns `true` only if that is so with the transaction at the place as committed, whether or not it has ended.
#[cold]
#[inline(never)]
pub fn is_forced_with(items: &[Txn], place: Ix) -> bool
    ensures { IsTrue result → AreForcedWith place.number (map view items.now) }
{
    are_forced(items, place.get() as usize)
}
