//! Where a call stands among those of its transaction.
ghost use Rattle.std.specs.Prelude.{IsFalse, IsTrue, ◌<◌};
ghost use Rattle.tmw_runs.specs.ByTurns.{IsPlaced};

use tmw_events::Kind;

/// Tells whether a transaction of `count` calls may have this one at `place`, counted from 0. A request to commit or to
/// abort comes last, and no other call does.
pub fn is_placed(call: Kind, place: usize, count: usize) -> bool
    requires { place < count }
    ensures yes { IsTrue result → IsPlaced count place call }
    ensures no { IsFalse result → IsPlaced count place call → ⊥ }
{
    let is_last = place + 1 == count;
    match call {
        Kind::R(_) | Kind::W(..) | Kind::N(..) => !is_last,
        Kind::T | Kind::X => is_last,
        _ => false,
    }
}
