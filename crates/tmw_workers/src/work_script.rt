ghost use Rattle.tmw_workers.specs.Shared.{A, WriterOf, answers, are_transactions};
ghost use Rattle.tmw_workers.specs.Player.{calls_of};
ghost use Rattle.std.specs.Prelude.{◌≡◌, ◌==◌, ◌+◌, ◌<◌, ◌^◌, ℕ, IsTrue, IfSome, IfNone};
ghost use Rattle.tmw_workers.specs.FreshTx.{IsFresh};
ghost use Rattle.tmw_workers.specs.CallSteps.{HasCalled, StopsAt};
ghost use Rattle.tmw_workers.specs.MemoryCalls.{HasCalledInTurn, StopsInTurn, TakesOneTurn};
ghost use Rattle.tmw_workers.specs.Work.{HasWorked};

use crate::ask::ends;
use crate::memory_calls::MemoryCalls;
use crate::player::Player;
use crate::record_soon::record_soon;
use crate::signals::Signals;
use tmw_events::Kind;
use tmw_ring::{Refused, Ring, Writer};
use tmw_tm::Tm;

/// Runs the script on the memory, one transaction after another: each call is recorded, then made, then its answer is
/// recorded. Returns the refusal at which it stopped, if any, and records nothing more then.
///
/// A record for which the ring lacks room is tried `patience` times in all, where 0 counts as 1, unless nobody pumps
/// any more. One for which the ring's places are spent is tried once. If a transaction has begun in the memory and has
/// not ended there when the thread stops, it is aborted in the memory; in the record it stays live.
pub fn work<M: MemoryCalls>(
    memory: &(dyn Tm + Sync),
    ring: &Ring,
    writer: &mut Writer,
    script: &[Vec<Kind>],
    patience: u64,
    signals: &Signals,
) -> Option<Refused>
    requires of_ring { WriterOf ring.now writer.old }
    requires script { (registers : ℕ) × IsTrue (are_transactions registers (calls_of script.now)) }
    ensures of_ring { WriterOf ring.now writer.new }
    ensures number { writer.new.number ≡ writer.old.number }
    ensures worked { HasWorked (gives memory.now) (calls_of script.now) writer.old result
        writer.new }
    ensures called { HasCalledInTurn M.asked M.left writer.old.made result writer.new.made }
{
    let tries = patience.saturating_sub(1);
    let mut player = Player::new(writer.number());
    while let Some(call) = player.next(script) {
        if let Some(refused) = step::<M>(memory, ring, writer, &mut player, call, tries, signals) {
            return Some(refused);
        }
    }
    None
}

/// Makes the player's next call: it is recorded, the memory is asked, and its answer is recorded. Where a record is refused, it
/// aborts a transaction that the memory still has, and answers the refusal.
fn step<M: MemoryCalls>(
    memory: &(dyn Tm + Sync),
    ring: &Ring,
    writer: &mut Writer,
    player: &mut Player,
    call: Kind,
    tries: u64,
    signals: &Signals,
) -> Option<Refused>
    requires of_ring { WriterOf ring.now writer.old }
    requires fresh { IsTrue (player.old.call == 0) → IsFresh player.old.tx }
    requires call { IsTrue (answers call A) }
    requires later_transaction { player.old.transaction + 1 < 2 ^ 64 }
    requires later_call { player.old.call + 1 < 2 ^ 64 }
    ensures of_ring { WriterOf ring.now writer.new }
    ensures number { writer.new.number ≡ writer.old.number }
    ensures called { IfNone result
        (HasCalled (gives memory.now) call player.old player.new writer.old writer.new) }
    ensures turn { IfNone result (TakesOneTurn M.asked writer.old.made writer.new.made
        player.old player.new) }
    ensures stopped { IfSome result (λ refused. StopsAt call refused writer.old writer.new) }
    ensures leaves { IfSome result (λ _. StopsInTurn M.asked M.left
        (IsTrue (player.old.call == 0)) writer.old.made writer.new.made player.old.tx) }
{
    if let Err(refused) = record_soon(ring, writer, call, tries, signals) {
        if player.call > 0 {
            M::leave(memory, player);
        }
        return Some(refused);
    }
    let answer = M::ask(memory, player, call, writer);
    if let Err(refused) = record_soon(ring, writer, answer, tries, signals) {
        if !ends(answer) {
            M::leave(memory, player);
        }
        return Some(refused);
    }
    player.go_on(answer);
    None
}
