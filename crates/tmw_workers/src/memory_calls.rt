ghost use Rattle.tmw_workers.specs.Shared.{A, Stands, answers};
ghost use Rattle.std.specs.Prelude.{◌≡◌, ◌==◌, IsTrue};
ghost use Rattle.tmw_workers.specs.FreshTx.{IsFresh};

use crate::player::Player;
use tmw_events::Kind;
use tmw_ring::Writer;
use tmw_tm::Tm;

/// How a worker calls the memory. It shows its writer with each `ask`. What a call may do is left open, so that only a call shows it: by
/// that contracts say after which record a call was made.
pub trait MemoryCalls {
    ghost use Rattle.tmw_workers.specs.MemoryCalls.{Asking, Leaving};

    /// What a call may get and do, when the writer shown has claimed these places.
    ghost asked: { Asking };

    /// What an abort may do.
    ghost left: { Leaving };

    /// Makes the player's call, as `Player::ask` does.
    fn ask(memory: &(dyn Tm + Sync), player: &mut Player, call: Kind, writer: &Writer) -> Kind
        requires fresh { IsTrue (player.old.call == 0) → IsFresh player.old.tx }
        requires call { IsTrue (answers call A) }
        ensures fits { IsTrue (answers call result) }
        ensures stands { Stands (gives memory.now) (player.old.call == 0) call result }
        ensures thread { player.new.thread ≡ player.old.thread }
        ensures transaction { player.new.transaction ≡ player.old.transaction }
        ensures call { player.new.call ≡ player.old.call }
        ensures asked { asked writer.now.made player.old.tx call result player.new.tx };

    /// Aborts the player's transaction in the memory.
    fn leave(memory: &(dyn Tm + Sync), player: &mut Player)
        ensures left { left player.old.tx player.new.tx };
}

/// Calls that go to the memory at once.
pub struct DirectCalls;

impl MemoryCalls for DirectCalls {
    ghost asked = { λ _ _ _ _ _. Unit {0} };

    ghost left = { λ _ _. Unit {0} };

    fn ask(memory: &(dyn Tm + Sync), player: &mut Player, call: Kind, _writer: &Writer) -> Kind {
        player.ask(memory, call)
    }

    fn leave(memory: &(dyn Tm + Sync), player: &mut Player) {
        memory.abort(&mut player.tx);
    }
}
