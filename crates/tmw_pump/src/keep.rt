//! What is kept of the events that are judged.
ghost use Rattle.std.specs.Prelude.{◌≡◌, ◌<◌, ◌^◌, ◌∷◌, ◌++◌, [], List, IfOk, length};
ghost use Rattle.tmw_pump.specs.Front.{KeepsFit, judged_of, monitor_of};
ghost use Rattle.tmw_pump.specs.Keep.{StaysKept};

use crate::front::Front;
use std::alloc::AllocError;
use tmw_events::Event;
use tmw_monitor::Monitor;

/// What is kept of a history beside the monitor that judges it.
pub trait Keep: Drop {
    ghost use Rattle.std.specs.Prelude.{◌≡◌, List, [], ◌∷◌, ◌++◌, IfOk, OnErr};
    ghost use Rattle.tmw_defs.specs.Verdict.{Rules};
    ghost use Rattle.tmw_defs.specs.declared.verdict.Verdict.{Verdict};
    ghost use Rattle.tmw_events.specs.declared.event.Event.{Event};
    ghost use Rattle.tmw_monitor.specs.declared.monitor.Monitor.{Monitor};
    ghost use Rattle.tmw_pump.specs.Keep.{KeepsOne};

    /// What the next event does with what is kept.
    type Next: Drop;

    /// By these rules, this is what is kept of a history with this verdict.
    ghost keeps: { Rules → List Event → Verdict → Self → Type 0 };
    /// There is room for the event that this monitor takes next, which does this with what is kept.
    ghost awaits: { Monitor → Self.Next → Self → Type 0 };
    /// Room may be refused.
    ghost refuses: { Type 0 };

    /// Makes room for the event that the monitor takes next, and returns what it does with what is kept.
    fn make_room(&mut self, monitor: &Monitor) -> Result<Self::Next, AllocError>
        ensures same { (rules : Rules) (history : List Event) (verdict : Verdict)
            → keeps rules history verdict self.old
            → keeps rules history verdict self.new }
        ensures room { IfOk result (λ next. awaits monitor.now next self.new) }
        ensures refused { OnErr result refuses };

    /// Keeps the event that the monitor has taken, for which there is room.
    fn take(&mut self, next: Self::Next, event: Event)
        requires { (monitor : Monitor) × awaits monitor next self.old }
        ensures { KeepsOne keeps awaits next event self.old self.new };
}

/// Nothing.
impl Keep for () {
    type Next = ();

    ghost keeps = { λ _ _ _ _. Unit {0} };

    ghost awaits = { λ _ _ _. Unit {0} };

    ghost refuses = { ⊥ };

    fn make_room(&mut self, _monitor: &Monitor) -> Result<(), AllocError> {
        Ok(())
    }

    fn take(&mut self, _next: (), _event: Event) {}
}

/// The whole log.
impl Keep for Vec<Event> {
    ghost use Rattle.std.specs.Prelude.{◌<◌, length};
    ghost use Rattle.std.specs.Vec.{vec_capacity};

    type Next = ();

    ghost keeps = { λ _ history _ log. log.items ≡ history };

    ghost awaits = { λ _ _ log. length log.items < vec_capacity log };

    ghost refuses = { Unit {0} };

    fn make_room(&mut self, _monitor: &Monitor) -> Result<(), AllocError> {
        self.reserve(1)?;
        Ok(())
    }

    fn take(&mut self, _next: (), event: Event) {
        self.push_reserved(event);
    }
}

/// Judges the next event, and keeps of it what is kept, for which there is room.
pub(crate) fn judge_next<K: Keep>(front: &mut Front, kept: &mut K, next: K::Next, event: Event)
    requires few { length (judged_of front.old) < 2 ^ 40 }
    requires room { K.awaits (monitor_of front.old) next kept.old }
    ensures fits { KeepsFit front.old front.new }
    ensures kept { StaysKept K.keeps front.old front.new kept.old kept.new }
    ensures judged { judged_of front.new ≡ judged_of front.old ++ event ∷ [] }
{
    front.judge(event);
    kept.take(next, event);
}
