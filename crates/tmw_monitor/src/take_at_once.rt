//! The way that most events take: few steps, no search and no memory.
ghost use Rattle.tmw_monitor.specs.Shared.{Answer, Begin, Bounds, End, Event, IsNext, StandsFor, views_of};
ghost use Rattle.std.specs.Prelude.{IsFalse, IsTrue, List, ◌≡◌};
ghost use Rattle.tmw_events.specs.declared.event.Kind.TheVariants.{V};
ghost use Rattle.tmw_defs.specs.declared.op.Op.TheVariants.{Add};
ghost use Rattle.tmw_search.specs.OneEnd.{AreForcedWith};
ghost use Rattle.tmw_monitor.specs.TakeAtOnce.{StaysFine, StaysKept};

use crate::history_digest::HistoryDigest;
use tmw_cuts::{Move, Window};
use tmw_defs::Op;
use tmw_events::{Event, Ix, Kind};
use tmw_options::Bounds;
use tmw_search::is_forced_with;

/// Takes the next event if it begins a transaction for which the window has room, or if the serial order that is kept explains it: by no
/// criterion is anything wrong with it then. At a cut there has to be one outcome before, from which the transactions, the ending one as
/// committed, force one end. Else it returns `false`, and what is kept is of the history without it. It is inlined into the reading of
/// each kind of line.
#[inline(always)]
pub fn take_at_once(kept: &mut HistoryDigest, bounds: &Bounds, event: Event) -> bool
    ensures taken { IsTrue result → StaysFine bounds.now event kept.old kept.new }
    ensures left { IsFalse result → StaysKept kept.old kept.new }
{
    match kept.window.next(event) {
        Ok(Move::Begin) => begin_at_once(kept, bounds, event),
        Ok(Move::Ask(place)) => {
            if !kept.witness.is_known() {
                return false;
            }
            kept.window.ask(event, place);
            true
        }
        // Adds are rare: the steps of reads and writes have nothing of them.
        Ok(Move::Answer(place, Op::Add(register, added, answer))) => {
            add_at_once(kept, event.thread, place, register, added, answer)
        }
        Ok(Move::Answer(place, op)) => answer_at_once(kept, event, place, op),
        Ok(Move::End(place)) => end_at_once(kept, event, place),
        Err(_) => false,
    }
}

/// Takes at once an event that begins a transaction, if the window has room.
#[inline(always)]
fn begin_at_once(kept: &mut HistoryDigest, bounds: &Bounds, event: Event) -> bool
    requires next { IsNext kept.old.window event Begin }
    ensures taken { IsTrue result → StaysFine bounds.now event kept.old kept.new }
    ensures left { IsFalse result → kept.new ≡ kept.old }
{
    if kept.window.count() >= bounds.window {
        return false;
    }
    let place = kept.window.begin(event);
    kept.witness.begin(place);
    true
}

/// Takes at once an answer, which makes this operation, if the serial order that is kept explains it.
#[inline(always)]
fn answer_at_once(kept: &mut HistoryDigest, event: Event, place: Ix, op: Op) -> bool
    requires next { IsNext kept.old.window event (Answer place op) }
    ensures taken { IsTrue result → (bounds : Bounds)
        → StaysFine bounds event kept.old kept.new }
    ensures left { IsFalse result → kept.new ≡ kept.old }
{
    if !kept.witness.explains_answer(&kept.window, event, place, op) {
        return false;
    }
    kept.window.answer(event, place, op);
    true
}

/// Takes at once the thread's answer to an add, if the serial order that is kept explains it. It is called with the event's parts, since
/// the event is no value in memory.
#[inline(never)]
fn add_at_once(
    kept: &mut HistoryDigest,
    thread: Ix,
    place: Ix,
    register: Ix,
    added: u64,
    answer: u64,
) -> bool
    requires next { IsNext kept.old.window (record { thread = thread; kind = V answer })
        (Answer place (Add register added answer)) }
    ensures taken { IsTrue result → (bounds : Bounds)
        → StaysFine bounds (record { thread = thread; kind = V answer }) kept.old kept.new }
    ensures left { IsFalse result → kept.new ≡ kept.old }
{
    let event = Event {
        thread,
        kind: Kind::V(answer),
    };
    answer_at_once(kept, event, place, Op::Add(register, added, answer))
}

/// Returns `true` only if the window's transactions, the one at the place as committed, force one end from each state.
#[inline(always)]
fn has_one_end(window: &Window, place: Ix) -> bool
    ensures { IsTrue result → (events : List Event) → StandsFor window.now events
        → AreForcedWith place.number (views_of events) }
{
    // Most windows have one transaction: they need no call.
    window.count() == 1 || is_forced_with(window.transactions(), place)
}

/// Takes at once an event that ends a transaction, if the serial order that is kept explains it. At a cut, where one end is forced from the
/// only outcome before, the order leads to the only outcome.
#[inline(always)]
fn end_at_once(kept: &mut HistoryDigest, event: Event, place: Ix) -> bool
    requires next { IsNext kept.old.window event (End place) }
    ensures taken { IsTrue result → (bounds : Bounds)
        → StaysFine bounds event kept.old kept.new }
    ensures left { IsFalse result → StaysKept kept.old kept.new }
{
    kept.witness.hold_pending(&kept.window, event, place);
    if !kept.witness.explains_end(&kept.window, event, place) {
        return false;
    }
    if !kept.window.is_cut_with(place) {
        kept.window.end(event, place);
        return true;
    }
    if kept.states.len() != 1 {
        return false;
    }
    if !has_one_end(&kept.window, place) {
        return false;
    }
    let Some(end) = kept.witness.known_end() else {
        return false;
    };
    kept.states.put_only(end);
    kept.witness.restart_at_end();
    kept.window.end(event, place);
    kept.window.clear();
    true
}
