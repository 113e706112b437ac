//! What a worker waits for between two rounds, and its leader.
ghost use Rattle.tmw_workers.specs.Shared.{SameConsumer, SameProducer, WriterOf, received, sent};
ghost use Rattle.std.specs.Prelude.{◌≡◌, ◌≤◌, [], ◌∷◌, ◌++◌, IfSome, IfNone};
ghost use Rattle.tmw_workers.specs.Worker.{HasSeen};

use crate::orders::Orders;
use crate::rising_count::Count;
use rtrb::{Consumer, Producer, PushError};
use std::sync::Wait;
use std::time::Duration;
use std::{hint, thread};
use tmw_ring::{Ring, Writer};

/// How often a thread looks at once. Then it lets others run before each look, or sleeps.
const SPINS: u64 = 1_000;

/// How often a worker looks whether all have begun a round. Then it works without the others.
const LOOKS: u64 = 2_000;

/// How many microseconds a thread sleeps if nobody wakes it: a ring that becomes full is pumped by then.
const NAP: u64 = 200;

/// Lets some time pass, more after many looks.
pub fn pause(look: u64) {
    if look < SPINS {
        hint::spin_loop();
    } else {
        thread::yield_now();
    }
}

/// Waits a moment, or after many looks until the count has risen or some 200 microseconds have passed.
pub fn wait<R: Wait>(rt: &R, look: u64, on: &Count, count: u64) {
    if look < SPINS {
        hint::spin_loop();
    } else {
        // A thread that only yields would wait for a whole time slice of every other.
        on.sleep(rt, count, Duration::from_micros(NAP));
    }
}

/// Waits until workers have begun a round `begun` times, so that all run at once: not forever, and not if no round is
/// to begin.
pub fn wait_for_all<R: Wait>(rt: &R, orders: &Orders, begun: u64) {
    for look in 0..LOOKS {
        let count = orders.begun.get();
        if count >= begun || orders.is_over() {
            return;
        }
        wait(rt, look, &orders.begun, count);
    }
}

/// Waits until it is told how many places were claimed when the round ended, and returns that. Returns `None` if no
/// further round begins.
pub fn next_bound<R: Wait>(
    rt: &R,
    down: &mut Consumer<u64>,
    tail: u64,
    orders: &Orders,
) -> Option<u64>
    ensures ring { SameConsumer down.old down.new }
    ensures next { IfSome result
        (λ bound. (tail ≤ bound) × (received down.new ≡ received down.old ++ bound ∷ [])) }
    ensures over { IfNone result (received down.new ≡ received down.old) }
{
    let mut look = 0u64;
    for _ in rt.forever() {
        // Asked before the line is looked into, so that the last bound is not missed.
        let told = orders.told.get();
        let over = orders.is_over();
        if down.slots() > 0 {
            // Compared here, so that no clause has to say it of the leader.
            let bound = *down.peek_known();
            if tail <= bound {
                return Some(down.pop_known());
            }
        } else if over {
            return None;
        }
        look = look.saturating_add(1);
        wait(rt, look, &orders.told, told);
    }
    unreachable!()
}

/// Waits until the writer has seen `bound` places claimed.
pub fn see<R: Wait>(rt: &R, ring: &Ring, writer: &mut Writer, bound: u64)
    requires { WriterOf ring.now writer.old }
    ensures { HasSeen bound writer.old writer.new }
{
    let mut look = 0u64;
    for _ in rt.forever() {
        if ring.find_tail(writer) >= bound {
            return;
        }
        look = look.saturating_add(1);
        pause(look);
    }
    unreachable!()
}

/// Sends what it is told, once there is room for it.
pub fn tell<R: Wait, T: Drop>(rt: &R, to: &mut Producer<T>, told: T)
    ensures ring { SameProducer to.old to.new }
    ensures sent { sent to.new ≡ sent to.old ++ told ∷ [] }
{
    let mut told = told;
    let mut look = 0u64;
    for _ in rt.forever() {
        match to.push(told) {
            Ok(()) => return,
            Err(PushError::Full(back)) => told = back,
        }
        look = look.saturating_add(1);
        pause(look);
    }
    unreachable!()
}
