//! What the contract of a worker leaves open: that a thread stops where its ring lets it.
use crate::call_counter::CallCounter;
use std::alloc::Global;
use test_support::FIRST;
use tmw_bench::{DirectCalls, Signals, work};
use tmw_events::Kind;
use tmw_ring::{Refused, ring};
use tmw_tm::Did;

/// Where a thread stops that writes 5 and asks to commit, over a ring of one cell that nobody pumps, or ever will.
fn stop_of(alloc: Global, memory: &CallCounter, patience: u64, will_pump: bool) -> Option<Refused> {
    let signals = Signals::new();
    if !will_pump {
        signals.give_up();
    }
    let (ring, mut writers, _reader) = ring(alloc, 1, 1, 100).ok()?;
    let script = [vec![in alloc; Kind::W(FIRST, 5), Kind::T].ok()?];
    work::<DirectCalls>(memory, &ring, &mut writers[0], &script, patience, &signals)
}

/// Whether it stops where it finds the ring full, and aborts its transaction.
fn stops(alloc: Global, patience: u64, will_pump: bool) -> bool {
    let memory = CallCounter::new(Did::Done, Did::Done, 7);
    stop_of(alloc, &memory, patience, will_pump) == Some(Refused::Full { front: 0, tail: 1 })
        && memory.counts() == [1, 0, 1, 0, 0, 1]
}

#[test]
fn a_thread_stops_where_nobody_pumps(rt: HostRuntime) {
    let right = [
        stops(rt.alloc(), 0, true),
        stops(rt.alloc(), 1, true),
        stops(rt.alloc(), 1_000, true),
        stops(rt.alloc(), u64::MAX, false),
    ];
    assert_eq!(rt; right, [true; 4]);
}
