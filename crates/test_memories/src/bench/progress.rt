//! How far a bench has come, as it tells it.
ghost use Rattle.std.specs.Prelude.{◌≤◌};

use super::*;
use std::array;
use std::sync::atomic::{AtomicU64, Ordering};
use tmw_bench::{Progress, hunt};

/// Adds up what it is told.
#[derive(Drop)]
struct Remembering {
    every: u64,
    sums: [AtomicU64; 5],
}

impl Remembering {
    fn new(every: u64) -> Remembering {
        Remembering {
            every,
            sums: array::from_fn(|_| AtomicU64::new(0)),
        }
    }

    /// The sums of the rounds, of the events and of the unasked aborts that it was told, how often it was told, and how often that it
    /// is over.
    fn remembered(&self) -> [u64; 5] {
        [
            self.sums[0].load(Ordering::SeqCst),
            self.sums[1].load(Ordering::SeqCst),
            self.sums[2].load(Ordering::SeqCst),
            self.sums[3].load(Ordering::SeqCst),
            self.sums[4].load(Ordering::SeqCst),
        ]
    }
}

impl Progress for Remembering {
    fn every(&self) -> u64 {
        self.every
    }

    fn tell(&self, rounds: u64, events: u64, unasked: u64) {
        self.sums[0].fetch_add(rounds, Ordering::SeqCst);
        self.sums[1].fetch_add(events, Ordering::SeqCst);
        self.sums[2].fetch_add(unasked, Ordering::SeqCst);
        self.sums[3].fetch_add(1, Ordering::SeqCst);
    }

    fn end(&self) {
        self.sums[4].fetch_add(1, Ordering::SeqCst);
    }
}

/// In each round two commits are aborted, and another transaction asks for its abort.
const UNASKED: &str =
    r#"{"order": [], "registers": 1, "scripts": [[["T"], ["T"], ["W 0 5", "X"]]]}"#;

/// What is told of a bench of so many rounds and places, each time after so many rounds.
fn tell_of(
    rt: &(impl Threads + Wait + Sync + AllocGlobal),
    every: u64,
    rounds: u64,
    limit: u64,
) -> [u64; 5]
    requires some { 1 ≤ rounds }
    requires few { rounds ≤ 1000000000 }
{
    let progress = Remembering::new(every);
    let memory = CallCounter::new(Did::Done, Did::Abort, 7);
    if let Some(workload) = told(rt.alloc(), UNASKED) {
        let settings = settings(64, limit, PATIENT, rounds);
        let _ = hunt(rt, rt.alloc(), &memory, &workload, settings, &progress);
    }
    progress.remembered()
}

#[test]
fn it_is_told_how_far_a_bench_has_come(rt: HostRuntime) {
    assert_eq!(rt; tell_of(&rt, 3, 3, 1_000), [0, 0, 0, 0, 1]);
    assert_eq!(rt; tell_of(&rt, 3, 7, 1_000), [9, 72, 18, 2, 1]);
    assert_eq!(rt; tell_of(&rt, 0, 3, 1_000), [3, 24, 6, 2, 1]);
    assert_eq!(rt;
        tell_of(&rt, 1, 3, 0),
        [0, 0, 0, 0, 1],
        "of a ring without places"
    );
}
