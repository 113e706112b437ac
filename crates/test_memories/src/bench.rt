//! What the contract leaves open: that there are memory and threads, which calls the memory gets, that threads work at once and are
//! judged meanwhile, and that a thread stops only where its ring lacks room.
ghost use Rattle.std.specs.Prelude.{◌≤◌};

use std::sync::Wait;
use std::test::Fail;
use std::thread::Threads;
use test_support::FIRST;
use tmw_bench::{BenchFault, Settings, run_bench};
use tmw_command::ends_text;
use tmw_defs::Verdict;
use tmw_drive::{Ending, Outcome};
use tmw_events::Kind;
use tmw_monitor::Bounds;
use tmw_ring::{Refused, RingFault};
use tmw_tm::{Did, Tm};

mod at_once;
mod barrier_memories;
mod progress;

use crate::call_counter::{CallCounter, is_two_sevens};
use crate::workload_log::{has_recorded, told};

/// How often a record is tried if no thread is to stop.
const PATIENT: u64 = 1_000_000_000;

const WRITES: &str = r#"{"order": [], "registers": 1, "scripts": [[["W 0 5", "T"]]]}"#;

const TWO_READ: &str =
    r#"{"order": [], "registers": 2, "scripts": [[["R 0", "T"]], [["R 1", "T"]]]}"#;

/// Settings for short runs.
const fn settings(cells: u64, limit: u64, patience: u64, rounds: u64) -> Settings
    requires some { 1 ≤ rounds }
    requires few { rounds ≤ 1000000000 }
{
    Settings {
        cells,
        limit,
        patience,
        rounds,
        bounds: Bounds {
            window: 8,
            states: 64,
        },
    }
}

/// The log of a thread that writes and then commits.
const COMMITTED: [Kind; 4] = [Kind::W(FIRST, 5), Kind::K, Kind::T, Kind::C];

/// The log of a thread that writes and then asks for an abort.
const ABORTED: [Kind; 4] = [Kind::W(FIRST, 5), Kind::K, Kind::X, Kind::A];

const ABORTS: &str = r#"{"order": [], "registers": 1, "scripts": [[["W 0 5", "X"]]]}"#;

const TWO_WRITE: &str =
    r#"{"order": [], "registers": 1, "scripts": [[["W 0 5", "T"], ["W 0 5", "T"]]]}"#;

/// What comes of this workload over the memory, unless there is no memory or thread.
fn run(
    rt: &(impl Threads + Wait + Sync + AllocGlobal),
    memory: &(dyn Tm + Sync),
    text: &str,
    settings: Settings,
) -> Option<Outcome> {
    let workload = told(rt.alloc(), text)?;
    let benched = run_bench(rt, rt.alloc(), memory, &workload, settings).ok()?;
    Some(benched.outcome)
}

/// Returns the end of a thread that finds all of so many places claimed.
const fn spent(places: u64) -> Ending {
    Ending::Stopped(Refused::Spent { tail: places })
}

/// Whether a thread of this workload, with so many places of this log, ends so, after so many commits and aborts.
fn stops(
    rt: &(impl Threads + Wait + Sync + AllocGlobal),
    text: &str,
    at_commit: Did,
    log: [Kind; 4],
    places: u64,
    end: Ending,
    ended: [u64; 2],
) -> bool
    requires { places ≤ 4 }
{
    let memory = CallCounter::new(Did::Done, at_commit, 7);
    let Some(outcome) = run(rt, &memory, text, settings(4, places, 1_000_000, 1)) else {
        return false;
    };
    has_recorded(outcome.log.as_slice(), &log[..places as usize])
        && outcome.verdict == Verdict::OpaqueSoFar
        && outcome.ends.as_slice() == [end].as_slice()
        && memory.counts() == [1, 0, 1, 0, ended[0], ended[1]]
}

/// A transaction is aborted in which the thread was stopped, and no other: none that the memory has ended, and none that has not begun.
#[test]
fn a_thread_stops_where_the_places_are_spent(rt: HostRuntime) {
    let right = [
        stops(&rt, WRITES, Did::Done, COMMITTED, 1, spent(1), [0, 1]),
        stops(&rt, WRITES, Did::Done, COMMITTED, 2, spent(2), [0, 1]),
        stops(&rt, WRITES, Did::Done, COMMITTED, 3, spent(3), [1, 0]),
        stops(&rt, WRITES, Did::Done, COMMITTED, 4, Ending::Done, [1, 0]),
        stops(&rt, WRITES, Did::Abort, COMMITTED, 3, spent(3), [1, 0]),
        stops(&rt, TWO_WRITE, Did::Done, COMMITTED, 4, spent(4), [1, 0]),
        stops(&rt, ABORTS, Did::Done, ABORTED, 3, spent(3), [0, 1]),
    ];
    assert_eq!(rt; right, [true; 7]);
}

#[test]
fn a_spent_end_has_its_word(rt: HostRuntime) -> Result<(), Fail> {
    let line = ends_text(rt.alloc(), &[spent(2)])?;
    assert_eq!(rt; line.as_str(), "{\"ends\":[\"spent\"]}\n");
    Ok(())
}

/// Whether a bench of this workload with so many places has this fault, and has made no call.
fn is_refused(
    rt: &(impl Threads + Wait + Sync + AllocGlobal),
    text: &str,
    places: u64,
    fault: BenchFault,
) -> bool {
    let memory = CallCounter::new(Did::Done, Did::Done, 7);
    let Some(workload) = told(rt.alloc(), text) else {
        return false;
    };
    let settings = settings(8, places, PATIENT, 1);
    let benched = run_bench(rt, rt.alloc(), &memory, &workload, settings);
    benched.err() == Some(fault) && memory.counts() == [0; 6]
}

#[test]
fn no_call_is_made_without_places_or_registers(rt: HostRuntime) {
    let bad_limit = BenchFault::Ring(RingFault::BadLimit);
    assert!(rt; is_refused(&rt, WRITES, 0, bad_limit));
    assert!(rt; is_refused(&rt, TWO_READ, 1_000, BenchFault::Registers));
}

#[test]
fn each_call_is_made_once(rt: HostRuntime) {
    let text = r#"{"order": [], "registers": 1, "scripts": [[["R 0", "R 0", "T"]]]}"#;
    let memory = CallCounter::new(Did::Done, Did::Done, 7);
    let outcome = run(&rt, &memory, text, settings(16, 1 << 40, 1_000_000, 1));
    assert!(rt; outcome.is_some_and(|it| is_two_sevens(&it)));
    assert_eq!(rt; memory.counts(), [1, 2, 0, 0, 1, 0]);
}

/// Whether a thread that writes and commits over one cell and tries each record once is done; nothing if it is neither that nor stopped
/// before its end by a full ring.
fn try_once(rt: &(impl Threads + Wait + Sync + AllocGlobal)) -> Option<bool> {
    let memory = CallCounter::new(Did::Done, Did::Done, 7);
    let outcome = run(rt, &memory, WRITES, settings(1, 1_000, 1, 1))?;
    match outcome.ends.first()? {
        Ending::Done => (outcome.log.len() == 4).then_some(true),
        Ending::Stopped(Refused::Full { front, tail }) => {
            (front < tail && outcome.log.len() < 4).then_some(false)
        }
        _ => None,
    }
}

/// A ring of one cell is full, in some run at least, before what is in it was judged.
#[test]
fn a_thread_of_a_small_ring_is_done_or_stopped(rt: HostRuntime) {
    let mut is_full = false;
    for _ in 0..1_000 {
        match try_once(&rt) {
            Some(done) => is_full = is_full || !done,
            None => panic!(rt; "neither done nor stopped by a full ring"),
        }
    }
    assert!(rt; is_full);
}
