//! Threads work at once, and record each call before they make it, and its answer behind it.
use super::barrier_memories::{Overtaken, Waiting};
use super::*;

/// Whether each of two threads has made its transaction of two calls, none of which was answered by an abort.
fn are_done(outcome: &Outcome) -> bool {
    outcome.ends.as_slice() == [Ending::Done, Ending::Done].as_slice()
        && outcome.log.len() == 8
        && outcome.log.iter().all(|event| event.kind != Kind::A)
}

#[test]
fn threads_work_at_once(rt: HostRuntime) {
    let outcome = run(
        &rt,
        &Waiting::new(),
        TWO_READ,
        settings(8, 1_000, PATIENT, 1),
    );
    assert!(rt; outcome.is_some_and(|it| are_done(&it)));
}

/// Two threads make the same transaction twice each: here one that reads.
const TWICE_READS: &str =
    r#"{"order":[],"registers":1,"scripts":[[["R 0","T"],["R 0","T"]],[["R 0","T"],["R 0","T"]]]}"#;

const TWICE_WRITES: &str =
    r#"{"order":[],"registers":1,"scripts":[[["W 0 0","T"],["W 0 0","T"]],[["W 0 0","T"],["W 0 0","T"]]]}"#;

const TWICE_ADDS: &str =
    r#"{"order":[],"registers":1,"scripts":[[["N 0 0","T"],["N 0 0","T"]],[["N 0 0","T"],["N 0 0","T"]]]}"#;

const TWICE_COMMITS: &str = r#"{"order":[],"registers":1,"scripts":[[["T"],["T"]],[["T"],["T"]]]}"#;

const TWICE_ABORTS: &str = r#"{"order":[],"registers":1,"scripts":[[["X"],["X"]],[["X"],["X"]]]}"#;

/// Whether the log of two threads begins so, and has so many events.
fn begins(
    rt: &(impl Threads + Wait + Sync + AllocGlobal),
    text: &str,
    holds_begin: bool,
    kinds: [Kind; 4],
    events: usize,
) -> bool {
    let memory = Overtaken::new(holds_begin);
    let Some(outcome) = run(rt, &memory, text, settings(8, 1_000, PATIENT, 1)) else {
        return false;
    };
    let mut begin = outcome.log.iter().zip(kinds);
    outcome.log.len() == events && begin.all(|(event, kind)| event.kind == kind)
}

/// One thread's first call is held in the memory until the other thread has made two. So the log begins with the first calls of
/// both, and goes on with the other thread's answer and its next call.
#[test]
fn the_log_has_the_order_of_calls_and_answers(rt: HostRuntime) {
    let read = [Kind::R(FIRST), Kind::R(FIRST), Kind::V(0), Kind::T];
    let write = [Kind::W(FIRST, 0), Kind::W(FIRST, 0), Kind::K, Kind::T];
    let add = [Kind::N(FIRST, 0), Kind::N(FIRST, 0), Kind::V(0), Kind::T];
    let commit = [Kind::T, Kind::T, Kind::C, Kind::T];
    let abort = [Kind::X, Kind::X, Kind::A, Kind::X];
    let right = [
        begins(&rt, TWICE_READS, true, read, 16),
        begins(&rt, TWICE_READS, false, read, 16),
        begins(&rt, TWICE_WRITES, false, write, 16),
        begins(&rt, TWICE_ADDS, false, add, 16),
        begins(&rt, TWICE_COMMITS, false, commit, 8),
        begins(&rt, TWICE_ABORTS, false, abort, 8),
    ];
    assert_eq!(rt; right, [true; 6]);
}
