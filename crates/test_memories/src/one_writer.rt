//! A memory of a user's own, passed in and driven.
use crate::drive::WIDEST;
use example_one_writer::OneWriter;
use std::alloc::Global;
use test_support::FIRST;
use tmw_defs::Verdict;
use tmw_drive::{Outcome, drive};
use tmw_events::Registers;
use tmw_tm::{Did, Got, Tm, Tx};
use tmw_workloads::read_workload;

/// What the memory makes of the workload of this text.
fn driven(alloc: Global, memory: &OneWriter, text: &str) -> Option<Outcome> {
    let workload = read_workload(alloc, text.as_bytes()).ok()?;
    drive(alloc, memory, &workload, WIDEST).ok()
}

/// What a transaction of one read is answered. What the memory gives leaves its commit no other answer, so that is proved.
fn load(memory: &OneWriter) -> Got {
    let mut tx = Tx::new();
    memory.begin(&mut tx);
    let got = memory.read(&mut tx, FIRST);
    match memory.commit(&mut tx) {
        Did::Done => got,
        Did::Abort => unreachable!(),
    }
}

/// Whether a workload of this text is opaque, has so many events, and leaves this value in the first register.
fn leaves(alloc: Global, text: &str, events: usize, value: u64) -> bool {
    let memory = OneWriter::new(Registers { number: 2 });
    let Some(outcome) = driven(alloc, &memory, text) else {
        return false;
    };
    outcome.verdict == Verdict::OpaqueSoFar
        && outcome.log.len() == events
        && load(&memory) == Got::Value(value)
}

const READER: &str =
    r#"{"registers":2,"scripts":[[["R 0","R 1","T"]],[["W 0 1","W 1 1","T"]]],"order":[0,1,1,1,0,0]}"#;

const ADDS: &str =
    r#"{"registers":1,"scripts":[[["N 0 2","T"]],[["N 0 1","T"]]],"order":[0,1,0,1]}"#;

const ABORTS: &str =
    r#"{"registers":1,"scripts":[[["W 0 1","X"]],[["W 0 2","W 0 2","W 0 2","W 0 2","W 0 2","W 0 2","W 0 2","W 0 2","W 0 2","W 0 2","W 0 2","W 0 2","W 0 2","W 0 2","W 0 2","W 0 2","W 0 2","T"],["N 0 3","T"]]],"order":[0,0,1,1,1,1,1,1,1,1,1,1,1,1,1,1,1,1,1,1,1]}"#;

/// A reader aborts when another has committed, and the second of two who write. After an abort others write: after a request, after
/// the seventeenth write.
#[test]
fn overtaken_transactions_abort(rt: HostRuntime) {
    assert!(rt; leaves(rt.alloc(), READER, 10, 1));
    assert!(rt; leaves(rt.alloc(), ADDS, 6, 2));
    assert!(rt; leaves(rt.alloc(), ABORTS, 42, 3));
}
