//! What the contracts leave open, and no command line reaches: when a lock is free again, and what two threads at once have counted.
use example_one_writer::OneWriter;
use std::process::Abort;
use std::sync::Wait;
use std::thread;
use std::thread::Threads;
use test_support::{FIRST, SECOND};
use tmw_events::{Ix, Registers};
use tmw_memories::{GlobalLock, NoRec, Torn};
use tmw_tm::{Did, Got, Tm, Tx};

const ONE: Registers = Registers { number: 1 };

const TWO: Registers = Registers { number: 2 };

/// How many transactions each of two threads makes.
const EACH: u64 = 20_000;

/// A transaction, which has begun where the memory could begin it.
fn start(memory: &(dyn Tm + Sync)) -> Tx {
    let mut tx = Tx::new();
    memory.begin(&mut tx);
    tx
}

/// What a transaction of this one read is answered.
fn load(memory: &(dyn Tm + Sync), register: Ix) -> Got {
    let mut tx = start(memory);
    let got = memory.read(&mut tx, register);
    memory.commit(&mut tx);
    got
}

/// Ends a transaction of a memory of one register in the way of this number, and returns whether that was by an abort.
fn is_aborted_by(memory: &(dyn Tm + Sync), tx: &mut Tx, way: u64) -> bool {
    match way {
        0 => memory.read(tx, SECOND) == Got::Abort,
        1 => memory.write(tx, SECOND, 1) == Did::Abort,
        2 => memory.add(tx, SECOND, 1) == Got::Abort,
        3 => memory.begin(tx) == Did::Abort,
        _ => {
            memory.abort(tx);
            memory.abort(tx);
            memory.commit(tx) == Did::Abort
        }
    }
}

/// Whether an abort in each way leaves nothing of a write, and the next transaction begins.
fn begins_after_aborts(memory: &(dyn Tm + Sync)) -> bool {
    (0..5).all(|way| {
        let mut tx = start(memory);
        memory.write(&mut tx, FIRST, 1) == Did::Done
            && is_aborted_by(memory, &mut tx, way)
            && load(memory, FIRST) == Got::Value(0)
    })
}

#[test]
fn each_abort_releases_the_lock(rt: HostRuntime) {
    assert!(rt; begins_after_aborts(&GlobalLock::new(ONE)));
    assert!(rt; begins_after_aborts(&NoRec::new(ONE)));
}

/// A transaction that holds no lock frees none.
#[test]
fn only_its_holder_frees_the_lock(rt: HostRuntime) {
    let memory = GlobalLock::new(ONE);
    let mut holder = start(&memory);
    let mut other = Tx::new();
    memory.abort(&mut other);
    let refused = [memory.commit(&mut other), memory.begin(&mut other)];
    let done = [memory.commit(&mut holder), memory.begin(&mut other)];
    assert_eq!(rt; refused, [Did::Abort; 2]);
    assert_eq!(rt; done, [Did::Done; 2]);
}

/// Whether a transaction that adds 1 to both registers was committed.
fn add_to_both(memory: &(dyn Tm + Sync)) -> bool {
    let mut tx = start(memory);
    memory.add(&mut tx, FIRST, 1) != Got::Abort
        && memory.add(&mut tx, SECOND, 1) != Got::Abort
        && memory.commit(&mut tx) == Did::Done
}

/// How many of the transactions were committed.
fn add_often(memory: &(dyn Tm + Sync)) -> u64 {
    let mut done = 0u64;
    for _ in 0..EACH {
        if add_to_both(memory) {
            done = done.saturating_add(1);
        }
    }
    done
}

/// How many transactions were committed by two threads at once.
fn add_together(rt: &(impl Threads + Wait + Sync), memory: &(dyn Tm + Sync)) -> Option<u64> {
    thread::scope(thread::scope_env(), rt, move |scope| -> Option<u64> {
        let other = scope.spawn(move || -> u64 { add_often(memory) }).ok()?;
        let own = add_often(memory);
        Some(own.saturating_add(other.join(rt)))
    })
}

/// Nothing is lost where the memory is opaque, and both registers tell the same.
fn count_all(rt: &(impl Threads + Wait + Sync + Abort), memory: &(dyn Tm + Sync)) {
    let done = add_together(rt, memory).unwrap_or(0);
    assert!(rt; done > 0);
    assert_eq!(rt;
        [load(memory, FIRST), load(memory, SECOND)],
        [Got::Value(done); 2]
    );
}

/// `Torn` refuses nobody, and may lose what others have added.
#[test]
fn two_threads_lose_nothing(rt: HostRuntime) {
    count_all(&rt, &NoRec::new(TWO));
    count_all(&rt, &GlobalLock::new(TWO));
    count_all(&rt, &OneWriter::new(TWO));
    assert_eq!(rt; add_together(&rt, &Torn::new(TWO)), Some(2 * EACH));
}
