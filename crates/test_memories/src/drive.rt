//! What the contract leaves open: that there is memory, which calls the memory gets, and that workloads are driven as their
//! readers expect.
use crate::call_counter::{CallCounter, is_two_sevens};
use crate::workload_log::{has_recorded, told};
use std::alloc::Global;
use test_support::FIRST;
use tmw_drive::{DriveFault, Ending, Outcome, drive};
use tmw_events::{Kind, Registers};
use tmw_memories::NoRec;
use tmw_monitor::Bounds;
use tmw_tm::{Did, Tm};

mod marking;

use marking::Marking;

const ONE: Registers = Registers { number: 1 };

pub const WIDEST: Bounds = Bounds {
    window: 8,
    states: 64,
};

/// What this memory makes of the workload of this text.
fn driven(alloc: Global, memory: &(dyn Tm + Sync), text: &str) -> Option<Outcome> {
    let workload = told(alloc, text)?;
    drive(alloc, memory, &workload, WIDEST).ok()
}

/// Whether this workload is driven so, over a memory that begins transactions or not, and gets so many calls.
fn is_driven(
    alloc: Global,
    text: &str,
    at_begin: Did,
    log: &[Kind],
    end: Ending,
    counts: [u64; 6],
) -> bool {
    let memory = CallCounter::new(at_begin, Did::Done, 0);
    let Some(outcome) = driven(alloc, &memory, text) else {
        return false;
    };
    has_recorded(outcome.log.as_slice(), log)
        && outcome.ends.as_slice() == [end].as_slice()
        && memory.counts() == counts
}

#[test]
fn each_call_is_made_once(rt: HostRuntime) {
    let text = r#"{"order": [0, 0, 0], "registers": 1, "scripts": [[["R 0", "R 0", "T"]]]}"#;
    let memory = CallCounter::new(Did::Done, Did::Done, 7);
    let outcome = driven(rt.alloc(), &memory, text);
    assert!(rt; outcome.is_some_and(|it| is_two_sevens(&it)));
    assert_eq!(rt; memory.counts(), [1, 2, 0, 0, 1, 0]);
}

/// An order that runs out leaves a transaction open, no call is made in one that did not begin, and an abort request reaches one that
/// did.
#[test]
fn each_call_of_a_begun_transaction_is_made(rt: HostRuntime) {
    let left = r#"{"order": [0], "registers": 1, "scripts": [[["R 0", "T"]]]}"#;
    let text = r#"{"order": [0, 0, 0], "registers": 1, "scripts": [[["R 0", "X"], ["X"]]]}"#;
    let begun = [
        Kind::R(FIRST),
        Kind::V(0),
        Kind::X,
        Kind::A,
        Kind::X,
        Kind::A,
    ];
    let refused = [Kind::R(FIRST), Kind::A, Kind::X, Kind::A];
    let right = [
        is_driven(
            rt.alloc(),
            left,
            Did::Done,
            &begun[..2],
            Ending::Left,
            [1, 1, 0, 0, 0, 0],
        ),
        is_driven(
            rt.alloc(),
            text,
            Did::Done,
            &begun,
            Ending::Done,
            [2, 1, 0, 0, 0, 2],
        ),
        is_driven(
            rt.alloc(),
            text,
            Did::Abort,
            &refused,
            Ending::Done,
            [2, 0, 0, 0, 0, 0],
        ),
    ];
    assert_eq!(rt; right, [true; 3]);
}

#[test]
fn each_transaction_has_a_new_tx(rt: HostRuntime) {
    let text =
        r#"{"order": [0, 0, 0, 0], "registers": 1, "scripts": [[["R 0", "T"], ["W 0 1", "T"], ["W 0 1", "X"]]]}"#;
    let outcome = driven(rt.alloc(), &Marking { registers: ONE }, text);
    let write = Kind::W(FIRST, 1);
    let log = [
        Kind::R(FIRST),
        Kind::A,
        write,
        Kind::K,
        Kind::T,
        Kind::C,
        write,
        Kind::K,
    ];
    assert!(rt; outcome.is_some_and(|it| has_recorded(it.log.as_slice(), &log)));
}

/// A reader and a writer of two registers.
const TWO_REGISTERS: &str =
    r#"{"registers":2,"scripts":[[["R 0","R 1","T"]],[["W 0 1","W 1 1","T"]]],"order":[0,1,1,1,0,0]}"#;

/// Whether the memory has too few registers for this workload.
fn lacks_registers(alloc: Global, memory: &(dyn Tm + Sync)) -> bool {
    let Some(workload) = told(alloc, TWO_REGISTERS) else {
        return false;
    };
    drive(alloc, memory, &workload, WIDEST).err() == Some(DriveFault::Registers)
}

#[test]
fn a_memory_may_lack_registers(rt: HostRuntime) {
    let memory = CallCounter::new(Did::Done, Did::Done, 7);
    assert!(rt; lacks_registers(rt.alloc(), &NoRec::new(ONE)));
    assert!(rt; lacks_registers(rt.alloc(), &memory));
    assert_eq!(rt; memory.counts(), [0; 6]);
}
