//! `judge` and `read_all` after a failed allocation. The tests pass also under `rt try --test --fail-alloc`, which fails one.
use std::test::Fail;
use tmw_defs::Asked;
use tmw_judge::run_judge;
use tmw_monitor::Bounds;
use tmw_streams::{MemorySource, StdSink, read_all};

const VIOLATED: u8 = 1;

const FAULT: u8 = 4;

/// Two writers commit at once, and two readers, one after the other, see them in opposite orders.
const OPPOSITE: &[u8] =
    b"opacity-trace 1 1\n0 W 0 1\n1 W 0 2\n0 K\n1 K\n0 T\n1 T\n0 C\n1 C\n0 R 0\n0 V 2\n0 T\n0 C\n1 R 0\n1 V 1\n";

const REPORT: &[u8] = b"{\"at\":14,\"events\":14,\"verdict\":\"violated\"}\n";

const NO_MEMORY: &[u8] = b"{\"fault\":\"memory\"}\n------------------------";

/// Judges the trace. The answer goes to a std writer, which takes no memory.
fn judge_into(rt: &impl AllocGlobal, room: &mut [u8]) -> u8 {
    let bounds = Bounds {
        window: 8,
        states: 64,
    };
    let mut source = MemorySource::new(OPPOSITE);
    let mut sink = StdSink::new(room);
    run_judge(rt.alloc(), &mut source, &mut sink, bounds, Asked::Opacity)
}

#[test]
fn a_refused_growth_is_answered_by_judge_with_memory_alone(rt: HostRuntime) {
    let mut room = [b'-'; 43];
    let mut answered = judge_into(&rt, &mut room);
    if answered == FAULT {
        assert_eq!(rt; room.as_slice(), NO_MEMORY);
        room = [b'-'; 43];
        answered = judge_into(&rt, &mut room);
    }
    assert_eq!(rt; room.as_slice(), REPORT);
    assert_eq!(rt; answered, VIOLATED);
}

#[test]
fn a_refused_growth_loses_no_byte(rt: HostRuntime) -> Result<(), Fail> {
    const TEXT: &[u8] = &[7; 10_000];
    let mut source = MemorySource::limited(TEXT, 1000, None);
    let mut bytes = Vec::new(rt.alloc());
    if read_all(&mut source, &mut bytes).is_err() {
        read_all(&mut source, &mut bytes)?;
    }
    assert_eq!(rt; bytes.as_slice(), TEXT);
    Ok(())
}
