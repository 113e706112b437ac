//! The command `drive` where a growth of memory is refused.
use tmw_command::{RunOptions, run_drive};
use tmw_events::Registers;
use tmw_memories::NoRec;
use tmw_monitor::Bounds;
use tmw_streams::{MemorySource, StdSink};

const OPAQUE: u8 = 0;

const FAULT: u8 = 4;

/// A reader and a writer of two registers, which overlap.
const OVERLAPPING: &[u8] =
    b"{\"registers\":2,\"scripts\":[[[\"R 0\",\"R 1\",\"T\"]],[[\"W 0 1\",\"W 1 1\",\"T\"]]],\"order\":[0,1,1,1,0,0]}";

const REPORT: &[u8] = b"{\"events\":10,\"verdict\":\"opaque so far\"}\n";

const NO_MEMORY: &[u8] = b"{\"fault\":\"memory\"}\n---------------------";

/// Drives the workload over a new memory. The answer goes to a std writer, which takes no memory.
fn drive_into(rt: &impl AllocGlobal, room: &mut [u8]) -> u8 {
    let memory = NoRec::new(Registers { number: 8 });
    let bounds = Bounds {
        window: 8,
        states: 64,
    };
    let mut source = MemorySource::new(OVERLAPPING);
    let mut sink = StdSink::new(room);
    let written = RunOptions {
        trace: false,
        trace_only: false,
        summary: false,
    };
    run_drive(rt.alloc(), &mut source, &mut sink, &memory, written, bounds)
}

/// It passes also if the growth of memory that `rt try --test --fail-alloc` chooses is refused.
#[test]
fn a_refused_growth_is_answered_by_drive_with_memory_alone(rt: HostRuntime) {
    let mut room = [b'-'; 40];
    let mut answered = drive_into(&rt, &mut room);
    if answered == FAULT {
        assert_eq!(rt; room.as_slice(), NO_MEMORY);
        room = [b'-'; 40];
        answered = drive_into(&rt, &mut room);
    }
    assert_eq!(rt; room.as_slice(), REPORT);
    assert_eq!(rt; answered, OPAQUE);
}
