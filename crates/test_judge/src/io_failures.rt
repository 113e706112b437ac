//! `judge` after a failed read or write, at each byte of a text and of a report.
use std::process::Abort;
use tmw_defs::Asked;
use tmw_judge::run_judge;
use tmw_monitor::Bounds;
use tmw_streams::{MemorySink, MemorySource, StdSink};

const OPAQUE: u8 = 0;

const VIOLATED: u8 = 1;

const UNDECIDED: u8 = 2;

const MALFORMED: u8 = 3;

const FAULT: u8 = 4;

/// The widest bounds.
const WIDEST: Bounds = Bounds {
    window: 8,
    states: 64,
};

/// A transaction reads what another, not yet commit-pending, has written.
const DIRTY_READ: &[u8] = b"opacity-trace 1 1\n0 W 0 1\n0 K\n1 R 0\n1 V 1\n0 T\n0 C\n1 T\n1 C\n";

/// Judges a text of which so many bytes are told, a byte a call or all by one call, before a read fails.
fn expect_after(rt: &(impl Abort + AllocGlobal), text: &[u8], told: usize, line: &str) {
    let behind_one = if told == 0 { 1 } else { 2 };
    for (most, fails_at) in [(1, (told as u64).saturating_add(1)), (told, behind_one)] {
        let mut source = MemorySource::limited(text, most, Some(fails_at));
        let mut sink = MemorySink::new(rt.alloc());
        let answered = run_judge(rt.alloc(), &mut source, &mut sink, WIDEST, Asked::Both);
        assert_eq!(rt; sink.bytes(), line.as_bytes(), "after {told} by {most}");
        assert_eq!(rt; answered, FAULT, "after {told} by {most}");
    }
}

#[test]
fn reads_that_fail(rt: HostRuntime) {
    for told in 0..DIRTY_READ.len() + 1 {
        expect_after(&rt, DIRTY_READ, told, "{\"fault\":\"io\"}\n");
    }
    // A line that is bad is answered once it was told to its end, and no read behind it is asked for.
    let bad = b"opacity-trace 1 1\n0 R 01\n0 T\n";
    for told in 0..bad.len() + 1 {
        let line = if told < 25 {
            "{\"fault\":\"io\"}\n"
        } else {
            "{\"fault\":\"bad line\",\"line\":2}\n"
        };
        expect_after(&rt, bad, told, line);
    }
}

/// Texts, with the line that answers each within bounds of two transactions and one outcome, and the exit status.
const ANSWERED: [(&str, &str, u8); 6] = [
    (
        "opacity-trace 1 1\n0 T\n0 C\n",
        "{\"events\":2,\"verdict\":\"opaque so far\"}\n",
        OPAQUE,
    ),
    (
        "opacity-trace 1 1\n0 R 0\n0 V 1\n",
        "{\"at\":2,\"events\":2,\"verdict\":\"violated\"}\n",
        VIOLATED,
    ),
    (
        "opacity-trace 1 1\n0 T\n1 T\n2 T\n",
        "{\"at\":3,\"events\":3,\"verdict\":\"undecided\",\"why\":\"transactions\"}\n",
        UNDECIDED,
    ),
    (
        "opacity-trace 1 1\n0 V 1\n",
        "{\"at\":1,\"events\":1,\"verdict\":\"malformed\"}\n",
        MALFORMED,
    ),
    (
        "opacity-trace 1 1\n?\n",
        "{\"fault\":\"bad line\",\"line\":2}\n",
        FAULT,
    ),
    ("", "{\"fault\":\"bad header\"}\n", FAULT),
];

const NARROW: Bounds = Bounds {
    window: 2,
    states: 1,
};

/// Judges a text. The sink takes a byte a call, and fails after so many.
fn judge_until(rt: &(impl Abort + AllocGlobal), text: &str, sent: usize, line: &[u8]) -> u8 {
    let mut source = MemorySource::new(text.as_bytes());
    let mut sink = MemorySink::limited(rt.alloc(), 1, Some((sent as u64).saturating_add(1)));
    let answered = run_judge(rt.alloc(), &mut source, &mut sink, NARROW, Asked::Opacity);
    assert_eq!(rt; sink.bytes(), line, "after {sent}");
    answered
}

#[test]
fn writes_that_fail(rt: HostRuntime) {
    for (text, line, status) in ANSWERED {
        // The last of these calls is never made.
        for sent in 0..line.len() + 1 {
            let answered = judge_until(&rt, text, sent, &line.as_bytes()[..sent]);
            let want = if sent == line.len() { status } else { FAULT };
            assert_eq!(rt; answered, want, "of {line} after {sent}");
        }
    }
}

/// Judges a text. The answer goes to a std writer, which takes what fits into the room, and then nothing, with no error.
fn judge_into(rt: &impl AllocGlobal, text: &str, room: &mut [u8]) -> u8 {
    let mut source = MemorySource::new(text.as_bytes());
    let mut sink = StdSink::new(room);
    run_judge(rt.alloc(), &mut source, &mut sink, NARROW, Asked::Opacity)
}

#[test]
fn a_write_that_takes_nothing_has_failed(rt: HostRuntime) {
    for (text, line, status) in ANSWERED {
        for size in 0..line.len() + 1 {
            let mut bytes = [b'-'; 100];
            let Some(room) = bytes.get_mut(..size) else {
                panic!(rt; "{line} is longer than 100 bytes");
            };
            let answered = judge_into(&rt, text, room);
            let sent = &line.as_bytes()[..size];
            assert!(rt; bytes.starts_with(sent), "of {line} in {size}: {bytes:?}");
            let want = if size == line.len() { status } else { FAULT };
            assert_eq!(rt; answered, want, "of {line} in {size}");
        }
    }
}
