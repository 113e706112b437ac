//! Seeded histories of four threads over two registers, written as text and judged through reads of each size, by either
//! criterion and within each bound on windows, beside the plain check of the whole history.
use std::alloc::{AllocError, Global};
use std::process::Abort;
use std::test::Fail;
use test_support::{FIRST, SECOND, Seed};
use tmw_defs::{Asked, Criterion, Verdict, Why};
use tmw_events::{Event, Kind, Registers};
use tmw_judge::run_judge;
use tmw_monitor::Bounds;
use tmw_plain_check::{Whole, WholeFault, judge_whole_for};
use tmw_report::{report_by, status_of};
use tmw_streams::{MemorySink, MemorySource};
use tmw_trace::{Header, Version, write_trace};
use tmw_wellformed::Tracker;

const TWO: Registers = Registers { number: 2 };

/// What a register may hold at the start: numbers of one to twenty digits.
const STARTS: [u64; 8] = [
    0,
    1,
    7,
    4096,
    99_999_999,
    100_000_000,
    9_999_999_999_999_999_999,
    18_446_744_073_709_551_615,
];

/// How many bytes a read returns at most.
const READS: [usize; 5] = [1, 2, 3, 4096, 1 << 40];

/// Draws a header with two values at the start.
fn draw_header(seed: &mut Seed) -> Header {
    let first = STARTS[(seed.draw() % 8) as usize];
    let second = STARTS[(seed.draw() % 8) as usize];
    Header {
        version: Version::Two,
        registers: TWO,
        initial: [first, second, 0, 0, 0, 0, 0, 0],
    }
}

/// Draws an event of one of so many threads. Its value is one of those at the start, 0 or 1.
fn draw_event(seed: &mut Seed, header: &Header, threads: u64) -> Event {
    let thread = seed.draw_name(threads);
    let register = if seed.draw() % 3 == 0 { SECOND } else { FIRST };
    let value = match seed.draw() % 8 {
        0 => 1,
        1 => 0,
        2 | 3 => header.initial[1],
        _ => header.initial[0],
    };
    let kind = match seed.draw() % 13 {
        0 | 1 => Kind::R(register),
        2 | 3 => Kind::V(value),
        4 => Kind::W(register, value),
        5 | 6 => Kind::K,
        7 => Kind::N(register, value),
        8 | 9 => Kind::T,
        10 => Kind::C,
        11 => Kind::X,
        _ => Kind::A,
    };
    Event { thread, kind }
}

/// Draws a history, which is well-formed but for its last event in one of nine.
fn draw_events(
    alloc: Global,
    seed: &mut Seed,
    header: &Header,
    number: u64,
) -> Result<Vec<Event>, AllocError> {
    let length = 4 + number % 19;
    let mut tracker = Tracker::new(TWO);
    let mut events = Vec::new(alloc);
    for _attempt in 0..length * 6 {
        let event = draw_event(seed, header, 1 + number % 4);
        if tracker.step(event).is_ok() {
            events.push(event)?;
        } else if number % 9 == 0 && events.len() as u64 >= length {
            events.push(event)?;
            break;
        }
    }
    Ok(events)
}

/// Returns what the plain check finds, as a verdict, if it decides.
fn plain(whole: Result<Whole, WholeFault>) -> Option<Verdict> {
    match whole {
        Ok(Whole::Opaque) => Some(Verdict::OpaqueSoFar),
        Ok(Whole::Strict) => Some(Verdict::StrictSoFar),
        Ok(Whole::Violated(at)) => Some(Verdict::Violated(at)),
        Err(WholeFault::IllFormed(at)) => Some(Verdict::Malformed(at)),
        Err(WholeFault::Ninth(_) | WholeFault::Memory) => None,
    }
}

/// Returns the length of the shortest well-formed prefix whose last window has more transactions than the bound.
fn first_wide(events: &[Event], bound: u8) -> Option<u64> {
    let mut tracker = Tracker::new(TWO);
    let mut count = 0u8;
    for (length, event) in (1u64..).zip(events) {
        let Ok(note) = tracker.step(*event) else {
            return None;
        };
        count = count.saturating_add(u8::from(note.begins));
        if count > bound {
            return Some(length);
        }
        if tracker.live() == 0 {
            count = 0;
        }
    }
    None
}

/// Returns the verdict within a bound on windows, from the verdict without one.
fn within(verdict: Verdict, events: &[Event], bound: u8) -> Verdict {
    match (first_wide(events, bound), verdict) {
        (None, _) => verdict,
        (Some(wide), Verdict::Violated(at) | Verdict::Malformed(at)) if at < wide => verdict,
        (Some(wide), _) => Verdict::Undecided(wide, Why::Transactions),
    }
}

/// Judges a text through reads of each size: each has to give this line and this status.
fn expect(
    rt: &(impl Abort + AllocGlobal),
    text: &[u8],
    asked: Asked,
    bounds: Bounds,
    line: &[u8],
    status: u8,
) {
    for most in READS {
        let mut source = MemorySource::limited(text, most, None);
        let mut sink = MemorySink::new(rt.alloc());
        let answered = run_judge(rt.alloc(), &mut source, &mut sink, bounds, asked);
        assert_eq!(rt; sink.bytes(), line, "{most} bytes a read of {text:?}");
        assert_eq!(rt; answered, status, "{most} bytes a read of {text:?}");
    }
}

/// How many histories were met of each kind.
#[derive(Clone, Copy, Debug)]
struct Met {
    /// Opaque so far, or strict so far.
    right: u32,
    violated: u32,
    malformed: u32,
    undecided: u32,
    /// By opacity and by strict serializability the plain check finds different lengths.
    parted: u32,
}

impl Met {
    /// Counts one history more, of this verdict within its bound.
    fn add(&mut self, verdict: &Verdict, parted: bool) {
        let count = match verdict {
            Verdict::OpaqueSoFar | Verdict::StrictSoFar => &mut self.right,
            Verdict::Violated(_) => &mut self.violated,
            Verdict::Malformed(_) => &mut self.malformed,
            Verdict::Undecided(_, _) => &mut self.undecided,
        };
        *count = count.saturating_add(1);
        self.parted = self.parted.saturating_add(u32::from(parted));
    }

    fn are_enough(&self) -> bool {
        self.right > 300
            && self.violated > 200
            && self.malformed > 50
            && self.undecided > 200
            && self.parted > 100
    }
}

/// Returns whether the plain check finds one of the two criteria violated where it doesn't find the other.
fn is_parted(alloc: Global, start: &[u64; 8], events: &[Event]) -> bool {
    let [opacity, strict] = [Criterion::Opacity, Criterion::Strict].map(|criterion| plain(
        judge_whole_for(criterion, alloc, TWO, start, events),
    ));
    matches!(opacity, Some(Verdict::Violated(_))) && opacity != strict
}

#[test]
fn seeded_texts_are_judged_as_by_the_plain_check(rt: HostRuntime) -> Result<(), Fail> {
    let mut seed = Seed::new();
    let mut met = Met {
        right: 0,
        violated: 0,
        malformed: 0,
        undecided: 0,
        parted: 0,
    };
    for number in 0..2_000u64 {
        let header = draw_header(&mut seed);
        let events = draw_events(rt.alloc(), &mut seed, &header, number)?;
        let (asked, criterion) = if number % 2 == 0 {
            (Asked::Opacity, Criterion::Opacity)
        } else {
            (Asked::Strict, Criterion::Strict)
        };
        let whole = judge_whole_for(criterion, rt.alloc(), TWO, &header.initial, &events);
        let Some(verdict) = plain(whole) else {
            continue;
        };
        let bounds = Bounds {
            window: 1 + (number / 2 % 8) as u8,
            states: 64,
        };
        let verdict = within(verdict, &events, bounds.window);
        let mut text = MemorySink::new(rt.alloc());
        assert_eq!(rt; write_trace(&mut text, &header, &events), Ok(()));
        let line = report_by(rt.alloc(), criterion, events.len() as u64, &verdict)?;
        expect(
            &rt,
            text.bytes(),
            asked,
            bounds,
            line.as_bytes(),
            status_of(&verdict),
        );
        met.add(&verdict, is_parted(rt.alloc(), &header.initial, &events));
    }
    assert!(rt; met.are_enough(), "{met:?}");
    Ok(())
}
