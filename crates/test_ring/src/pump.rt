//! Tests of the pump by one thread: what it judges, what a meeting leaves, and what a refused growth leaves.
ghost use Rattle.std.specs.Prelude.{◌≡◌, ◌<◌, [], length, All, IfOk};
ghost use Rattle.tmw_pump.specs.Pump.{pump_in, reader_of};
ghost use Rattle.tmw_ring.specs.RingEnds.{ReaderOf, WriterOf};
ghost use Rattle.tmw_ring.specs.Settle.{AreInOrder};

use crate::ring::record_two;
use std::alloc::{AllocError, Global};
use std::test::Fail;
use test_support::{FIRST, dirty_read};
use tmw_defs::Verdict;
use tmw_events::{Kind, Registers};
use tmw_monitor::{Bounds, Monitor};
use tmw_pump::{Pump, Pumped};
use tmw_ring::{Reader, Refused, Ring, Writer, ring};

pub const ONE: Registers = Registers { number: 1 };

pub const WIDEST: Bounds = Bounds {
    window: 8,
    states: 64,
};

/// A pump over a run of one register.
pub fn new_pump(alloc: Global, reader: Reader) -> Result<Pump, AllocError>
    requires { reader.taken ≡ [] }
    ensures { IfOk result (λ pump. reader_of (pump_in pump) ≡ reader) }
{
    Ok(Pump::new(alloc, reader, Monitor::new(alloc, ONE, WIDEST)?))
}

/// Records the dirty read, as far as it is one.
fn record_dirty_read(ring: &Ring, writers: &mut Vec<Writer>)
    requires two { length writers.old.items ≡ 2 }
    requires of_ring { All (WriterOf ring.now) writers.old.items }
    requires order { AreInOrder writers.old.items }
    ensures two { length writers.new.items ≡ 2 }
    ensures of_ring { All (WriterOf ring.now) writers.new.items }
    ensures order { AreInOrder writers.new.items }
{
    let _ = record_two(ring, writers, 0, [Kind::W(FIRST, 1), Kind::K]);
    let _ = record_two(ring, writers, 1, [Kind::R(FIRST), Kind::V(1)]);
}

/// Judges up to three events, none, and twice up to eight.
fn pump_four(ring: &Ring, pump: &mut Pump) -> [Result<Pumped, AllocError>; 4]
    requires { ReaderOf ring.now (reader_of (pump_in pump.old)) }
    ensures { ReaderOf ring.now (reader_of (pump_in pump.new)) }
{
    [
        pump.pump(ring, 3),
        pump.pump(ring, 0),
        pump.pump(ring, 8),
        pump.pump(ring, 8),
    ]
}

/// What a call to pump that judged so many events answers.
fn done(judged: u64, verdict: Verdict) -> Result<Pumped, AllocError> {
    Ok(Pumped { judged, verdict })
}

/// Fails if any one allocation in it fails, as tests/refused.sh asserts.
#[test]
fn a_dirty_read_is_judged_as_it_comes(rt: HostRuntime) -> Result<(), Fail> {
    let (ring, mut writers, reader) = ring(rt.alloc(), 8, 2, 100)?;
    let mut pump = new_pump(rt.alloc(), reader)?;
    record_dirty_read(&ring, &mut writers);
    let pumped = pump_four(&ring, &mut pump);
    let (events, verdict) = pump.settle(ring, writers).finish();
    let (so_far, violated) = (Verdict::OpaqueSoFar, Verdict::Violated(4));
    let wanted = [(3, so_far), (0, so_far), (1, violated), (0, violated)];
    assert_eq!(rt;
        pumped,
        wanted.map(|(judged, verdict)| done(judged, verdict))
    );
    assert_eq!(rt; events.as_slice(), &dirty_read()[..4]);
    assert_eq!(rt; verdict, violated);
    Ok(())
}

/// Has the second writer's event judged, lets the pump meet the first writer, and records by that one.
fn judge_and_meet(
    ring: &Ring,
    pump: &mut Pump,
    mut writers: Vec<Writer>,
) -> Option<(Result<Pumped, AllocError>, Result<u64, Refused>)>
    requires reader { ReaderOf ring.now (reader_of (pump_in pump.old)) }
    requires writers { All (WriterOf ring.now) writers.items }
{
    let mut second = writers.pop()?;
    let mut first = writers.pop()?;
    let _ = ring.record(&mut second, Kind::R(FIRST));
    let pumped = pump.pump(ring, 1);
    pump.meet(ring, &mut first);
    Some((pumped, ring.record(&mut first, Kind::R(FIRST))))
}

#[test]
fn a_meeting_tells_a_writer_what_was_judged(rt: HostRuntime) -> Result<(), Fail> {
    let (ring, writers, reader) = ring(rt.alloc(), 8, 2, 100)?;
    let mut pump = new_pump(rt.alloc(), reader)?;
    let met = judge_and_meet(&ring, &mut pump, writers);
    assert_eq!(rt; met, Some((done(1, Verdict::OpaqueSoFar), Ok(1))));
    Ok(())
}

/// Judges up to three events of the dirty read, and tells whether what then stands is what the answer says.
fn judges_as_it_says(ring: &Ring, pump: &mut Pump) -> bool
    requires { ReaderOf ring.now (reader_of (pump_in pump.old)) }
    ensures { ReaderOf ring.now (reader_of (pump_in pump.new)) }
{
    let before = pump.judged().len();
    let answer = pump.pump(ring, 3);
    let (judged, verdict) = (pump.judged(), pump.verdict());
    let more = judged.len().saturating_sub(before) as u64;
    let is_violated = verdict == Verdict::Violated(4);
    let as_said = match answer {
        Ok(pumped) => !pump.held() && done(more, verdict) == Ok(pumped),
        Err(_) => !pump.held() && more < 3,
    };
    as_said && is_violated == (judged.len() == 4) && dirty_read()[..4].starts_with(judged)
}

/// Judges the dirty read to its end, and tells whether each answer was as it should be.
fn judges_all(ring: &Ring, pump: &mut Pump) -> bool
    requires { ReaderOf ring.now (reader_of (pump_in pump.old)) }
{
    for _ in 0..8 {
        if !judges_as_it_says(ring, pump) {
            return false;
        }
    }
    pump.judged().len() == 4
}

/// Passes also if any one allocation in it fails, as tests/refused.sh lets it.
#[test]
fn a_refused_growth_loses_no_event(rt: HostRuntime) -> Result<(), Fail> {
    let (ring, mut writers, reader) = ring(rt.alloc(), 8, 2, 100)?;
    let mut pump = new_pump(rt.alloc(), reader)?;
    record_dirty_read(&ring, &mut writers);
    assert!(rt; judges_all(&ring, &mut pump));
    Ok(())
}
