//! Tests of the ring by one thread: a full ring and what it leaves, spent places, and writers that meet.
ghost use Rattle.std.specs.Prelude.{◌≡◌, ◌<◌, length, All};
ghost use Rattle.tmw_ring.specs.RingEnds.{WriterOf};
ghost use Rattle.tmw_ring.specs.Settle.{AreInOrder};

use std::test::Fail;
use test_support::{FIRST, one};
use tmw_events::{Event, Kind};
use tmw_ring::{Refused, Ring, RingFault, Settled, Writer, ring};

/// Records two events by the writer of this number, and returns what each record returned.
pub fn record_two(
    ring: &Ring,
    writers: &mut Vec<Writer>,
    number: usize,
    kinds: [Kind; 2],
) -> [Result<u64, Refused>; 2]
    requires some { number < length writers.old.items }
    requires of_ring { All (WriterOf ring.now) writers.old.items }
    requires order { AreInOrder writers.old.items }
    ensures count { length writers.new.items ≡ length writers.old.items }
    ensures of_ring { All (WriterOf ring.now) writers.new.items }
    ensures order { AreInOrder writers.new.items }
{
    let writer = &mut writers[number];
    [ring.record(writer, kinds[0]), ring.record(writer, kinds[1])]
}

/// Takes four times from a settled ring.
fn take_four(settled: &mut Settled) -> [Option<Event>; 4] {
    let mut taken = [None; 4];
    for event in &mut taken {
        *event = settled.take();
    }
    taken
}

#[test]
fn a_full_ring_goes_on_and_is_settled(rt: HostRuntime) -> Result<(), Fail> {
    let (ring, mut writers, mut reader) = ring(rt.alloc(), 4, 2, 1000)?;
    let kinds = [Kind::W(FIRST, u64::MAX), Kind::K, Kind::V(5), Kind::T];
    let recorded = [
        record_two(&ring, &mut writers, 0, [kinds[0], kinds[1]]),
        record_two(&ring, &mut writers, 0, [kinds[2], Kind::T]),
    ];
    let taken = ring.take(&mut reader);
    let again = record_two(&ring, &mut writers, 0, [kinds[3], Kind::T]);
    let left = take_four(&mut ring.settle(reader, writers));
    let full = |front, tail| Err(Refused::Full { front, tail });
    assert_eq!(rt; recorded, [[Ok(0), Ok(1)], [Ok(2), full(0, 3)]]);
    assert_eq!(rt; again, [Ok(3), full(1, 4)]);
    let [first, second, third, fourth] = kinds.map(|kind| Some(one(kind)));
    assert_eq!(rt; (taken, left), (first, [second, third, fourth, None]));
    Ok(())
}

#[test]
fn a_ring_whose_places_are_spent(rt: HostRuntime) -> Result<(), Fail> {
    for (cells, limit, fault) in [(1, 9, RingFault::BadSize), (4, 1, RingFault::BadLimit)] {
        assert_eq!(rt; ring(rt.alloc(), cells, 2, limit).err(), Some(fault));
    }
    let (ring, mut writers, _reader) = ring(rt.alloc(), 4, 1, 2)?;
    let recorded = [
        record_two(&ring, &mut writers, 0, [Kind::K; 2]),
        record_two(&ring, &mut writers, 0, [Kind::K; 2]),
    ];
    let spent = Refused::Spent { tail: 2 };
    assert_eq!(rt; recorded, [[Ok(0), Ok(1)], [Err(spent); 2]]);
    Ok(())
}

/// Records an event by each of two writers, lets them meet, and records one more by the first.
fn record_and_meet(ring: &Ring, mut writers: Vec<Writer>) -> Option<[Result<u64, Refused>; 3]>
    requires { All (WriterOf ring.now) writers.items }
{
    let mut second = writers.pop()?;
    let mut first = writers.pop()?;
    let before = [
        ring.record(&mut first, Kind::T),
        ring.record(&mut second, Kind::X),
    ];
    ring.meet_writers(&mut first, &mut second);
    Some([before[0], before[1], ring.record(&mut first, Kind::T)])
}

#[test]
fn writers_that_have_met(rt: HostRuntime) -> Result<(), Fail> {
    let (ring, writers, _reader) = ring(rt.alloc(), 8, 2, 100)?;
    assert_eq!(rt;
        record_and_meet(&ring, writers),
        Some([Ok(0), Ok(1), Ok(2)])
    );
    Ok(())
}
