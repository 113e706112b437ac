//! Threads that record into one ring while another takes or judges what they record, run to their ends.
ghost use Rattle.std.specs.Prelude.{◌≡◌, All};
ghost use Rattle.tmw_pump.specs.Pump.{pump_in, reader_of};
ghost use Rattle.tmw_ring.specs.RingEnds.{ReaderOf, WriterOf};

use crate::pump::{ONE, WIDEST, new_pump};
use std::alloc::Global;
use std::sync::Wait;
use std::test::Fail;
use std::thread;
use std::thread::{Scope, Threads};
use test_support::FIRST;
use tmw_events::{Ix, Kind};
use tmw_monitor::judge;
use tmw_pump::Pump;
use tmw_ring::{Reader, Ring, Writer, ring};

/// So often a call is tried before its thread gives up.
const TRIES: u64 = 1_000_000_000;

/// The event of a writer that has recorded so many before it: the first one writes numbers, and the second reads them.
fn nth(writer: Ix, count: u64) -> Kind {
    let kinds = if writer == FIRST {
        [
            Kind::W(FIRST, count.wrapping_add(1)),
            Kind::K,
            Kind::T,
            Kind::C,
        ]
    } else {
        [Kind::R(FIRST), Kind::V(count), Kind::T, Kind::C]
    };
    kinds[(count % 4) as usize]
}

/// Records an event as soon as there is room.
fn record_soon(ring: &Ring, writer: &mut Writer, kind: Kind)
    requires { WriterOf ring.now writer.old }
    ensures { WriterOf ring.now writer.new }
{
    for _ in 0..TRIES {
        if ring.record(writer, kind).is_ok() {
            return;
        }
        thread::yield_now();
    }
}

/// Records so many events of a writer, one after another.
fn record_all(ring: &Ring, mut writer: Writer, count: u64)
    requires { WriterOf ring.now writer }
{
    let number = writer.number();
    for done in 0..count {
        record_soon(ring, &mut writer, nth(number, done));
    }
}

/// Starts a thread for each of two writers, in which it records so many events, if there are threads.
fn start_both<'s, E>(
    scope: &Scope<'s, E>,
    ring: &'s Ring,
    mut writers: Vec<Writer>,
    count: u64,
) -> Option<()>
    requires { All (WriterOf ring.now) writers.items }
{
    for _ in 0..2 {
        let writer = writers.pop()?;
        scope
            .spawn(
                move || -> ()
                    requires { WriterOf ring.now writer }
                { record_all(ring, writer, count) },
            )
            .ok()?;
    }
    Some(())
}

/// Takes a thousand events of each of two writers, and tells whether those of each came in its order.
fn take_all(ring: &Ring, mut reader: Reader) -> bool
    requires { ReaderOf ring.now reader }
{
    let mut counts = [0u64; 8];
    for _ in 0..TRIES {
        let Some(event) = ring.take(&mut reader) else {
            thread::yield_now();
            continue;
        };
        let count = &mut counts[usize::from(event.thread.get())];
        if event.kind != nth(event.thread, *count) {
            return false;
        }
        *count = count.saturating_add(1);
        if counts == [1_000, 1_000, 0, 0, 0, 0, 0, 0] {
            return true;
        }
    }
    false
}

#[test]
fn two_writers_and_the_reader_in_three_threads(rt: HostRuntime) -> Result<(), Fail> {
    let (ring, writers, reader) = ring(rt.alloc(), 4, 2, 100_000)?;
    let shared = &ring;
    let all = thread::scope(
        thread::scope_env(),
        &rt,
        move |scope| -> Option<bool>
            requires writers { All (WriterOf shared.now) writers.items }
            requires reader { ReaderOf shared.now reader }
        {
            let taking = scope
                .spawn(
                    move || -> bool
                        requires { ReaderOf shared.now reader }
                    { take_all(shared, reader) },
                )
                .ok()?;
            start_both(scope, shared, writers, 1_000)?;
            Some(taking.join(&rt))
        },
    );
    assert_eq!(rt; all, Some(true));
    Ok(())
}

/// Judges the events of the running ring as they come, until there are 32.
fn pump_all(ring: &Ring, pump: &mut Pump)
    requires { ReaderOf ring.now (reader_of (pump_in pump.old)) }
{
    for _ in 0..TRIES {
        let _ = pump.pump(ring, 3);
        if pump.judged().len() == 32 {
            return;
        }
        thread::yield_now();
    }
}

/// Lets two threads record four transactions each while they are judged, and tells whether the verdict is that of `judge`.
fn is_judged<R: Threads + Wait>(rt: &R, alloc: Global) -> Result<bool, Fail> {
    let (ring, writers, reader) = ring(alloc, 3, 2, 100)?;
    let mut pump = new_pump(alloc, reader)?;
    let shared = &ring;
    let back = thread::scope(
        thread::scope_env(),
        rt,
        move |scope| -> Option<Pump>
            requires writers { All (WriterOf shared.now) writers.items }
            requires reader { ReaderOf shared.now (reader_of (pump_in pump)) }
        {
            start_both(scope, shared, writers, 16)?;
            pump_all(shared, &mut pump);
            Some(pump)
        },
    );
    let Some(pump) = back else {
        return Ok(false);
    };
    let events = pump.judged();
    Ok(events.len() == 32 && judge(alloc, ONE, WIDEST, events)? == pump.verdict())
}

#[test]
fn what_two_threads_record_is_judged(rt: HostRuntime) -> Result<(), Fail> {
    for _ in 0..100 {
        assert!(rt; is_judged(&rt, rt.alloc())?);
    }
    Ok(())
}
