//! A ring with all its threads.
ghost use Rattle.std.specs.Prelude.{◌≡◌, ◌≤◌, ◌*◌, All, IfOk, length};
ghost use Rattle.tmw_ring.specs.RingEnds.{WriterOf};
ghost use Rattle.time_ring.specs.Runs.{CanRun, HasRun};

use crate::plan::Plan;
use crate::record::record_all;
use crate::take::take_all;
use std::alloc::Global;
use std::sync::Wait;
use std::thread;
use std::thread::{Scope, Threads};
use tmw_ring::{Reader, Refused, Ring, RingFault, Writer, ring};

/// Runs the plan, and returns the number of events that were taken and the reader that took them.
pub fn run<R: Threads + Wait + Sync>(
    rt: &R,
    alloc: Global,
    plan: Plan,
) -> Result<(u64, Reader), RingFault>
    ensures all { IfOk result (λ ran. ran.0 ≡ plan.size.writers * plan.share) }
    ensures taken { IfOk result (λ ran. length ran.1.taken ≡ ran.0) }
{
    let (ring, writers, reader) = ring(alloc, plan.size.cells, plan.size.writers, plan.size.limit)?;
    let shared = &ring;
    let share = plan.share;
    let (started, reader) = thread::scope(
        thread::scope_env(),
        rt,
        move |scope| -> (u64, Reader)
            requires { CanRun shared.now writers.items reader share }
            ensures { HasRun shared.entry.now share reader result.0 result.1 }
        { record_and_take(scope, rt, shared, writers, reader, share) },
    );
    if started < plan.size.writers {
        return Err(RingFault::Memory);
    }
    Ok((started * share, reader))
}

/// Starts the writers' threads and takes what they record. Returns the number of threads and the reader.
fn record_and_take<'s, E, R: Wait + Sync>(
    scope: &Scope<'s, E>,
    rt: &'s R,
    ring: &'s Ring,
    writers: Vec<Writer>,
    mut reader: Reader,
    share: u64,
) -> (u64, Reader)
    requires { CanRun ring.now writers.items reader share }
    ensures { HasRun ring.now share reader result.0 result.1 }
{
    let started = start_all(scope, rt, ring, writers, share);
    take_all(rt, ring, &mut reader, started * share);
    (started, reader)
}

/// Starts a thread for each writer, in which it records its events, and returns the number of threads. The first that
/// can't be made is the last that is tried.
fn start_all<'s, E, R: Wait + Sync>(
    scope: &Scope<'s, E>,
    rt: &'s R,
    ring: &'s Ring,
    writers: Vec<Writer>,
    share: u64,
) -> u64
    requires { All (WriterOf ring.now) writers.items }
    ensures { result ≤ length writers.items }
{
    let mut started = 0;
    for writer in writers {
        if !start(scope, rt, ring, writer, share) {
            return started;
        }
        started += 1;
    }
    started
}

/// Starts a thread in which the writer records its events, and tells whether there is one.
fn start<'s, E, R: Wait + Sync>(
    scope: &Scope<'s, E>,
    rt: &'s R,
    ring: &'s Ring,
    mut writer: Writer,
    share: u64,
) -> bool
    requires { WriterOf ring.now writer }
{
    let work = move || -> Result<(), Refused>
        requires { WriterOf ring.now writer }
    { record_all(rt, ring, &mut writer, share) };
    scope.spawn(work).is_ok()
}
