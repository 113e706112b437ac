//! A new watch, with all its recorders.
ghost use Rattle.tmw_watch.specs.Shared.{AreNewWriters, IsNoRing};
ghost use Rattle.std.specs.Prelude.{◌≡◌, ◌<◌, ℕ, length, get_or, IfOk, IfErr};
ghost use Rattle.tmw_watch.specs.Open.{AreOf, IsNewRecorder, IsOpened};

use crate::recorder::Recorder;
use crate::settings::WatchSettings;
use crate::watch::Watch;
use std::alloc::{AllocError, Global};
use std::sync::Arc;
use tmw_monitor::Monitor;
use tmw_pump::Pump;
use tmw_ring::{Ring, RingFault, Writer, ring};

impl Watch {
    /// Opens a watch, with its recorders in the order of their numbers. Nothing is recorded yet. Recording takes no
    /// memory beyond what is taken here. `BadSize`: the number of the cells or of the recorders is out of its range.
    /// `BadLimit`: these are not, but the limit is. `Memory`: an allocation failed.
    pub fn open(alloc: Global, settings: WatchSettings) -> Result<(Watch, Vec<Recorder>), RingFault>
        ensures ok { IfOk result (λ opened. IsOpened settings opened.0 opened.1.items) }
        ensures err { IfErr result (IsNoRing settings.cells settings.recorders settings.limit) }
    {
        let (made, writers, reader) = ring(
            alloc,
            settings.cells,
            settings.recorders,
            settings.limit,
        )?;
        let monitor = Monitor::new_from(
            alloc,
            settings.registers,
            settings.start,
            settings.bounds,
        )?;
        let ring = Arc::new(alloc, made)?;
        let recorders = share(alloc, &ring, writers)?;
        let watch = Watch {
            alloc,
            ring,
            pump: Pump::keeping((), reader, monitor),
            recorders: settings.recorders,
        };
        Ok((watch, recorders))
    }
}

/// Makes a recorder of each writer, in their order, with an owner of the ring.
fn share(
    alloc: Global,
    ring: &Arc<Ring, Global>,
    writers: Vec<Writer>,
) -> Result<Vec<Recorder>, AllocError>
    requires { AreNewWriters ring.now.value writers.items }
    ensures count { IfOk result (λ recorders. length recorders.items ≡ length writers.items) }
    ensures each { IfOk result (λ recorders. (number : ℕ) (fallback : _)
        → number < length recorders.items
        → IsNewRecorder ring.now.value number (get_or recorders.items number fallback)) }
    ensures of_ring { IfOk result (λ recorders. AreOf ring.now.value recorders.items) }
{
    let mut recorders = Vec::with_capacity(alloc, writers.len())?;
    for writer in writers {
        let recorder = Recorder::new(Arc::try_clone(ring)?, writer);
        recorders.push(recorder)?;
    }
    Ok(recorders)
}
