ghost use Rattle.std.specs.Prelude.{◌≡◌, ◌<◌, ◌%◌, length, slice_get, IfOk};
ghost use Rattle.tmw_ring_defs.specs.RingCells.{set_cell};
ghost use Rattle.tmw_ring_defs.specs.RingMachine.{new_machine, writer_of, has_stopped};
ghost use Rattle.tmw_ring_defs.specs.RingSound.{Sound};
ghost use Rattle.tmw_ring_defs.specs.RingSteps.{cell_at, with_cell, with_phase};
ghost use Rattle.tmw_ring_steps.specs.RingState.{core_of, machine_of};

use std::alloc::{AllocError, Global};
use tmw_events::{Event, Ix};
use tmw_ring_defs::{ReaderPhase, RingCell, RingSize, Step, WriterPhase};

const EMPTY: RingCell = RingCell {
    stamp: 0,
    header: 0,
    value: 0,
};

/// A ring's words, how far its writers and its reader have come, the events that were claimed for and those that were
/// taken, and which writers have stopped.
#[derive(Debug, Drop)]
pub struct RingState {
    pub size: RingSize,
    pub front: u64,
    pub tail: u64,
    pub cells: Vec<RingCell>,
    pub writers: Vec<WriterPhase>,
    pub reader: ReaderPhase,
    pub log: Vec<Event>,
    pub taken: Vec<Event>,
    pub stopped: Vec<bool>,
}

impl RingState {
    /// Makes the state of a new ring.
    pub fn new(alloc: Global, size: RingSize) -> Result<RingState, AllocError>
        ensures { IfOk result (λ state. machine_of state ≡ new_machine size) }
    {
        Ok(RingState {
            size,
            front: 0,
            tail: 0,
            cells: vec![in alloc; EMPTY; size.cells as usize]?,
            writers: vec![in alloc; WriterPhase::Idle; size.writers as usize]?,
            reader: ReaderPhase::Waiting,
            log: Vec::new(alloc),
            taken: Vec::new(alloc),
            stopped: vec![in alloc; false; size.writers as usize]?,
        })
    }

    /// Returns how far the writer has come, or `None` if the ring has no such writer.
    pub fn phase_of(&self, writer: Ix) -> Option<WriterPhase>
        ensures { result ≡ slice_get self.now.writers.items writer.number }
    {
        self.writers.get(usize::from(writer.get())).copied()
    }

    /// Sets how far the writer has come.
    pub fn set_phase(&mut self, writer: Ix, phase: WriterPhase)
        requires { writer.number < length self.old.writers.items }
        ensures { machine_of self.new
            ≡ record (machine_of self.old)
            { core = with_phase writer.number phase (core_of self.old) } }
    {
        self.writers[usize::from(writer.get())] = phase;
    }

    /// Returns the cell that the place uses.
    pub fn cell_at(&self, place: u64) -> RingCell
        requires { Sound (core_of self.now) }
        ensures { result ≡ cell_at (core_of self.now) place }
    {
        self.cells[(place % self.size.cells) as usize]
    }

    /// Stores the words of the place's cell.
    pub fn set_cell(&mut self, place: u64, cell: RingCell)
        requires { Sound (core_of self.old) }
        ensures { machine_of self.new
            ≡ record (machine_of self.old) { core = with_cell place cell (core_of self.old) } }
    {
        self.cells[(place % self.size.cells) as usize] = cell;
    }

    /// Tells whether the step's writer has stopped, or is none of the ring's.
    pub fn has_stopped(&self, step: Step) -> bool
        ensures { result ≡ has_stopped self.now.stopped.items (writer_of step) }
    {
        match step {
            Step::Front(writer, _)
            | Step::Tail(writer)
            | Step::Claim(writer)
            | Step::Fill(writer)
            | Step::Publish(writer)
            | Step::Stop(writer) => self.writer_has_stopped(writer),
            Step::Peek | Step::Read | Step::Free => false,
        }
    }

    fn writer_has_stopped(&self, writer: Ix) -> bool
        ensures { result ≡ has_stopped self.now.stopped.items (Some writer) }
    {
        match self.stopped.get(usize::from(writer.get())) {
            Some(stopped) => *stopped,
            None => true,
        }
    }
}
