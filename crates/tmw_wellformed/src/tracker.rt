ghost use Rattle.tmw_wellformed.specs.Shared.{Event, X};
ghost use Rattle.std.specs.Prelude.{IfErr, IfOk, IsTrue, List, OnErr, Some, [], ℕ, ◌++◌, ◌↔◌, ◌∷◌, ◌≡◌};
ghost use Rattle.tmw_defs.specs.Cuts.{is_cut};
ghost use Rattle.tmw_wellformed.specs.PendingCalls.{live_count, pending_call};
ghost use Rattle.tmw_wellformed.specs.Notes.{Notes};
ghost use Rattle.tmw_wellformed.specs.Faults.{lacks_register, Refuses};
ghost use Rattle.tmw_wellformed.specs.Tracker.{Tracks};

use crate::malformed::Malformed;
use crate::note::{Note, end_of};
use crate::phase::Phase;
use crate::phases::Phases;
use tmw_events::{Event, Ix, Kind, Registers};

/// A judge of well-formedness, which takes a history event by event and refuses each event that would make it
/// ill-formed. It holds no event.
#[derive(Clone, Copy, PartialEq, Eq, Debug)]
pub struct Tracker {
    registers: Registers,
    phases: Phases,
}

impl Tracker {
    /// Makes a tracker for a run with so many registers, before its first event.
    pub fn new(registers: Registers) -> Tracker
        ensures { Tracks registers.number [] result }
    {
        Tracker {
            registers,
            phases: Phases::new(),
        }
    }

    /// Takes the next event if the history stays well-formed with it. A refusal changes nothing, and names the first
    /// of the faults that the event has.
    #[inline(always)]
    pub fn step(&mut self, event: Event) -> Result<Note, Malformed>
        ensures takes { IfOk result (λ _. (registers : ℕ) (history : List Event)
            → Tracks registers history self.old
            → Tracks registers (history ++ event ∷ []) self.new) }
        ensures notes { IfOk result (λ note. (registers : ℕ) (history : List Event)
            → Tracks registers history self.old → Notes history event note) }

        // With the event the history would be ill-formed, and this is its first fault.
        ensures refuses { IfErr result (λ fault. (registers : ℕ) (history : List Event)
            → Tracks registers history self.old → Refuses registers history event fault) }
        ensures kept { OnErr result (self.new ≡ self.old) }
    {
        if lacks_register(self.registers, event.kind) {
            return Err(Malformed::Register);
        }
        let phase = self.phases.get(event.thread);
        let next = phase.next(event.kind)?;
        self.phases.set(event.thread, next);
        Ok(Note {
            begins: !phase.is_live(),
            ends: end_of(event.kind),
        })
    }

    /// Tells whether the thread's pending call is an abort request.
    #[inline(always)]
    pub fn asks_abort(&self, thread: Ix) -> bool
        ensures { (registers : ℕ) (history : List Event) → Tracks registers history self.now
            → IsTrue result ↔ (pending_call thread.number history ≡ Some X) }
    {
        self.phases.get(thread) == Phase::Aborting
    }

    /// Returns how many registers the run has.
    pub fn registers(&self) -> Registers
        ensures { (registers : ℕ) (history : List Event) → Tracks registers history self.now
            → result.number ≡ registers }
    {
        self.registers
    }

    /// Returns how many transactions have not ended, commit-pending ones included.
    #[inline(always)]
    pub fn live(&self) -> u8
        ensures count { (registers : ℕ) (history : List Event) → Tracks registers history self.now
            → result ≡ live_count history }
        ensures none { (registers : ℕ) (history : List Event) → Tracks registers history self.now
            → (result ≡ 0) ↔ IsTrue (is_cut history) }
    {
        self.phases.live
    }
}

/// Whether the event is a call on a register that the run does not have.
#[inline(always)]
fn lacks_register(registers: Registers, kind: Kind) -> bool
    ensures { result ≡ lacks_register registers.number kind }
{
    match kind {
        Kind::R(register) | Kind::W(register, _) | Kind::N(register, _) => {
            register.get() >= registers.get()
        }
        Kind::V(_) | Kind::K | Kind::T | Kind::C | Kind::X | Kind::A => false,
    }
}
