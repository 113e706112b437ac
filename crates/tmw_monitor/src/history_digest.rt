ghost use Rattle.tmw_monitor.specs.Shared.{HasRoom, StandsFor, Witnesses, members};
ghost use Rattle.std.specs.Prelude.{List, [], ℕ, ◌≡◌};

use crate::search_or_close::begin_again;
use tmw_cuts::{States, Window};
use tmw_events::Registers;
use tmw_search::EndSet;
use tmw_witness::Witness;

/// What is kept of a history in which nothing is wrong: no event.
#[derive(Debug, Drop)]
pub struct HistoryDigest {
    /// The history's outcomes at its last cut.
    pub states: States,
    /// Where the outcomes at the next cut are gathered.
    pub found: EndSet,
    /// The transactions since, and where each thread is.
    pub window: Window,
    /// A serial order of these transactions, where one is known.
    pub witness: Witness,
    pub ghost room: { HasRoom states },
}

impl HistoryDigest {
    ghost use Rattle.tmw_events.specs.declared.event.Event.{Event};
    ghost use Rattle.tmw_cuts.specs.StandsFor.{Follows};
    ghost use Rattle.tmw_monitor.specs.BothMonitor.{IsCopy};
    ghost use Rattle.tmw_monitor.specs.Fits.{KeepsNothing};

    /// Becomes a copy of the other, which has no more states than there is room for.
    pub fn copy_from(&mut self, other: &HistoryDigest)
        ensures { IsCopy other.now self.new }
    {
        self.states.copy_from(&other.states);
        self.window.copy_from(&other.window);
        self.witness = other.witness;
    }

    /// Begins a window of no event, from the states.
    pub fn open(&mut self, registers: Registers)
        ensures states { members self.new.states ≡ members self.old.states }
        ensures stands { StandsFor self.new.window [] }
        ensures registers { self.new.window.registers ≡ registers }
        ensures witness { Witnesses (members self.new.states) [] self.new.witness }
    {
        self.window = Window::open(registers);
        begin_again(&mut self.witness, &self.states);
    }

    /// Forgets the history, with the ends that a search found. Where the threads are stays.
    #[cold]
    #[inline(never)]
    pub fn forget(&mut self)
        ensures nothing { KeepsNothing self.new }
        ensures follows { (registers : ℕ) (history : List Event)
            → Follows registers history self.old.window → Follows registers history self.new.window }
    {
        self.states.clear();
        let cap = self.found.cap;
        self.found.begin(cap);
        self.window.clear();
        self.witness.forget();
    }
}
