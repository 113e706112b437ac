ghost use Rattle.std.specs.Prelude.{◌≡◌, ◌+◌, ◌<◌, ◌^◌, length, IfOk, OnOk, OnErr};
ghost use Rattle.tmw_ring_defs.specs.RingMachine.{machine_step, after, replies};
ghost use Rattle.tmw_ring_defs.specs.RingSound.{Sound, Spares};
ghost use Rattle.tmw_ring_steps.specs.NewSim.{IsNewSim};
ghost use Rattle.tmw_ring_steps.specs.Runs.{GoesOnAsOneLog, RanFirst};

use crate::ring_state::RingState;
use std::alloc::{AllocError, Global};
use std::marker::Model;
use tmw_events::Event;
use tmw_ring_defs::{Reply, RingFault, RingSize, Step};

/// A ring in which threads record events, as a machine that is stepped in whatever order its actors make their steps.
#[derive(Debug, Drop)]
pub struct Sim {
    state: RingState,
    made: u64,
}

impl Model for Sim {
    ghost use Rattle.tmw_ring_steps.specs.SimulatedRing.{SimulatedRing};

    ghost Value = { SimulatedRing };

    ghost use Rattle.tmw_ring_defs.specs.RingSound.{Sound};
    ghost use Rattle.tmw_ring_steps.specs.RingState.{core_of, machine_of};

    ghost view = { λ sim. record { machine = machine_of sim.state; made = sim.made } };

    ghost invariant = { λ sim. Sound (core_of sim.state) };
}

impl Sim {
    /// Makes a new ring of this size, in which no step was made. The numbers of its cells and its writers are tested
    /// before its limit.
    pub fn new(alloc: Global, cells: u64, writers: u64, limit: u64) -> Result<Sim, RingFault>
        ensures { IsNewSim cells writers limit result }
    {
        let size = RingSize::new(cells, writers, limit)?;
        let state = RingState::new(alloc, size)?;
        Ok(Sim { state, made: 0 })
    }

    /// Makes the step and returns its reply. After a failed allocation, for the log or the taken events, nothing has
    /// changed.
    pub fn step(&mut self, step: Step) -> Result<Reply, AllocError>
        requires { self.old.made + 1 < 2 ^ 64 }
        ensures reply { IfOk result (λ reply. reply ≡ (machine_step step self.old.machine).0) }
        ensures machine { OnOk result (self.new.machine ≡ (machine_step step self.old.machine).1) }
        ensures made { OnOk result (self.new.made ≡ self.old.made + 1) }
        ensures err { OnErr result (self.new ≡ self.old) }
        // The state stays sound, and no cell of a published place changes before it is taken.
        ensures sound { Sound self.new.machine.core }
        ensures spares { Spares self.old.machine.core self.new.machine.core }
    {
        let reply = self.state.step(step)?;
        self.made += 1;
        Ok(reply)
    }

    /// Makes the steps in order and returns the reply to each. After a failed allocation the steps before it stand,
    /// and no others.
    pub fn run(&mut self, alloc: Global, steps: &[Step]) -> Result<Vec<Reply>, AllocError>
        requires { self.old.made + length steps.now < 2 ^ 64 }
        ensures replies { IfOk result (λ said. said.items ≡ replies steps.now self.old.machine) }
        ensures machine { OnOk result (self.new.machine ≡ after steps.now self.old.machine) }
        ensures made { OnOk result (self.new.made ≡ self.old.made + length steps.now) }
        ensures one_log { OnOk result (GoesOnAsOneLog self.old.machine steps.now self.new.machine) }
        ensures err { OnErr result (RanFirst self.old steps.now self.new) }
        ensures sound { Sound self.new.machine.core }
    {
        // Read, so that the proof knows that the state is sound also where no step is made.
        let _ = &self.state;
        let mut said = Vec::with_capacity(alloc, steps.len())?;
        for step in steps {
            said.push_reserved(self.step(*step)?);
        }
        Ok(said)
    }

    /// Returns the events for which a place was claimed, in the order of their places.
    pub fn log(&self) -> &[Event]
        ensures { result.now ≡ self.now.machine.core.log }
    {
        &self.state.log
    }

    /// Returns the events that were taken, in order.
    pub fn taken(&self) -> &[Event]
        ensures { result.now ≡ self.now.machine.core.taken }
    {
        &self.state.taken
    }

    /// Returns how many steps were made.
    pub fn made(&self) -> u64
        ensures { result ≡ self.now.made }
    {
        self.made
    }
}
