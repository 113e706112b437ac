ghost use Rattle.std.specs.Prelude.{◌≡◌, true};
ghost use Rattle.tmw_memories.specs.RegisterCount.{gated_registers};

use crate::gate_memory::{Gate, Gated};
use crate::register_words::Words;
use tmw_events::Registers;

/// A memory that is faulty on purpose. It has no lock and compares nothing, so a transaction may read a register before
/// another transaction commits and a second one after it.
pub type Torn = Gated<OpenGate>;

/// An open gate: each transaction may pass.
#[derive(Drop)]
pub struct OpenGate;

impl Gated<OpenGate> {
    /// Makes a memory of so many registers, all 0. It allocates nothing.
    pub fn new(registers: Registers) -> Torn
        ensures { gated_registers result ≡ registers }
    {
        Gated {
            registers,
            gate: OpenGate,
            words: Words::zeros(),
        }
    }
}

impl Gate for OpenGate {
    ghost is_open = { true };

    fn enter(&self) -> bool {
        true
    }

    fn leave(&self) {}
}
