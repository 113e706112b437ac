ghost use Rattle.std.specs.Prelude.{◌≡◌, false};
ghost use Rattle.tmw_memories.specs.RegisterCount.{gated_registers};

use crate::gate_memory::{Gate, Gated};
use crate::register_words::Words;
use crate::tx_calls::TURNS;
use std::sync::atomic::{AtomicU64, Ordering};
use tmw_events::Registers;

/// A memory with one lock, which a transaction holds from its begin to its end. So one transaction runs at a time, and a begin
/// aborts where the lock is not free within 64 tries.
pub type GlobalLock = Gated<Lock>;

/// One lock.
#[derive(Drop)]
pub struct Lock {
    // 1 while a transaction that has begun holds it, else 0.
    taken: AtomicU64,
}

impl Gated<Lock> {
    /// Makes a memory of so many registers, all 0, whose lock is free. It allocates nothing.
    pub fn new(registers: Registers) -> GlobalLock
        ensures { gated_registers result ≡ registers }
    {
        Gated {
            registers,
            gate: Lock {
                taken: AtomicU64::new(0),
            },
            words: Words::zeros(),
        }
    }
}

impl Gate for Lock {
    ghost is_open = { false };

    /// Takes the lock, where it is free at one of 64 looks.
    fn enter(&self) -> bool {
        for _ in 0..TURNS {
            if self
                .taken
                .compare_exchange(0, 1, Ordering::SeqCst, Ordering::SeqCst)
                .is_ok()
            {
                return true;
            }
        }
        false
    }

    fn leave(&self) {
        self.taken.store(0, Ordering::SeqCst);
    }
}
