//! What a C program asks to be watched.
ghost use Rattle.std.specs.Prelude.{◌≡◌, IfOk, IfErr, IfSome, IfNone, IsTrue, IsFalse};
ghost use Rattle.tmw_c.specs.Open.{AreSettings, BeginsWell, HasBounds, HasRegisters, IsUnwanted, IsWanted};

use crate::call_status::CallStatus;
use tmw_events::{MOST_REGISTERS, Registers};
use tmw_monitor::Bounds;
use tmw_watch::WatchSettings;

/// What is to be watched, and how far.
#[repr(C)]
#[derive(Clone, Copy, PartialEq, Eq, Debug)]
pub struct CSettings {
    /// How many registers the memory has: 1 to 8.
    pub registers: u64,
    /// What they hold at first, by their numbers. Those that the memory does not have are to be 0.
    pub start: [u64; MOST_REGISTERS],
    /// How many transactions a window may have: 1 to 8.
    pub window: u64,
    /// How many outcomes there may be at a cut: 1 to 64.
    pub states: u64,
    /// How many events stand in the ring at once: from as many as there are recorders to 4,096.
    pub cells: u64,
    /// How many events are recorded in all: from as many as there are recorders to 2^40.
    pub limit: u64,
}

impl CSettings {
    /// Returns how many registers the memory has, if they are 1 to 8.
    fn registers(&self) -> Option<Registers>
        ensures some { IfSome result (λ registers. registers.number ≡ self.now.registers) }
        ensures none { IfNone result (HasRegisters self.now → ⊥) }
    {
        if self.registers > 8 {
            return None;
        }
        Registers::new(self.registers as u8)
    }

    /// Tells whether each register that the memory does not have is to be 0.
    fn begins_well(&self) -> bool
        ensures yes { IsTrue result → BeginsWell self.now }
        ensures no { IsFalse result → BeginsWell self.now → ⊥ }
    {
        for place in 0..8 {
            if place as u64 >= self.registers && self.start[place] != 0 {
                return false;
            }
        }
        true
    }

    /// Returns how far is judged, if both bounds are in their ranges.
    fn bounds(&self) -> Option<Bounds>
        ensures some { IfSome result (λ bounds. (bounds.window ≡ self.now.window)
            × (bounds.states ≡ self.now.states)) }
        ensures none { IfNone result (HasBounds self.now → ⊥) }
    {
        if self.window > 8 || self.states > 64 {
            return None;
        }
        Bounds::new(self.window as u8, self.states as u8).ok()
    }

    /// Returns the settings of a watch with so many recorders; or what is wrong, of the registers, the start and the
    /// bounds, in this order.
    pub fn settings(&self, recorders: u64) -> Result<WatchSettings, CallStatus>
        ensures ok { IfOk result (AreSettings self.now recorders) }
        ensures wanted { IfOk result (λ settings. IsWanted self.now) }
        ensures err { IfErr result (IsUnwanted self.now) }
    {
        let Some(registers) = self.registers() else {
            return Err(CallStatus::BadRegisters);
        };
        if !self.begins_well() {
            return Err(CallStatus::BadStart);
        }
        let Some(bounds) = self.bounds() else {
            return Err(CallStatus::BadBounds);
        };
        Ok(WatchSettings {
            registers,
            start: self.start,
            bounds,
            cells: self.cells,
            limit: self.limit,
            recorders,
        })
    }
}
