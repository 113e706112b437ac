ghost use Rattle.tmw_cuts.specs.Shared.{Add, Op, Read, State, Write, after_writes, bit_at, reads_hold};
ghost use Rattle.std.specs.Prelude.{List, None, [], slice_index, ◌++◌, ◌<◌, ◌==◌, ◌∷◌, ◌≡◌};
ghost use Rattle.tmw_cuts.specs.RegisterMask.{IsMaskOf, chosen, have};
ghost use Rattle.tmw_cuts.specs.Replays.{Replays};
ghost use Rattle.tmw_cuts.specs.RegisterUse.{writes, needs};

use crate::lowest_bit::lowest;
use crate::states::State;
use tmw_defs::Op;
use tmw_events::{Ix, MOST_REGISTERS};

/// What operations that follow one another need of the registers and what they leave there, however many they are.
#[derive(Clone, Copy, Debug)]
pub struct Effect {
    /// What each register that they need was answered first.
    pub needs: State,
    /// What each register that they write or add to holds after them.
    pub leaves: State,
    /// Which registers they read or add to before they write or add to them, as a mask.
    pub needed: u8,
    /// Which registers they write or add to, as a mask.
    pub left: u8,
    /// Whether each later answer is what the earlier operations tell of the register.
    pub agrees: bool,
}

/// Whether the mask has the register.
#[inline(always)]
fn has_register(mask: u8, register: usize) -> bool
    requires { register < 8 }
    ensures { result ≡ (bit_at mask register == 1) }
{
    mask >> register & 1 == 1
}

impl Effect {
    ghost use Rattle.tmw_cuts.specs.Effects.{IsEffectOf, leaves_none};

    /// Makes the effect of no operation.
    pub fn new() -> Effect
        ensures { IsEffectOf result [] }
    {
        Effect {
            needs: [0; MOST_REGISTERS],
            leaves: [0; MOST_REGISTERS],
            needed: 0,
            left: 0,
            agrees: true,
        }
    }

    /// Forgets the operations.
    #[inline(always)]
    pub(crate) fn clear(&mut self)
        ensures { IsEffectOf self.new [] }
    {
        self.needed = 0;
        self.left = 0;
        self.agrees = true;
    }

    /// Takes an answer of the register in: the operations before, or else the state, have to give that value.
    #[inline(always)]
    fn read(&mut self, register: Ix, value: u64)
        ensures { (ops : List Op) → IsEffectOf self.old ops
            → IsEffectOf self.new (ops ++ Read register value ∷ []) }
    {
        let place = register.get() as usize;
        if has_register(self.left, place) {
            self.agrees &= self.leaves[place] == value;
            return;
        }
        let need = self.needs[place];
        let known = if has_register(self.needed, place) {
            need
        } else {
            value
        };
        self.agrees &= known == value;
        self.needed |= 1 << place;
        self.needs[place] = known;
    }

    /// Takes in that the register holds the value from here on.
    #[inline(always)]
    fn write(&mut self, register: Ix, value: u64)
        ensures { (ops : List Op) → IsEffectOf self.old ops
            → IsEffectOf self.new (ops ++ Write register value ∷ []) }
    {
        let place = register.get() as usize;
        self.left |= 1 << place;
        self.leaves[place] = value;
    }

    /// Takes an add in: an answer, and then a write. It is called, so that what takes a read or a write stays small.
    #[inline(never)]
    fn add_to(&mut self, register: Ix, added: u64, value: u64)
        ensures { (ops : List Op) → IsEffectOf self.old ops
            → IsEffectOf self.new (ops ++ Add register added value ∷ []) }
    {
        self.read(register, value);
        self.write(register, value.wrapping_add(added));
    }

    /// Adds an operation.
    #[inline(always)]
    pub fn add(&mut self, op: Op)
        ensures { (ops : List Op) → IsEffectOf self.old ops → IsEffectOf self.new (ops ++ op ∷ []) }
    {
        match op {
            Op::Read(register, value) => self.read(register, value),
            Op::Write(register, value) => self.write(register, value),
            Op::Add(register, added, value) => self.add_to(register, added, value),
        }
    }

    /// Whether each of these registers has the needed value in the state. It asks each register, since no processor foresees which
    /// they are.
    #[inline(always)]
    fn is_met(&self, registers: u8, state: &State) -> bool
        ensures { result ≡ have (chosen registers) self.now.needs state.now }
    {
        let mut met = true;
        for register in 0..8 {
            let same = state[register] == self.needs[register];
            met &= same | !has_register(registers, register);
        }
        met
    }

    /// Makes of the state what the registers hold after the operations. No answer is compared: an add leaves its answer and what it
    /// added.
    #[inline(always)]
    pub fn leave_in(&self, state: &mut State)
        ensures { (ops : List Op) → IsEffectOf self.now ops
            → state.new ≡ after_writes state.old ops }
    {
        // (few registers are written)
        let mut left = self.left;
        while left != 0 {
            let register = lowest(left);
            left -= 1 << register;
            state[register] = self.leaves[register];
        }
    }

    /// Tells whether each of the operations was answered what the registers held then.
    #[inline(always)]
    pub fn fits(&self, state: &State) -> bool
        ensures { (ops : List Op) → IsEffectOf self.now ops → result ≡ reads_hold state.now ops }
    {
        self.agrees && self.is_met(self.needed, state)
    }

    /// Returns what the registers hold after the operations, if each of them was answered what the registers held
    /// then.
    #[inline(always)]
    pub fn after(&self, state: &State) -> Option<State>
        ensures { (ops : List Op) → IsEffectOf self.now ops → Replays state.now ops result }
    {
        if !self.fits(state) {
            return None;
        }
        let mut end = *state;
        self.leave_in(&mut end);
        Some(end)
    }

    /// Returns what the register holds after the operations.
    #[inline(always)]
    pub fn value_after(&self, state: &State, register: Ix) -> u64
        ensures { (ops : List Op) → IsEffectOf self.now ops
            → result ≡ slice_index (after_writes state.now ops) register.number }
    {
        let place = register.get() as usize;
        if has_register(self.left, place) {
            self.leaves[place]
        } else {
            state[place]
        }
    }

    /// Tells whether no register is written or added to.
    pub fn only_reads(&self) -> bool
        ensures { result ≡ leaves_none self.now }
    {
        self.left == 0
    }

    /// Returns the registers that the operations write or add to, as a mask.
    pub fn written(&self) -> u8
        ensures { (ops : List Op) → IsEffectOf self.now ops → IsMaskOf (λ r. writes r ops) result }
    {
        self.left
    }

    /// Returns the registers that the operations read or add to before they write or add to them, as a mask.
    pub fn needed(&self) -> u8
        ensures { (ops : List Op) → IsEffectOf self.now ops → IsMaskOf (λ r. needs r ops) result }
    {
        self.needed
    }
}
