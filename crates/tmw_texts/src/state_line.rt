ghost use Rattle.tmw_texts.specs.Shared.{line};
ghost use Rattle.tmw_texts.specs.ItemTexts.{state_text};

use crate::item_text::ItemText;
use crate::numbers::push_values;
use std::alloc::AllocError;
use tmw_cuts::State;
use tmw_events::Registers;

/// The line of a state: what the run's registers hold.
#[derive(Drop)]
pub struct StateLine {
    pub registers: Registers,
}

impl ItemText<State> for StateLine {
    ghost part = { λ own state. line (state_text own.registers state) };

    fn push(&self, text: &mut Vec<u8>, state: &State) -> Result<(), AllocError> {
        text.extend_from_slice(b"    state ")?;
        push_values(text, &state[..self.registers.get() as usize])?;
        text.push(b'\n')?;
        Ok(())
    }
}
