ghost use Rattle.std.specs.Prelude.{[], ◌∷◌};
ghost use Rattle.tmw_defs.specs.History.{operations};
ghost use Rattle.tmw_cuts.specs.Replays.{Replays};

use crate::operation_and_status::operation;
use tmw_cuts::State;
use tmw_defs::Op;
use tmw_events::Kind;

/// Returns what the registers hold after the operation, if it was answered what they held before.
pub fn after_one(op: Op, state: &State) -> Option<State>
    ensures { Replays state.now (op ∷ []) result }
{
    let mut after = *state;
    match op {
        Op::Read(register, value) => {
            if state[register.get() as usize] != value {
                return None;
            }
        }
        Op::Write(register, value) => after[register.get() as usize] = value,
        Op::Add(register, added, value) => {
            if state[register.get() as usize] != value {
                return None;
            }
            after[register.get() as usize] = value.wrapping_add(added);
        }
    }
    Some(after)
}

/// Returns what the registers hold after a transaction's operations, if each of them was answered what the registers
/// held then.
pub fn replay(text: &[Kind], start: &State) -> Option<State>
    ensures { Replays start.now (operations text.now) result }
{
    let mut state = *start;
    let mut rest = text;
    while let [call, answer, more @ ..] = rest {
        if let Some(op) = operation(*call, *answer) {
            let Some(after) = after_one(op, &state) else {
                return None;
            };
            state = after;
        }
        rest = more;
    }
    Some(state)
}
