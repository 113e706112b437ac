//! Scripts of calls, and their runs: what a thread records that carries a script out on a memory, or by turns, where the
//! caller makes each call itself and tells the answer.
#![tactic(auto)]

mod answers_fit;
mod call_place;
mod laws;

pub use answers_fit::{fits, is_abort};
pub use call_place::is_placed;
pub use laws::{law_runs, law_turns};
