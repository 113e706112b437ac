//! What an online judge keeps of a history: the set of states in which the past may have ended, and the transactions since.
#![tactic(auto)]

mod effect;
mod ghost_list;
mod lowest_bit;
mod operation_and_status;
mod states;
mod turn;
mod txn;
mod window;

pub use effect::Effect;
pub use ghost_list::GhostList;
pub use lowest_bit::lowest;
pub use operation_and_status::{operation, status_after};
pub use states::{State, States};
pub use turn::{Move, Stage, Turn};
pub use txn::{MOST_TRANSACTIONS, Txn};
pub use window::Window;
