//! The plain check of a whole recorded history: whether it is opaque, or strictly serializable, by a search through the serial
//! orders of each of its prefixes. It knows no windows, and is what the monitor is compared with.
#![tactic(auto)]

mod completion;
mod judge;
mod operation_and_status;
mod order;
mod plain_transaction;
mod replay_text;
mod whole_verdict;

pub use judge::{judge_whole, judge_whole_for, judge_whole_from};
pub use whole_verdict::{Whole, WholeFault};
