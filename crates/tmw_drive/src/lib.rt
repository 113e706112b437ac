//! One thread makes the calls of all scripts of a workload, in the workload's order, and what it records is judged.
#![tactic(auto)]

mod drive_workload;
mod fault;
mod play;

pub use drive_workload::drive;
pub use fault::DriveFault;
pub use tmw_workers::{Ending, Outcome, Player, ends};
