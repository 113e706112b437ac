//! The command line: its run from a source to a sink, by the order that its words ask for.
#![tactic(auto)]

mod bench;
mod command_run;
mod memories;

pub use bench::{BenchRun, HuntRun, run_bench_cmd};
pub use command_run::run_command;
pub use memories::Memories;
pub use tmw_args::{BenchOptions, Order, Refusal, RunOptions, Which, read_words};
pub use tmw_drive_command::{DriveRun, ends_text, run_drive};
