//! The command `drive`: a workload, read from its text and driven on a memory, and the trace and the line that answer it. The command
//! `bench` reads and writes by the same functions.
#![tactic(auto)]

mod drive_command;
mod drive_run;
mod drive_source;
mod drive_text;
mod ends_line;
mod workload_source;

pub use drive_command::run_drive;
pub use drive_run::{DriveRun, header_of};
pub use drive_text::{add_summary, put_driven};
pub use ends_line::ends_text;
pub use workload_source::read_source;
