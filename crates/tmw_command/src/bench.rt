//! The command `bench`: a workload, read from its text and carried out by threads on a memory, and the trace, the lines and the
//! window that answer it.

mod bench_command;
mod bench_run;
mod bench_source;
mod bench_text;
mod hunt_run;

pub use bench_command::run_bench_cmd;
pub use bench_run::BenchRun;
pub use hunt_run::HuntRun;
