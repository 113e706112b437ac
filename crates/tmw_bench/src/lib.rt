//! Threads carry the scripts of a workload out on a memory, round after round, and what they record in a ring is judged meanwhile.
#![tactic(auto)]

mod bench;
mod bench_keep;
mod bench_result;
mod hear_all;
mod hunt_result;
mod hunt_window;
mod judge_turns;
mod lead;
mod play_rounds;
mod progress;

pub use bench::{hunt, run_bench};
pub use bench_result::BenchResult;
pub use hunt_result::HuntResult;
pub use progress::{Progress, Silent};
pub use tmw_options::Settings;
pub use tmw_workers::{BenchFault, DirectCalls, MemoryCalls, Signals, work};
