//! The words of the command line: which order they ask for.
#![tactic(auto)]

mod bench_options;
mod command_order;
mod command_words;
mod criterion_names;
mod grammar;
mod parse;
mod refusal;
mod run_options;
mod which_memory;

pub use bench_options::BenchOptions;
pub use command_order::Order;
pub use command_words::read_words;
pub use refusal::Refusal;
pub use run_options::RunOptions;
pub use which_memory::Which;
