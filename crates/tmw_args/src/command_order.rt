use crate::bench_options::BenchOptions;
use crate::run_options::RunOptions;
use crate::which_memory::Which;
use tmw_options::{Bounds, JudgeOptions, ShowOptions};

/// What the command line asks the program to do.
#[derive(Clone, Copy, PartialEq, Eq, Debug)]
pub enum Order {
    /// To judge the trace on standard input, as these options say.
    Judge(JudgeOptions),
    /// To judge the trace on standard input, and to show where it went wrong, as these options say.
    Show(ShowOptions),
    /// To run the workload on standard input on this memory, and to judge the run within these bounds. The options say
    /// what is written of it.
    Drive {
        memory: Which,
        written: RunOptions,
        bounds: Bounds,
    },
    /// To run the workload on standard input in threads on this memory, and to judge what they record, as these options
    /// say.
    Bench {
        memory: Which,
        options: BenchOptions,
    },
    /// To take the ring's steps that standard input lists.
    Steps,
}
