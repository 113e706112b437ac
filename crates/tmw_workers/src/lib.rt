//! Threads that make the calls of scripts: a player makes one call at a time, and workers play their scripts round after round and
//! record the calls and their answers in a ring.
#![tactic(auto)]

mod ask;
mod bench_stage;
mod close_lines;
mod ending;
mod fault;
mod line;
mod memory_answers;
mod memory_calls;
mod open_lines;
mod orders;
mod outcome;
mod player;
mod record_soon;
mod rising_count;
mod round_end;
mod script_ends;
mod signals;
mod threads;
mod waits;
mod work_script;
mod worker;

pub use ask::ends;
pub use bench_stage::BenchStage;
pub use close_lines::close_all;
pub use ending::Ending;
pub use fault::BenchFault;
pub use line::Line;
pub use memory_answers::MemoryAnswers;
pub use memory_calls::{DirectCalls, MemoryCalls};
pub use open_lines::open_all;
pub use orders::Orders;
pub use outcome::Outcome;
pub use player::Player;
pub use rising_count::Count;
pub use round_end::RoundEnd;
pub use script_ends::ends_of;
pub use signals::Signals;
pub use threads::{Playing, start_all};
pub use waits::{pause, tell, wait};
pub use work_script::work;
pub use worker::Worker;
