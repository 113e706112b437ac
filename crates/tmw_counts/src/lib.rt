//! What a history has shown beside its verdict, counted as its events come.
#![tactic(auto)]

mod counted_part;
mod counter;
mod part_summary;
mod summary;
mod threads;

pub use counted_part::{counted_by, is_open};
pub use counter::Counter;
pub use part_summary::count_part;
pub use summary::Summary;
pub use threads::Threads;
