//! What it means that a history of a transactional memory is opaque, or strictly serializable: the definitions, from an event to
//! opacity and to the verdict, and the laws about them.
#![tactic(auto)]

mod counts;
mod criteria_law;
mod criterion;
mod cut_law;
mod op;
mod quiet_law;
mod status;
mod texts_law;
mod verdict;

pub use counts::Counts;
pub use criteria_law::law_criteria;
pub use criterion::{Asked, Criterion};
pub use cut_law::law_1;
pub use op::Op;
pub use quiet_law::law_2;
pub use status::Status;
pub use texts_law::law_texts;
pub use verdict::{Verdict, Why};
