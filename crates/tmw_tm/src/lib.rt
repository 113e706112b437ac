//! What a transactional memory is to its users: the calls of one transaction, and what each may be answered.
#![tactic(auto)]

mod answer;
mod memory;
mod tx;

pub use answer::{Did, Got};
pub use memory::Tm;
pub use tx::{Entries, Entry, Tx};
