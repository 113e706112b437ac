//! A serial order of the open window's transactions, updated by each event, so that a known order needs no search.
#![tactic(auto)]

mod explains;
mod order_search;
mod witness;
mod witness_update;

pub use witness::Witness;
