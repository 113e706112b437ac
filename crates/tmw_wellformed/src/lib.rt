//! Decides event by event whether a history is well-formed, in a few bytes of memory.
#![tactic(auto)]

mod malformed;
mod note;
mod phase;
mod phases;
mod tracker;

pub use malformed::Malformed;
pub use note::{End, Note};
pub use tracker::Tracker;
