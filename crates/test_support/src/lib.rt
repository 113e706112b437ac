//! What the tests of several crates share: no part of the product.
#![tactic(auto)]

mod events;
mod seed;

pub use events::{FIRST, SECOND, dirty_read, one, other};
pub use seed::Seed;
