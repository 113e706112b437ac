//! Takes events from a running ring, as they come, and judges them.
#![tactic(auto)]

mod front;
mod keep;
mod pump;
mod pumped;
mod rest;

pub use front::Front;
pub use keep::Keep;
pub use pump::Pump;
pub use pumped::Pumped;
pub use rest::Rest;
