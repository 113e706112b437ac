//! Which serial orders of a window's transactions are legal, and in which states they end: one search, by who precedes
//! whom and who reads from whom. Layers tell by opacity what each part of the window may end in.
#![tactic(auto)]

#[tactic(auto, using(crate::proofs::Bits::masks))]
mod completion_ends;
mod consequence;
mod effects;
mod end_set;
mod end_states;
mod find_serial_order;
#[tactic(auto, using(crate::proofs::Bits::masks))]
mod forced_ends;
#[tactic(auto, using(crate::proofs::Bits::masks))]
mod last_writers;
mod layer_steps;
mod layers;
mod node;
mod one_end;
mod precedence;
#[tactic(auto, using(crate::proofs::Bits::masks))]
mod read_consequences;
#[tactic(auto, using(crate::proofs::Bits::masks))]
mod root;
#[tactic(auto, using(crate::proofs::Bits::masks))]
mod same_ends;
#[tactic(auto, using(crate::proofs::Bits::masks))]
mod search;
mod serial_order;
mod settle_sources;
mod source_choices;
#[tactic(auto, using(crate::proofs::Bits::masks))]
mod states_differ;
mod window_outcomes;

pub use end_set::EndSet;
pub use end_states::EndStates;
pub use find_serial_order::find_order;
pub use forced_ends::replace_by_forced;
pub use layer_steps::{is_next, may_hold};
pub use layers::layer;
pub use one_end::is_forced_with;
pub use same_ends::ends_alike;
pub use serial_order::{SerialOrder, SerialStep};
pub use window_outcomes::{outcomes, possible, replace_by_outcomes};
