//! A reason why a window is violated, which speaks of what is kept of it, and where a value comes from that no order explains.
#![tactic(auto)]

// The reason: the steps that speak of what is drawn, which follow, what they come to, which are needed, and the cases.
mod candidates;
mod case_search;
mod derivation_search;
mod drawn_ends;
mod drawn_steps;
mod drawn_transaction;
mod prune_steps;
mod reason;
mod reason_case;
mod reason_question;
mod reason_step;
mod step_closure;
mod step_facts;
mod step_rules;

// Where a value comes from.
mod origin;

pub use origin::{Fate, Origin, ReadOrigin, find_origin};
pub use reason::{find_reason, law_reason};
pub use reason_case::{Derivation, Reason, ReasonCase};
pub use reason_step::{Contradiction, ReasonStep, ValueSource};
