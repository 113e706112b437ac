//! The verdict on a history as its events come, with no event kept.
#![tactic(auto)]

mod both_monitor;
mod broken_rule;
mod history_digest;
mod is_quiet;
mod is_so_far;
mod judge_whole;
mod monitor;
mod next_wrong;
mod outcome_check;
mod search_or_close;
mod take;
mod take_at_once;

pub use both_monitor::BothMonitor;
pub use broken_rule::BrokenRule;
pub use judge_whole::{judge, judge_for, judge_from};
pub use monitor::Monitor;
pub use tmw_defs::{Criterion, Verdict, Why};
pub use tmw_options::{BadBounds, Bounds};
