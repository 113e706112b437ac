//! The command `judge`: reads a trace, judges it event by event, by opacity, by strict serializability or by both, and
//! writes a report line for each.
#![tactic(auto)]

mod answer_lines;
mod by_criterion;
mod ending;
mod feed_events;
mod judge;
mod judge_command;
mod judge_result;
mod judges;
mod lacks;
mod meeting;
mod monitors;
mod progress;
mod report;
mod tally;

pub use by_criterion::ByCriterion;
pub use judge_command::{run_judge, run_judge_with};
pub use report::Report;
