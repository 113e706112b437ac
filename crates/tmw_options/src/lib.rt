//! What the commands `judge` and `show` are asked to do, the settings of a bench, and the bounds by which all judge.
#![tactic(auto)]

mod bench_settings;
mod bounds;
mod form;
mod judge_options;
mod show_options;

pub use bench_settings::Settings;
pub use bounds::{BadBounds, Bounds};
pub use form::Form;
pub use judge_options::JudgeOptions;
pub use show_options::ShowOptions;
