//! The command `steps`: reads a list of a ring's steps, makes them on a new ring's machine, and writes the replies.
#![tactic(auto)]

mod laws;
mod reply_line;
mod size_line;
mod step_line;
mod step_list;
mod steps_command;
mod steps_format;
mod steps_line_format;
mod whole_steps;

pub use laws::law_steps;
pub use reply_line::put_replies;
pub use size_line::{SizeLine, size_of};
pub use step_line::step_of;
pub use step_list::StepList;
pub use steps_command::{RingRun, run_steps};
pub use whole_steps::read_steps;
