//! What the program writes: the line that reports a verdict, the line of a fault, and the exit status that goes with each;
//! and what standard error is told.
#![tactic(auto)]

mod exit_status;
mod fault;
mod fault_answer;
mod fault_line;
mod quote;
mod remark;
mod report_line;
mod summary_line;

pub use exit_status::{FAULT_STATUS, both_status, status_of};
pub use fault::Fault;
pub use fault_answer::{answer_fault, fault_of};
pub use fault_line::write_fault;
pub use quote::quote_fault;
pub use remark::{Remark, nothing_shown_if, send_remark};
pub use report_line::{report_by, report_strict, report_text};
pub use summary_line::summary_text;
