//! The command `show`: reads a trace, judges it event by event, and writes where it went wrong: its last window, drawn in
//! columns, as traces of its own, or drawn by a page of HTML.
#![tactic(auto)]

mod assumed_source;
mod form_text;
mod frame;
mod laws;
mod needed_events;
mod origin_sentence;
mod page;
mod run_verdict;
mod sentence_parts;
mod sentences;
mod show_answer;
mod show_command;
mod show_trace;
mod shown_trace;
mod window_text;

pub use form_text::shown_text;
pub use laws::{law_traces, law_why};
pub use needed_events::NeededEvents;
pub use show_command::run_show;
pub use shown_trace::ShownTrace;
