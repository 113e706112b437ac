//! The text of a trace: a header's line, then a line for each event.
#![tactic(auto)]

mod event_line;
mod first_number;
mod give_event;
mod header;
mod header_line;
mod header_text;
mod laws;
mod trace;
mod trace_line_format;
mod trace_text;
mod version;
mod whole_trace;

pub use event_line::event_of;
pub use header::Header;
pub use header_line::{first_value, header_of};
pub use laws::law_3;
pub use tmw_lines::TextFault as TraceFault;
pub use trace::Trace;
pub use trace_line_format::TraceLines;
pub use trace_text::write_trace;
pub use version::{Version, version_of};
pub use whole_trace::read_trace;
