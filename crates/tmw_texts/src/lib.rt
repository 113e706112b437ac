//! Texts of what a window has: its events, states, values and transactions, and its traces.
#![tactic(auto)]

mod event_text;
mod item_text;
mod legend;
mod numbers;
mod state_line;
mod traces;
mod transaction_names;
mod value_names;

pub use event_text::push_event;
pub use item_text::{ItemText, push_each, push_list};
pub use legend::Legend;
pub use numbers::{push_blanks, push_values};
pub use state_line::StateLine;
pub use traces::push_traces;
pub use transaction_names::{TransactionName, push_label};
pub use value_names::{LongValues, Value, long_values, push_names, push_shown};
