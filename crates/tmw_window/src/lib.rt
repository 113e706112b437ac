//! The place where a run went wrong: its last window, and the states from which that window begins.
#![tactic(auto)]

mod kept_window;
mod last_window;
mod laws;
mod shown_window;
mod window_change;
mod window_taker;

pub use kept_window::KeptWindow;
pub use last_window::LastWindow;
pub use laws::{law_states, law_window};
pub use shown_window::ShownWindow;
pub use window_change::WindowChange;
