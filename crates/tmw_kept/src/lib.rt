//! What is kept of a window, a mark for each event: its transactions and calls, and which of the window's they are.
#![tactic(auto)]

mod kept_events;
mod name_in_window;
mod piece;
mod register_use;
mod transaction;

pub use kept_events::{is_among, kept_of, places_of};
pub use name_in_window::{Name, names_of, owner, owner_in};
pub use piece::{Call, Piece, calls, pieces, puts};
pub use register_use::{find_unlike, is_answered, known_after, left_by, needed_of, needs};
pub use transaction::{
    TextOperations, Transaction, precedes, precedes_at, status_of, text_at, transactions,
};
