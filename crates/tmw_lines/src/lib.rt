//! Lines of a text, read from a source, of which at most 4,096 bytes are held: a header's line, then a line for each item.
#![tactic(auto)]

mod first_line;
mod give_lines;
mod give_result;
mod items;
mod line_buffer;
mod line_format;
mod line_length;
mod line_piece;
mod lines;
mod long_line;
mod next_line;
mod taker;
mod text_fault;
mod vec_taker;
mod whole_text;

pub use give_result::GiveResult;
pub use items::{Reached, give_items, read_items};
pub use line_buffer::LineBuffer;
pub use line_format::LineFormat;
pub use line_length::length_before;
pub use line_piece::{LinePiece, next_piece};
pub use lines::Lines;
pub use long_line::{LineEnd, skip_line};
pub use taker::{Stop, Taker};
pub use text_fault::TextFault;
pub use whole_text::read_lines;
