//! Of a violated window, a part that is violated by itself, from which nothing more can be taken out.
#![tactic(auto)]

mod is_left_of;
mod is_violated;
mod is_violated_part;
mod marks;
mod part_search;
mod part_test;
mod readers;
mod whole_window;

pub use part_search::{MOST_EVENTS, find_part};
