//! The watch for C programs: functions by handles that the program keeps.
#![tactic(auto)]

mod c_counts;
mod c_settings;
mod c_turn;
mod c_verdict;
mod call_status;
mod close;
mod event_letters;
mod exports;
mod judge;
mod kind_exports;
mod laws;
mod open;
mod record;
mod record_room;
mod turn_calls;
mod turn_exports;
