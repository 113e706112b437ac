//! A memory as a user writes one: a type with atomics of its own, and what it says of its answers.
#![tactic(auto)]

mod one_writer;

pub use one_writer::OneWriter;
