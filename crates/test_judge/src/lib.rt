//! Tests of the judge and of the crates below it, among them seeded histories on which `judge` and the plain check agree: no part
//! of the product.
#![tactic(auto)]

#[cfg(test)]
mod allocation_failures;
#[cfg(test)]
mod event_words;
#[cfg(test)]
mod first_option;
#[cfg(test)]
mod io_failures;
#[cfg(test)]
mod random_histories;
#[cfg(test)]
mod tracker;
#[cfg(test)]
mod window_ends;
#[cfg(test)]
mod witness;
