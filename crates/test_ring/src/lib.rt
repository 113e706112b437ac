//! Tests of the ring, of the machine of its steps, of the pump, and of threads that use them at once: no part of the product.
#![tactic(auto)]

#[cfg(test)]
mod pump;
#[cfg(test)]
mod ring;
#[cfg(test)]
mod steps;
#[cfg(test)]
mod threads;
