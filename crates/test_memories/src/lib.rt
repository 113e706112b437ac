//! Tests of the memories, of the driver, of the bench and of its workers, with memories made for them: no part of the product.
#![tactic(auto)]

#[cfg(test)]
mod allocation_failures;
#[cfg(test)]
mod bench;
#[cfg(test)]
mod call_counter;
#[cfg(test)]
mod drive;
#[cfg(test)]
mod locks_and_counts;
#[cfg(test)]
mod one_writer;
#[cfg(test)]
mod worker_stop;
#[cfg(test)]
mod workload_log;
