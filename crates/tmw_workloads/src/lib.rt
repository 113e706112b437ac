//! Workloads: for each thread a script of calls, and the order in which one thread makes them in its stead. One is read
//! from JSON.
#![tactic(auto)]

mod calls;
mod fault;
mod json_array;
mod json_fields;
mod order;
mod registers;
mod scripts;
mod transaction;
mod whole_workload;
mod workload;

pub use fault::WorkloadFault;
pub use whole_workload::read_workload;
pub use workload::Workload;
