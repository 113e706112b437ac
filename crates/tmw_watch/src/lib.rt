//! A watch in the program's own process: threads record what they do with a transactional memory, and one of them has
//! it judged meanwhile. The watch and the recorders own their ring together, so that none has a lifetime.
#![tactic(auto)]

mod close;
mod close_error;
mod open;
mod recorder;
mod recorder_order;
mod report;
mod settings;
mod watch;

pub use close_error::CloseError;
pub use recorder::Recorder;
pub use report::WatchReport;
pub use settings::WatchSettings;
pub use tmw_counts::Summary;
pub use tmw_defs::Counts;
pub use watch::Watch;
