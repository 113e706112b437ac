//! Handles that a C program keeps: of a recorder, and of a watch.
#![tactic(auto)]

mod box_parts;
mod held_recorder;
mod held_watch;
mod recorder_handle;
mod recorder_slot;
mod watch_handle;
mod watch_slot;

pub use held_recorder::HeldRecorder;
pub use held_watch::HeldWatch;
pub use recorder_handle::RecorderHandle;
pub use recorder_slot::RecorderSlot;
pub use watch_handle::WatchHandle;
pub use watch_slot::WatchSlot;
