use tmw_events::Registers;
use tmw_watch::Recorder;

/// What a recorder's handle holds.
#[derive(Drop)]
pub struct HeldRecorder {
    pub recorder: Recorder,
    /// How many registers the watched memory has.
    pub registers: Registers,
}
