//! The line of a cycle that ran, as a reader beside its threads tells it.

/// What is told of a cycle that ran.
#[derive(Clone, Copy, Debug, PartialEq, Eq)]
pub struct LiveLine {
    /// Which cycle of the run it is, from 1 on.
    pub cycle: u32,
    /// How many commands its log has.
    pub commands: u32,
    /// How many events the banks have after these.
    pub events: u8,
}
