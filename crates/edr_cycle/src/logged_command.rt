//! A command as the log of a cycle keeps it.

use edr_banks::Command;
use std::snapshot::Snapshot;

/// A command that was acknowledged, in proofs alone: it takes no bytes.
#[derive(Drop)]
pub struct LoggedCommand {
    pub(crate) command: Snapshot<Command>,
}
