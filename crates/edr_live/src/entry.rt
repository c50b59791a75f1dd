//! A command that was shown, as a copy keeps it.

use crate::shown::ShownCommand;
use std::snapshot::Snapshot;

/// A command that was shown. It is kept in proofs alone, and takes no bytes.
#[derive(Drop)]
pub struct ShownEntry {
    pub(crate) command: Snapshot<ShownCommand>,
}
