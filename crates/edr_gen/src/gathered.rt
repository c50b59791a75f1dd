//! A sink that gathers all bytes.
ghost use Rattle.std.specs.Prelude.{◌≡◌, ◌≤◌, []};
ghost use Rattle.edr_device.specs.Faults.{last_number};

use edr_device::{Failed, Sink};
use std::alloc::Global;

/// Bytes that are gathered in memory. A put fails where there is none left.
#[derive(Drop)]
pub(crate) struct Gathered {
    pub(crate) bytes: Vec<u8>,
    faults: u64,
    ghost faults_within: { faults ≤ last_number },
}

impl Gathered {
    pub(crate) fn new(alloc: Global) -> Gathered
        ensures { result.bytes.items ≡ [] }
    {
        Gathered {
            bytes: Vec::new(alloc),
            faults: 0,
        }
    }
}

impl Sink for Gathered {
    ghost use Rattle.std.specs.Prelude.{Some};

    ghost content = { λ s. Some s.bytes.items };

    ghost faults = { λ s. s.faults };

    ghost faults_fit = { λ s. s.faults_within };

    fn put(&mut self, piece: &[u8]) -> Result<usize, Failed> {
        match self.bytes.extend_from_slice(piece) {
            Ok(()) => Ok(piece.len()),
            Err(_) => {
                self.faults = self.faults.saturating_add(1);
                Err(Failed)
            }
        }
    }
}
