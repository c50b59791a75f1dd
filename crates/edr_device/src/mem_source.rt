//! A source in memory.
ghost use Rattle.std.specs.Prelude.{◌≡◌, ◌≤◌, Some, length, is_ok, IfOk, OnErr, OnOk};
ghost use Rattle.edr_device.specs.Faults.{HasCause};
ghost use Rattle.edr_device.specs.Stream.{Took};

use crate::calls::Calls;
use crate::stream::{Failed, Source};

/// A source that gives bytes out of memory, and fails at the calls that were numbered when it was made.
#[derive(Drop)]
pub struct MemSource {
    pub(crate) bytes: Vec<u8>,
    // How many of them were taken.
    pub(crate) at: usize,
    pub(crate) piece: usize,
    pub(crate) calls: Calls,
    ghost at_within: { at ≤ length bytes.items },
    ghost piece_some: { 1 ≤ piece },
}

impl MemSource {
    ghost use Rattle.edr_device.specs.CallCounts.{no_calls};
    ghost use Rattle.edr_device.specs.SourceState.{source_state};

    /// A source of these bytes. A call gives at most `piece` of them. The calls that are numbered in `fails`, from 1, fail.
    pub fn new(bytes: Vec<u8>, piece: usize, fails: Vec<u32>) -> MemSource
        requires { 1 ≤ piece }
        ensures { source_state result ≡ record { left = bytes.items; piece = piece; calls = no_calls fails.items } }
    {
        MemSource {
            bytes,
            at: 0,
            piece,
            calls: Calls::new(fails),
        }
    }
}

impl Source for MemSource {
    ghost use Rattle.std.specs.Prelude.{Some};
    ghost use Rattle.edr_device.specs.CallCounts.{IsToFail, after_call};
    ghost use Rattle.edr_device.specs.SourceState.{given_of, source_state};

    ghost left = { λ s. Some (source_state s).left };

    ghost faults = { λ s. (source_state s).calls.faults };

    ghost faults_fit = { λ s. s.calls.faults_within };

    /// It fails exactly where the call is numbered. Otherwise it gives as many bytes as it may.
    fn take(&mut self, into: &mut [u8]) -> Result<usize, Failed>
        requires { 1 ≤ length into.old }
        ensures within { IfOk result (λ n. n ≤ length into.old) }
        ensures told { Took into.old into.new result (Some (source_state self.old).left) (Some (source_state self.new).left) }
        ensures cause { HasCause (source_state self.old).calls.faults (source_state self.new).calls.faults result }
        ensures fails { OnErr result (IsToFail (source_state self.old).calls) }
        ensures succeeds { OnOk result (¬ IsToFail (source_state self.old).calls) }
        ensures given { IfOk result (λ n. n ≡ given_of (source_state self.old) (length into.old)) }
        ensures counts { (source_state self.new).calls ≡ after_call (is_ok result) (source_state self.old).calls }
        ensures piece { (source_state self.new).piece ≡ (source_state self.old).piece }
    {
        self.calls.begin(true)?;
        let left = &self.bytes[self.at..];
        let n = self.piece.min(into.len()).min(left.len());
        into[..n].copy_from_slice(&left[..n]);
        self.at += n;
        Ok(n)
    }
}
