//! A sink in memory.
ghost use Rattle.std.specs.Prelude.{◌≡◌, ◌≤◌, ◌+◌, Some, [], length, vec_len, vec_capacity, is_ok, IfOk, OnErr, OnOk};
ghost use Rattle.edr_device.specs.Faults.{HasCause};
ghost use Rattle.edr_device.specs.Stream.{Put};

use crate::calls::Calls;
use crate::stream::{Failed, Sink};
use std::alloc::{AllocError as OutOfMemory, Global};

/// A sink that keeps bytes in memory, of which it takes all when it is made. It fails at the calls that were numbered
/// then, and where there is no room left.
#[derive(Drop)]
pub struct MemSink {
    pub(crate) bytes: Vec<u8>,
    // How many more bytes it takes.
    pub(crate) room: usize,
    pub(crate) piece: usize,
    pub(crate) calls: Calls,
    ghost reserved: { vec_len bytes + room ≤ vec_capacity bytes },
    ghost piece_some: { 1 ≤ piece },
}

impl MemSink {
    ghost use Rattle.edr_device.specs.SinkState.{new_sink, sink_state};

    /// An empty sink with room for that many bytes. A call takes at most `piece` of them. The calls that are numbered in
    /// `fails`, from 1, fail.
    pub fn new(
        alloc: Global,
        room: usize,
        piece: usize,
        fails: Vec<u32>,
    ) -> Result<MemSink, OutOfMemory>
        requires { 1 ≤ piece }
        ensures { IfOk result (λ s. sink_state s ≡ new_sink room piece fails.items) }
    {
        let bytes = Vec::with_capacity(alloc, room)?;
        Ok(MemSink {
            bytes,
            room,
            piece,
            calls: Calls::new(fails),
        })
    }

    /// The bytes that were put.
    pub fn bytes(&self) -> &[u8]
        ensures { result.now ≡ (sink_state self.now).content }
    {
        &self.bytes
    }
}

impl Sink for MemSink {
    ghost use Rattle.std.specs.Prelude.{Some};
    ghost use Rattle.edr_device.specs.CallCounts.{after_call};
    ghost use Rattle.edr_device.specs.SinkState.{PutFails, room_in_all, sink_state, taken_of};

    ghost content = { λ s. Some (sink_state s).content };

    ghost faults = { λ s. (sink_state s).calls.faults };

    ghost faults_fit = { λ s. s.calls.faults_within };

    /// It fails exactly where the call is numbered or no room is left. Otherwise it takes as many bytes as it may.
    fn put(&mut self, piece: &[u8]) -> Result<usize, Failed>
        requires { 1 ≤ length piece.now }
        ensures some { IfOk result (λ n. 1 ≤ n) }
        ensures within { IfOk result (λ n. n ≤ length piece.now) }
        ensures told { Put piece.now result (Some (sink_state self.old).content) (Some (sink_state self.new).content) }
        ensures cause { HasCause (sink_state self.old).calls.faults (sink_state self.new).calls.faults result }
        ensures fails { OnErr result (PutFails (sink_state self.old)) }
        ensures succeeds { OnOk result (¬ PutFails (sink_state self.old)) }
        ensures taken { IfOk result (λ n. n ≡ taken_of (sink_state self.old) (length piece.now)) }
        ensures room { room_in_all (sink_state self.new) ≡ room_in_all (sink_state self.old) }
        ensures counts { (sink_state self.new).calls ≡ after_call (is_ok result) (sink_state self.old).calls }
        ensures piece { (sink_state self.new).piece ≡ (sink_state self.old).piece }
    {
        self.calls.begin(self.room > 0)?;
        let n = self.piece.min(piece.len()).min(self.room);
        // The room was reserved, so no memory is taken.
        if self.bytes.extend_from_slice(&piece[..n]).is_err() {
            unreachable!();
        }
        self.room -= n;
        Ok(n)
    }
}
