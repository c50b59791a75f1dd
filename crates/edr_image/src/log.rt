//! What a cycle acknowledged, and what a run tells of each of its cycles.

ghost use Rattle.std.specs.Prelude.{◌≡◌, ◌≤◌, ◌+◌, ◌-◌, ◌++◌, ◌∷◌, [], ℕ, IfOk};

use crate::Ack;
use std::alloc::{AllocError as OutOfMemory, Global};
use std::marker::Model;

/// Acknowledged commands in order, with room for more that was taken before.
#[derive(Drop)]
pub struct Log {
    acks: Vec<Ack>,
    spare: u32,
}

impl Model for Log {
    ghost use Rattle.edr_image.specs.Logged.{Logged};

    ghost Value = { Logged };

    ghost use Rattle.std.specs.Prelude.{◌≤◌, ◌+◌, vec_len, vec_capacity};

    ghost view = { λ l. record { acks = l.acks.items; spare = l.spare } };

    ghost invariant = { λ l. vec_len l.acks + l.spare ≤ vec_capacity l.acks };
}

impl Log {
    /// An empty log with room for at least `room` acknowledgements.
    pub fn with_room(alloc: Global, room: u32) -> Result<Log, OutOfMemory>
        ensures empty { IfOk result (λ l. l.acks ≡ []) }
        ensures room { IfOk result (λ l. room ≤ l.spare) }
    {
        let acks = Vec::with_capacity(alloc, room as usize)?;
        Ok(Log { acks, spare: room })
    }

    /// For how many more acknowledgements there is room.
    pub fn spare(&self) -> u32
        ensures { result ≡ self.now.spare }
    {
        self.spare
    }

    /// Adds an acknowledgement at the end. It takes no memory.
    pub fn push(&mut self, ack: Ack)
        requires { 1 ≤ self.old.spare }
        ensures { self.new ≡ record { acks = self.old.acks ++ ack ∷ []; spare = self.old.spare - 1 } }
    {
        self.acks.push_reserved(ack);
        self.spare -= 1;
    }

    /// The acknowledgements, the oldest first.
    pub fn acks(&self) -> &[Ack]
        ensures { result.now ≡ self.now.acks }
    {
        &self.acks
    }
}

/// What is told of one cycle of a run.
#[derive(Drop)]
pub enum CycleReport {
    /// Its start was stopped in this changing call, from 1 to 6.
    StartStopped {
        call: u32,
    },
    /// It ran with this number, was stopped in this changing call of its commands or not at all, and acknowledged
    /// what the log holds.
    Ran {
        number: u32,
        stopped: Option<u32>,
        log: Log,
    },
}
