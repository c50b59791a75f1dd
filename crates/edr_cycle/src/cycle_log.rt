//! The log of a cycle that runs.

ghost use Rattle.std.specs.Prelude.{◌≡◌, ◌≤◌, ◌+◌, ◌-◌, ◌++◌, ◌∷◌, [], IfOk};

use crate::logged_command::LoggedCommand;
use edr_banks::{Ack, Command, Log};
use std::alloc::{AllocError as OutOfMemory, Global};
use std::marker::Model;
use std::snapshot::Snapshot;

/// Acknowledged commands in order, with room for more that was taken before. What is told of a cycle is the acknowledgements; the
/// commands themselves are kept in proofs alone.
#[derive(Drop)]
pub struct CycleLog {
    log: Log,
    commands: Vec<LoggedCommand>,
}

impl Model for CycleLog {
    ghost use Rattle.edr_cycle.specs.CycleLogged.{CycleLogged};

    ghost Value = { CycleLogged };

    ghost use Rattle.std.specs.Prelude.{◌≤◌, ◌+◌, vec_len, vec_capacity};
    ghost use Rattle.edr_cycle.specs.LoggedCommands.{commands_kept};

    ghost view = { λ l. record {
      acks = l.log.acks;
      commands = commands_kept l.commands.items;
      spare = l.log.spare;
    } };

    ghost invariant = { λ l. vec_len l.commands + l.log.spare ≤ vec_capacity l.commands };
}

impl CycleLog {
    /// An empty log with room for at least `room` acknowledgements.
    pub fn with_room(alloc: Global, room: u32) -> Result<CycleLog, OutOfMemory>
        ensures empty { IfOk result (λ l. l.acks ≡ []) }
        ensures no_command { IfOk result (λ l. l.commands ≡ []) }
        ensures room { IfOk result (λ l. room ≤ l.spare) }
    {
        let log = Log::with_room(alloc, room)?;
        let commands = Vec::with_capacity(alloc, log.spare() as usize)?;
        Ok(CycleLog { log, commands })
    }

    /// For how many more acknowledgements there is room.
    pub fn spare(&self) -> u32
        ensures { result ≡ self.now.spare }
    {
        self.log.spare()
    }

    /// Adds an acknowledged command at the end. It takes no memory.
    pub fn push(&mut self, ack: Ack, command: &Command)
        requires { 1 ≤ self.old.spare }
        ensures { self.new ≡ record {
          acks = self.old.acks ++ ack ∷ [];
          commands = self.old.commands ++ command.now ∷ [];
          spare = self.old.spare - 1;
        } }
    {
        let entry = LoggedCommand {
            command: Snapshot::of(command),
        };
        self.commands.push_reserved(entry);
        self.log.push(ack);
    }

    /// The acknowledgements, the oldest first.
    pub fn acks(&self) -> &[Ack]
        ensures { result.now ≡ self.now.acks }
    {
        self.log.acks()
    }

    /// What is told of the cycle: the acknowledgements.
    pub fn told(self) -> Log
        ensures { result.acks ≡ self.acks }
    {
        self.log
    }
}
