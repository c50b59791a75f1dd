//! Where issued commands are committed.

ghost use Rattle.std.specs.Prelude.{◌≡◌, ◌≤◌, false, [], ◌∷◌, ◌++◌, IfOk, OnErr, OnOk};
ghost use Rattle.edr_banks.specs.Applying.{ended_after, opened_after, reply_of, steps_for};
ghost use Rattle.edr_definitions.specs.Commands.{issue_at};
ghost use Rattle.edr_device.specs.Lent.{Lent};
ghost use Rattle.edr_gates.specs.Taken.{MayTakeAll};
ghost use Rattle.edr_image.specs.Image.{image_size};
ghost use Rattle.edr_run.specs.Cycle.{kind_of};
ghost use Rattle.edr_cycle.specs.Commits.{CommitsOn};

use crate::cycle_log::CycleLog;
use edr_banks::{Ack, Applied, Banks, Command, Kind};
use edr_device::{Failed, Nvm};

// Which command it is.
fn kind_of(command: &Command) -> Kind
    ensures { result ≡ kind_of command.now }
{
    match command {
        Command::Take { .. } => Kind::Take,
        Command::Lock { .. } => Kind::Lock,
        Command::Done { .. } => Kind::Done,
    }
}

/// Where issued commands are committed: banks, and the log of what they acknowledged. What a ledger does beside that is its
/// own affair; it may also wait.
pub trait Ledger {
    ghost use Rattle.edr_banks.specs.Opened.{OpenedBanks};
    ghost use Rattle.edr_cycle.specs.CycleLogged.{CycleLogged};

    ghost banks: { Self → OpenedBanks };

    ghost log: { Self → CycleLogged };

    /// Applies a command that was issued at a tick, and logs what came of it.
    fn commit<N: Nvm>(&mut self, nvm: &mut N, tick: u32, command: &Command) -> Result<(), Failed>
        requires live { (banks self.old).ended ≡ false }
        requires size { image_size (banks self.old).store.header.banks ≤ N.extent nvm.old }
        requires room { 1 ≤ (log self.old).spare }
        ensures lent { Lent N.Nvm nvm.old nvm.new result }
        ensures commits { CommitsOn N.Nvm (issue_at tick command.now ∷ []) result
            (banks self.old) (banks self.new) (log self.old) (log self.new) nvm.old nvm.new };

    /// For how many more acknowledgements there is room.
    fn spare(&self) -> u32
        ensures { result ≡ (log self.now).spare };
}

/// Banks and a log alone.
#[derive(Drop)]
pub struct Books {
    pub banks: Banks,
    pub log: CycleLog,
}

impl Books {
    /// Applies a command that was issued at a tick, logs what came of it, and answers that.
    pub fn commit_answered<N: Nvm>(
        &mut self,
        nvm: &mut N,
        tick: u32,
        command: &Command,
    ) -> Result<Applied, Failed>
        requires live { self.old.banks.ended ≡ false }
        requires size { image_size self.old.banks.store.header.banks ≤ N.extent nvm.old }
        requires room { 1 ≤ self.old.log.spare }
        ensures lent { Lent N.Nvm nvm.old nvm.new result }
        ensures commits { CommitsOn N.Nvm (issue_at tick command.now ∷ []) result
            self.old.banks self.new.banks self.old.log self.new.log nvm.old nvm.new }
        ensures answer { IfOk result (λ a. a ≡ (reply_of self.old.banks command.now).answer) }
        ensures may { MayTakeAll self.old.banks.store.banks (steps_for self.old.banks command.now) }
        ensures next { OnOk result ((self.new.banks ≡ opened_after self.old.banks (steps_for self.old.banks command.now))
            × (self.new.log.commands ≡ self.old.log.commands ++ command.now ∷ [])) }

        // Where it fails, the banks take no command any more; they and the log are what they were.
        ensures failed { OnErr result ((self.new.banks ≡ ended_after self.old.banks) × (self.new.log ≡ self.old.log)) }
    {
        match self.banks.apply(nvm, command) {
            Ok(applied) => {
                let ack = Ack {
                    tick,
                    kind: kind_of(command),
                    applied,
                };
                self.log.push(ack, command);
                Ok(applied)
            }
            Err(_) => Err(Failed),
        }
    }
}

impl Ledger for Books {
    ghost banks = { λ b. b.banks };

    ghost log = { λ b. b.log };

    fn commit<N: Nvm>(&mut self, nvm: &mut N, tick: u32, command: &Command) -> Result<(), Failed> {
        self.commit_answered(nvm, tick, command)?;
        Ok(())
    }

    fn spare(&self) -> u32 {
        self.log.spare()
    }
}
