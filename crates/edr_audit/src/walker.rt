//! A branch that takes the commands of a cycle, with the text of its acknowledgements.
ghost use Rattle.std.specs.Prelude.{◌≡◌, ◌<◌, ◌^◌, ◌≤◌, IfOk, OnOk, length, map, fold};
ghost use Rattle.edr_audit.specs.Branches.{numbered_command, numbered_pre};
ghost use Rattle.edr_audit.specs.Told.{issue_at, past_any, past_own};

use crate::compared::Compared;
use crate::lines::{kind_of, with_ack};
use crate::walk::Walk;
use edr_image::{Ack, Header};
use edr_record::{Command, Key, Pre};
use std::alloc::{AllocError as OutOfMemory, Global};
use std::marker::Model;

/// The cycle's number; the walk; and the texts so far, as they are if the cycle takes all its steps, and if its stop is
/// reached.
#[derive(Drop)]
pub struct Walker {
    number: u32,
    walk: Walk,
    off: Compared,
    cut: Compared,
}

impl Model for Walker {
    ghost use Rattle.edr_audit.specs.Branches.{WalkerState};

    ghost Value = { WalkerState };

    ghost use Rattle.std.specs.Prelude.{◌≤◌};

    ghost view = { λ w. record { number = w.number; walk = w.walk; off = w.off; cut = w.cut } };

    ghost invariant = { λ w. 1 ≤ w.number };
}

/// Where a text is told: the report, the header of the banks, and the place of the cycle in the run.
#[derive(Clone, Copy)]
pub struct Telling<'a> {
    pub report: &'a [u8],
    pub header: Header,
    pub place: u64,
}

impl Walker {
    // Takes a command of this cycle.
    fn past(
        &mut self,
        alloc: Global,
        telling: &Telling<'_>,
        tick: u32,
        command: &Command,
    ) -> Result<(), OutOfMemory>
        requires { length telling.now.report.now < 2 ^ 32 }
        ensures { OnOk result (self.new ≡ past_own telling.now self.old (issue_at tick command.now)) }
    {
        let applied = self.walk.command(alloc, telling.header, command)?;
        if self.walk.goes_on() {
            let kind = kind_of(command);
            let ack = Ack {
                tick,
                kind,
                applied,
            };
            self.off = with_ack(self.off, telling.report, telling.place, &ack);
            self.cut = with_ack(self.cut, telling.report, telling.place, &ack);
        }
        Ok(())
    }
}

// The pre part of the cycle with this number.
fn with_number(pre: &Pre, number: u32) -> Pre
    requires { 1 ≤ number }
    ensures { result ≡ numbered_pre number pre.now }
{
    Pre {
        key: Key {
            cycle: number,
            zero: pre.key.zero,
        },
        ..*pre
    }
}

// The command of the cycle with this number.
fn numbered(command: &Command, number: u32) -> Command
    requires { 1 ≤ number }
    ensures { result ≡ numbered_command number command.now }
{
    match command {
        Command::Take { pre } => Command::Take {
            pre: with_number(pre, number),
        },
        Command::Lock { pre } => Command::Lock {
            pre: with_number(pre, number),
        },
        Command::Done { crash } => Command::Done { crash: *crash },
    }
}

impl Walker {
    /// Takes a command that carries the number of another cycle.
    pub fn next(
        &mut self,
        alloc: Global,
        telling: &Telling<'_>,
        tick: u32,
        command: &Command,
    ) -> Result<(), OutOfMemory>
        requires { length telling.now.report.now < 2 ^ 32 }
        ensures { OnOk result (self.new ≡ past_any telling.now self.old (issue_at tick command.now)) }
    {
        let own = numbered(command, self.number);
        self.past(alloc, telling, tick, &own)
    }
}

/// Each walker takes a command.
pub fn all_next(
    alloc: Global,
    telling: &Telling<'_>,
    walkers: &mut Vec<Walker>,
    tick: u32,
    command: &Command,
) -> Result<(), OutOfMemory>
    requires { length telling.now.report.now < 2 ^ 32 }
    ensures { OnOk result (walkers.new.items ≡ map (λ w. past_any telling.now w (issue_at tick command.now)) walkers.old.items) }
{
    for walker in walkers.iter_mut() {
        walker.next(alloc, telling, tick, command)?;
    }
    Ok(())
}

impl Walker {
    /// A walker at the start.
    pub fn new(number: u32, walk: Walk, off: Compared, cut: Compared) -> Walker
        requires { 1 ≤ number }
        ensures { result ≡ record { number = number; walk = walk; off = off; cut = cut } }
    {
        Walker {
            number,
            walk,
            off,
            cut,
        }
    }
}

/// What a walker came to.
#[derive(Drop)]
pub struct WalkEnd {
    pub number: u32,
    pub walk: Walk,
    pub off: Compared,
    pub cut: Compared,
}

impl Walker {
    /// What it came to.
    pub fn end(self) -> WalkEnd
        ensures number { result.number ≡ self.number }
        ensures walk { result.walk ≡ self.walk }
        ensures off { result.off ≡ self.off }
        ensures cut { result.cut ≡ self.cut }
    {
        WalkEnd {
            number: self.number,
            walk: self.walk,
            off: self.off,
            cut: self.cut,
        }
    }
}
