//! A cycle that was started, and how it ended.

ghost use Rattle.std.specs.Prelude.{◌≡◌, ◌≤◌, [], None, false};
ghost use Rattle.edr_cycle.specs.Begun.{IsFreshCore, room_for};

use crate::cycle_log::CycleLog;
use edr_banks::{Banks, Log, OpenFault};
use edr_core::Core;
use edr_device::Failed;
use std::alloc::AllocError;
use std::marker::Model;

/// A cycle that was started: it is counted, and has all memory that it will need.
#[derive(Drop)]
pub struct Started {
    pub(crate) number: u32,
    // Its feeds may have this many ticks.
    pub(crate) ticks: u32,
    pub(crate) banks: Banks,
    pub(crate) core: Core,
    pub(crate) log: CycleLog,
}

impl Model for Started {
    ghost use Rattle.edr_cycle.specs.Begun.{Begun, IsBegun};

    ghost Value = { Begun };

    ghost use Rattle.edr_cycle.specs.Fields.{begun_of};

    ghost view = { begun_of };

    ghost invariant = { λ s. IsBegun (begun_of s) };
}

/// What a start made, for a caller that runs the cycle itself.
#[derive(Drop)]
pub struct Parts {
    /// The banks as they were found; none is held.
    pub banks: Banks,
    /// A core for the cycle, to which nothing was given.
    pub core: Core,
    /// An empty log with room for all acknowledgements of the cycle.
    pub log: CycleLog,
}

/// Why a cycle was not started.
#[derive(Clone, Copy, Debug, PartialEq, Eq)]
pub enum StartFault {
    /// The banks could not be opened.
    Open(OpenFault),
    /// The count stands at the greatest number.
    Spent,
    /// The device failed.
    StoreFault,
    /// There is no room for the core or the log.
    OutOfMemory,
}

impl From<OpenFault> for StartFault {
    ghost use Rattle.edr_cycle.specs.declared.started.StartFault.TheVariants as fault;

    ghost from_gives = { λ refused e. e ≡ fault.Open refused };

    fn from(refused: OpenFault) -> StartFault {
        StartFault::Open(refused)
    }
}

impl From<Failed> for StartFault {
    ghost use Rattle.edr_cycle.specs.declared.started.StartFault.TheVariants as fault;

    ghost from_gives = { λ _ e. e ≡ fault.StoreFault };

    fn from(_: Failed) -> StartFault {
        StartFault::StoreFault
    }
}

impl From<AllocError> for StartFault {
    ghost use Rattle.edr_cycle.specs.declared.started.StartFault.TheVariants as fault;

    ghost from_gives = { λ _ e. e ≡ fault.OutOfMemory };

    fn from(_: AllocError) -> StartFault {
        StartFault::OutOfMemory
    }
}

/// How a cycle ended.
#[derive(Drop)]
pub struct CycleEnd {
    /// The number of the cycle.
    pub number: u32,
    /// A command met a fault of the device.
    pub failed: bool,
    /// The commands with what came of them; with a fault it ends before the command that failed.
    pub log: Log,
}

impl Started {
    /// The number of the cycle: one more than the count that was found.
    pub fn number(&self) -> u32
        ensures { result ≡ self.now.number }
    {
        self.number
    }

    /// What the start made. It takes no memory.
    pub fn parts(self) -> Parts
        ensures same { (result.banks ≡ self.banks) × (result.core ≡ self.core) × (result.log ≡ self.log) }
        ensures none_held { (result.banks.held ≡ None) × (result.banks.ended ≡ false) }
        ensures fresh { IsFreshCore result.core self.number }
        ensures empty { result.log.acks ≡ [] }
        ensures no_command { result.log.commands ≡ [] }
        ensures room { room_for self.ticks ≤ result.log.spare }
    {
        Parts {
            banks: self.banks,
            core: self.core,
            log: self.log,
        }
    }
}
