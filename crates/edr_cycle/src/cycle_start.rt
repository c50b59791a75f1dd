//! The start of a cycle, which counts it.

ghost use Rattle.std.specs.Prelude.{◌≡◌, ◌≤◌, [], IfOk, IfErr};
ghost use Rattle.edr_device.specs.Lent.{OnlyRead};
ghost use Rattle.edr_cycle.specs.Begun.{IsFreshCore, room_for};
ghost use Rattle.edr_cycle.specs.Starts.{FindsCycle, IsEarly, Starts};

use crate::counter::count_cycle;
use crate::cycle_log::CycleLog;
use crate::started::{StartFault, Started};
use edr_banks::Banks;
use edr_core::Core;
use edr_device::Nvm;
use std::alloc::{AllocError as OutOfMemory, Global};

// How many acknowledgements a cycle of this many ticks can have: events are at least 51 ticks apart, and each issues at
// most three commands.
fn room_for(ticks: u32) -> u32
    ensures { result ≡ room_for ticks }
{
    3 * (ticks / 51 + 1)
}

// The core and the log of the cycle of this number. The core is the most to drop where a later step fails, so it is made last.
fn take_memory(alloc: Global, number: u32, ticks: u32) -> Result<(Core, CycleLog), OutOfMemory>
    requires { 1 ≤ number }
    ensures core { IfOk result (λ m. IsFreshCore m.0 number) }
    ensures log { IfOk result (λ m. (m.1.acks ≡ []) × (m.1.commands ≡ []) × (room_for ticks ≤ m.1.spare)) }
{
    let log = CycleLog::with_room(alloc, room_for(ticks))?;
    let core = Core::open(alloc, number)?;
    Ok((core, log))
}

// All of a start but its changing calls: the banks are opened, and all memory is taken.
fn prepare<N: Nvm>(alloc: Global, nvm: &mut N, ticks: u32) -> Result<Started, StartFault>
    ensures finds { FindsCycle N.Nvm ticks nvm.old nvm.new result }
    ensures early { IfErr result IsEarly }
    ensures read { OnlyRead N.Nvm nvm.old nvm.new }
{
    let banks = Banks::open(alloc, nvm)?;
    let Some(number) = banks.count().checked_add(1) else {
        return Err(StartFault::Spent);
    };
    let (core, log) = take_memory(alloc, number, ticks)?;
    Ok(Started {
        number,
        ticks,
        banks,
        core,
        log,
    })
}

/// Starts the next cycle on a memory, for feeds of at most `ticks` ticks: opens its banks, takes all memory that the cycle
/// will need, and then counts it by six changing calls on the older slot of the count.
pub fn start<N: Nvm>(alloc: Global, nvm: &mut N, ticks: u32) -> Result<Started, StartFault>
    ensures { Starts N.Nvm ticks nvm.old nvm.new result }
{
    let started = prepare(alloc, nvm, ticks)?;
    count_cycle(nvm, started.number())?;
    Ok(started)
}
