//! The two phases of a cycle, its start and its commands, each over a fuse that stops it as planned.

ghost use Rattle.std.specs.Prelude.{◌≡◌, ◌≤◌, true, false};
ghost use Rattle.edr_device.specs.FuseState.{armed_for, fuse_state, new_fuse};
ghost use Rattle.edr_image.specs.Reports.{Ran, report_of};
ghost use Rattle.edr_replay.specs.Phases.{EndsRun, StartsUntil};

use edr_cycle::{CycleEnd, StartFault, Started, start};
use edr_device::{Fused, Nvm};
use edr_image::CycleReport;
use std::alloc::Global;

/// What comes of a start.
#[derive(Drop)]
pub(crate) enum StartedCycle {
    Started(Started),
    /// It was stopped as planned.
    Stopped,
}

/// The device with a fuse that cuts the power at the planned changing call; 0 plans none.
pub(crate) fn fused<'a, N: Nvm>(nvm: &'a mut N, stop: u32) -> Fused<'a, N>
    ensures device { result.nvm.ghost_name ≡ nvm.entry.ghost_name }
    ensures now { result.nvm.now ≡ nvm.old }
    ensures state { fuse_state result ≡ armed_for stop new_fuse }
{
    let mut fuse = Fused::new(nvm);
    fuse.arm(stop);
    fuse
}

/// Gives the device back, and tells whether the fuse cut the power as planned, and no call of the device failed.
pub(crate) fn was_cut<N: Nvm>(fuse: Fused<'_, N>) -> bool
    ensures back { fuse.exit.0.now ≡ fuse.entry.nvm.now }
    ensures planned { result ≡ true → (fuse.entry.spent ≡ true) × (fuse.entry.broken ≡ false) }
    ensures unplanned { result ≡ false → fuse.entry.spent ≡ true → fuse.entry.broken ≡ true }
{
    let spent = fuse.spent();
    let broken = fuse.broken();
    fuse.end();
    spent & !broken
}

/// Starts a cycle for that many ticks, up to the planned changing call; 0 plans none.
pub(crate) fn start_until<N: Nvm>(
    alloc: Global,
    nvm: &mut N,
    stop: u32,
    ticks: u32,
) -> Result<StartedCycle, StartFault>
    requires { stop ≤ 6 }
    ensures { StartsUntil N.Nvm stop ticks nvm.old nvm.new result }
{
    let mut fuse = fused(nvm, stop);
    let begun = start(alloc, &mut fuse, ticks);
    let cut = was_cut(fuse);
    match begun {
        Ok(started) => Ok(StartedCycle::Started(started)),
        Err(StartFault::StoreFault) if cut => Ok(StartedCycle::Stopped),
        Err(fault) => Err(fault),
    }
}

/// What is told of a cycle that ran.
fn ran(end: CycleEnd, stopped: Option<u32>) -> CycleReport
    ensures { report_of result ≡ Ran end.number stopped end.log.acks }
{
    CycleReport::Ran {
        number: end.number,
        stopped,
        log: end.log,
    }
}

/// Ends the commands of a cycle: where they were all done, the power is taken away; where the fuse cut it as planned, that is told.
pub(crate) fn end_run<N: Nvm>(
    end: CycleEnd,
    cut: bool,
    stop: u32,
    nvm: &mut N,
) -> Result<CycleReport, StartFault>
    ensures { EndsRun N.Nvm stop end.number end.failed cut end.log.acks result nvm.old nvm.new }
{
    if !end.failed {
        nvm.power_cycle()?;
        return Ok(ran(end, None));
    }
    if !cut {
        return Err(StartFault::StoreFault);
    }
    Ok(ran(end, Some(stop)))
}
