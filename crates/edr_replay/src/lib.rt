//! Runs the ignition cycles of a trace one after the other over the memory of the records, each with its planned power
//! cut.
#![tactic(auto)]

mod driven;
pub mod laws;
mod live;
mod phases;
mod workers;

ghost use Rattle.std.specs.Prelude.{All};
ghost use Rattle.edr_spell.specs.Spell.{IsCycleInput as IsSpelled};
ghost use Rattle.edr_replay.specs.Replayed.{LeftAlone, Replays, RunsCycle};

pub use driven::replay_driven;
pub use edr_cycle::StartFault;
use edr_cycle::run_alone;
use edr_device::Nvm;
pub use edr_drive::Gate;
use edr_image::CycleReport;
use edr_spell::CycleInput;
pub use live::{LiveLine, LiveRun, replay_live};
use phases::{StartedCycle, end_run, fused, start_until, was_cut};
use std::alloc::Global;
pub use workers::Workers;

/// Runs one cycle: its start and its commands, each up to its planned stop, and then the power goes off.
///
/// What a planned stop leaves is no fault; the report tells of it.
fn run_cycle<N: Nvm>(
    alloc: Global,
    nvm: &mut N,
    cycle: &CycleInput,
) -> Result<CycleReport, StartFault>
    requires { IsSpelled cycle.now }
    ensures { RunsCycle N.Nvm LeftAlone cycle.now nvm.old nvm.new result }
{
    match start_until(alloc, nvm, cycle.start_stop, cycle.feeds.horizon())? {
        StartedCycle::Stopped => Ok(CycleReport::StartStopped {
            call: cycle.start_stop,
        }),
        StartedCycle::Started(started) => {
            let mut fuse = fused(&mut *nvm, cycle.stop);
            let end = run_alone(started, &cycle.feeds, &mut fuse);
            let cut = was_cut(fuse);
            end_run(end, cut, cycle.stop, nvm)
        }
    }
}

/// Runs the cycles in order, and tells of each. Nothing is to be pending on the device.
pub fn replay<N: Nvm>(
    alloc: Global,
    nvm: &mut N,
    cycles: &[CycleInput],
) -> Result<Vec<CycleReport>, StartFault>
    requires { All IsSpelled cycles.now }
    ensures { Replays N.Nvm cycles.now nvm.old nvm.new result }
{
    let mut reports = Vec::with_capacity(alloc, cycles.len())?;
    for cycle in cycles {
        let report = run_cycle(alloc, nvm, cycle)?;
        reports.push_reserved(report);
    }
    Ok(reports)
}
