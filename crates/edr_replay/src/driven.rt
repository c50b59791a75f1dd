//! The same cycles by threads. What a thread rests on may not be a bound that is known inside an `impl` alone, so no trait can stand over
//! both ways: only the loop and the call that runs the commands are written here once more.

ghost use Rattle.std.specs.Prelude.{All};
ghost use Rattle.edr_spell.specs.Spell.{IsCycleInput as IsSpelled};
ghost use Rattle.edr_replay.specs.Replayed.{Drives, LeftOrCounted, RunsCycle};

use crate::phases::{StartedCycle, end_run, fused, start_until, was_cut};
use crate::workers::Workers;
use edr_cycle::StartFault;
use edr_device::Nvm;
use edr_drive::{Gate, drive_cycle};
use edr_image::CycleReport;
use edr_spell::CycleInput;
use std::alloc::Global;
use std::sync::{Arc, Wait};
use std::thread::Threads;

// Runs one cycle: its start and its commands, each up to its planned stop, and then the power goes off.
fn drive_one<
    R: Threads + Wait + Copy + Send + 'static,
    G: Gate + Drop + Send + Sync + 'static,
    N: Nvm,
>(
    alloc: Global,
    nvm: &mut N,
    cycle: CycleInput,
    workers: &Workers<'_, R, G>,
) -> Result<CycleReport, StartFault>
    requires { IsSpelled cycle }
    ensures { RunsCycle N.Nvm LeftOrCounted cycle nvm.old nvm.new result }
{
    let CycleInput {
        start_stop,
        feeds,
        stop,
    } = cycle;
    let ticks = feeds.horizon();
    let Ok(feeds) = Arc::new(alloc, feeds) else {
        return Err(StartFault::OutOfMemory);
    };
    match start_until(alloc, nvm, start_stop, ticks)? {
        StartedCycle::Stopped => Ok(CycleReport::StartStopped { call: start_stop }),
        StartedCycle::Started(started) => {
            let mut fuse = fused(&mut *nvm, stop);
            let end = drive_cycle(
                workers.rt,
                alloc,
                started,
                &feeds,
                workers.count,
                &mut fuse,
                workers.gate,
            );
            let cut = was_cut(fuse);
            let end = end?;
            end_run(end, cut, stop, nvm)
        }
    }
}

/// Runs the cycles in order, each by these workers, and tells of each. Nothing is to be pending on the device.
///
/// What is told and what is left are those of `replay`, whatever the schedule of the threads. Each worker calls the gate before an
/// item's first offer. Memory for the threads of a cycle is taken after its start, so want of it may leave that cycle counted.
pub fn replay_driven<
    R: Threads + Wait + Copy + Send + 'static,
    G: Gate + Drop + Send + Sync + 'static,
    N: Nvm,
>(
    alloc: Global,
    nvm: &mut N,
    cycles: Vec<CycleInput>,
    workers: &Workers<'_, R, G>,
) -> Result<Vec<CycleReport>, StartFault>
    requires { All IsSpelled cycles.items }
    ensures { Drives N.Nvm cycles.items nvm.old nvm.new result }
{
    let mut reports = Vec::with_capacity(alloc, cycles.len())?;
    for cycle in cycles {
        let report = drive_one(alloc, nvm, cycle, workers)?;
        reports.push_reserved(report);
    }
    Ok(reports)
}
