//! The same cycles by threads, beside which a reader sees the banks: what is told of each, and a line for each that ran.

ghost use Rattle.std.specs.Prelude.{◌≡◌, ◌≤◌, ◌<◌, ◌^◌, ◌++◌, All, Some, None, length, count_by, vec_capacity};
ghost use Rattle.edr_spell.specs.Spell.{IsCycleInput as IsSpelled};
ghost use Rattle.edr_image.specs.Banks.{holds_event};
ghost use Rattle.edr_replay.specs.Live.{DrivesLive, RunsCycleLive, lines_with};

use crate::phases::{StartedCycle, end_run, fused, start_until, was_cut};
use crate::workers::Workers;
use edr_banks::BankView;
use edr_cycle::StartFault;
use edr_device::Nvm;
use edr_drive::{Gate, LiveEnd, drive_cycle_live};
use edr_image::CycleReport;
use edr_live::LiveView;
pub use edr_run::LiveLine;
use edr_spell::CycleInput;
use std::alloc::Global;
use std::sync::{Arc, Wait};
use std::thread::Threads;

/// What a run comes to beside which a reader saw the banks.
#[derive(Drop)]
pub struct LiveRun {
    /// What is told of each cycle.
    pub reports: Vec<CycleReport>,
    /// A line for each cycle that ran, in order.
    pub lines: Vec<LiveLine>,
}

// One cycle of such a run.
#[derive(Drop)]
struct LiveCycle {
    report: CycleReport,
    // None where its start was stopped.
    line: Option<LiveLine>,
}

// How many of these banks hold an event.
fn events_in(views: &[BankView]) -> u8
    requires { length views.now ≤ 16 }
    ensures { result ≡ count_by holds_event views.now }
{
    let found = views
        .iter()
        .filter(|view| matches!(view, BankView::Event(_)))
        .count();
    found as u8
}

// The line of the cycle in this place of a run, by what was seen of it last.
fn line_of(place: u32, last: &LiveView) -> LiveLine
    requires { last.now.applied < 2 ^ 32 }
    ensures { result ≡ record { cycle = place; commands = last.now.applied; events = count_by holds_event last.now.views } }
{
    LiveLine {
        cycle: place,
        commands: last.applied as u32,
        events: events_in(&last.views),
    }
}

// Runs one cycle: its start and its commands, each up to its planned stop, and then the power goes off. Where not all commands could
// be shown, that is want of memory after all of it.
fn drive_one_live<
    R: Threads + Wait + Copy + Send + 'static,
    G: Gate + Drop + Send + Sync + 'static,
    N: Nvm,
>(
    alloc: Global,
    nvm: &mut N,
    cycle: CycleInput,
    place: u32,
    workers: &Workers<'_, R, G>,
) -> Result<LiveCycle, StartFault>
    requires { IsSpelled cycle }
    ensures { RunsCycleLive N.Nvm place cycle nvm.old nvm.new result }
{
    let CycleInput {
        start_stop,
        feeds,
        stop,
    } = cycle;
    let ticks = feeds.horizon();
    let Ok(feeds) = Arc::new(alloc, feeds) else {
        return Err(StartFault::OutOfMemory);
    };
    match start_until(alloc, nvm, start_stop, ticks)? {
        StartedCycle::Stopped => Ok(LiveCycle {
            report: CycleReport::StartStopped { call: start_stop },
            line: None,
        }),
        StartedCycle::Started(started) => {
            let mut fuse = fused(&mut *nvm, stop);
            let run = drive_cycle_live(
                workers.rt,
                alloc,
                started,
                &feeds,
                workers.count,
                &mut fuse,
                workers.gate,
            );
            let stopped = was_cut(fuse);
            let LiveEnd { end, last, cut } = run?;
            let report = end_run(end, stopped, stop, nvm)?;
            if cut {
                return Err(StartFault::OutOfMemory);
            }
            let line = Some(line_of(place, &last));
            Ok(LiveCycle { report, line })
        }
    }
}

// Adds the line of a cycle, if it has one.
fn push_line(lines: &mut Vec<LiveLine>, line: Option<LiveLine>)
    requires { length lines.old.items < vec_capacity lines.old }
    ensures items { lines.new.items ≡ lines.old.items ++ lines_with line }
    ensures capacity { vec_capacity lines.new ≡ vec_capacity lines.old }
{
    if let Some(line) = line {
        lines.push_reserved(line);
    }
}

/// Runs the cycles in order, each by these workers beside a reader that sees the banks, and tells of each. Nothing is to be pending
/// on the device.
///
/// What is told and what is left are those of `replay_driven`. The line of a cycle is by what the reader saw last of it. Where memory
/// ran out in showing a command, the run ends with want of memory after that cycle.
pub fn replay_live<
    R: Threads + Wait + Copy + Send + 'static,
    G: Gate + Drop + Send + Sync + 'static,
    N: Nvm,
>(
    alloc: Global,
    nvm: &mut N,
    cycles: Vec<CycleInput>,
    workers: &Workers<'_, R, G>,
) -> Result<LiveRun, StartFault>
    requires cycles { All IsSpelled cycles.items }
    requires few { length cycles.items < 2 ^ 32 }
    ensures { DrivesLive N.Nvm cycles.items nvm.old nvm.new result }
{
    let mut reports = Vec::with_capacity(alloc, cycles.len())?;
    let mut lines = Vec::with_capacity(alloc, cycles.len())?;
    for cycle in cycles {
        let place = reports.len() as u32 + 1;
        let ran = drive_one_live(alloc, nvm, cycle, place, workers)?;
        reports.push_reserved(ran.report);
        push_line(&mut lines, ran.line);
    }
    Ok(LiveRun { reports, lines })
}
