//! The report of a fleet by threads.
ghost use Rattle.std.specs.Prelude.{◌≡◌, ◌+◌, ◌*◌, ◌≤◌, ◌<◌, ◌^◌, length, sum_by, flat_map, All, IsOk, IfOk, OnOk};
ghost use Rattle.edr_spell.specs.Spell.{largest_trace};
ghost use Rattle.edr_fleet.specs.Answers.{IsReportOf};
ghost use Rattle.edr_fleet.specs.Frames.{FitsFrame};
ghost use Rattle.edr_fleet.specs.Parts.{HasShare, IsShareOf, events_of, lines_of};

use crate::frames::FleetRefused;
use crate::parts::{FleetPart, Turn, part_of};
use crate::reading::FleetReading;
use std::alloc::{AllocError as OutOfMemory, Global};
use std::thread::{Threads, map_chunks};

// How many images a worker has, so that there are at most as many parts as workers.
fn share_of(images: usize, workers: u8) -> usize
    requires { 1 ≤ workers }
    ensures some { 0 < result }
    ensures few { images ≤ result * workers }
{
    images.div_ceil(usize::from(workers)).max(1)
}

/// The parts one after the other.
pub(crate) fn joined(
    alloc: Global,
    parts: &[Result<FleetPart, OutOfMemory>],
) -> Result<FleetPart, OutOfMemory>
    requires { sum_by events_of parts.now < 2 ^ 64 }
    ensures all { OnOk result (All IsOk parts.now) }
    ensures lines { IfOk result (λ p. p.lines.items ≡ flat_map lines_of parts.now) }
    ensures events { IfOk result (λ p. p.events ≡ sum_by events_of parts.now) }
{
    let mut all = FleetPart {
        lines: Vec::new(alloc),
        events: 0,
    };
    for k in 0..parts.len() {
        let Ok(part) = &parts[k] else {
            return Err(OutOfMemory);
        };
        all.lines.extend_from_slice(&part.lines)?;
        all.events += part.events;
    }
    Ok(all)
}

/// The lines of images, before which so many others stand, by up to so many workers. Each worker has images that follow one
/// another, and a thread.
pub(crate) fn part_by<R: Threads + Sync, P: Turn + Sync>(
    rt: &R,
    alloc: Global,
    before: usize,
    images: &[&[u8]],
    workers: u8,
    turn: &P,
) -> Result<FleetPart, OutOfMemory>
    requires workers { 1 ≤ workers }
    requires fit { All (λ i. FitsFrame i.now) images.now }
    requires few { before + length images.now ≤ largest_trace + 1 }
    ensures { IfOk result (HasShare images.now before) }
{
    let parts = map_chunks(
        rt,
        alloc,
        images,
        share_of(images.len(), workers),
        &|start: usize, some: &[&[u8]]| -> Result<FleetPart, OutOfMemory>
            requires fit { All (λ i. FitsFrame i.now) some.now }
            requires few { before + start + 1 + length some.now < 2 ^ 32 }
            ensures share { IsShareOf some.now (before + start) result }
        { part_of(alloc, (before + start) as u32 + 1, some, turn) },
    )?;
    joined(alloc, &parts)
}

/// The report of [`fleet_alone`](crate::fleet_alone), by up to eight workers. Each of them has images that follow one another, and
/// a thread; where no thread can be started for it, the caller does its work. The call returns once its threads have ended, and
/// each of them ends.
pub fn fleet<R: Threads + Sync, P: Turn + Sync>(
    rt: &R,
    alloc: Global,
    bytes: &[u8],
    workers: u8,
    turn: &P,
) -> Result<Vec<u8>, FleetRefused>
    requires workers { (1 ≤ workers) × (workers ≤ 8) }
    requires few { length bytes.now ≤ largest_trace }
    ensures { IsReportOf bytes.now result }
{
    let mut reading = FleetReading::new(alloc, workers);
    reading.take(bytes)?;
    reading.finish(rt, turn)
}
