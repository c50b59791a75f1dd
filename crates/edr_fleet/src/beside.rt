//! The report of images beside the reading of what comes next.
ghost use Rattle.std.specs.Prelude.{◌≡◌, ◌≢◌, ◌+◌, ◌≤◌, ◌<◌, length, All, IfOk};
ghost use Rattle.edr_device.specs.Faults.{Rose};
ghost use Rattle.edr_device.specs.Told.{Told};
ghost use Rattle.edr_device.specs.Transfer.{GivesAtMost};
ghost use Rattle.edr_spell.specs.Spell.{largest_trace};
ghost use Rattle.edr_fleet.specs.Frames.{FitsFrame};
ghost use Rattle.edr_fleet.specs.Parts.{HasShare};
ghost use Rattle.edr_fleet.specs.Reading.{Fills, TakesPortion};

use crate::filling::{Filled, fill};
use crate::parts::{FleetPart, NoTurn, part_of};
use crate::threads::{joined, part_by};
use edr_device::{Source, TakeFault};
use std::alloc::{AllocError as OutOfMemory, Global};
use std::thread::{Threads, join_mut};

// How many of some images the other threads report. The first thread also reads what comes next,
// which takes about a third of the time that it takes to report it. Of W threads each has 4/3W of
// that time to spend, so that the first reports (4 - W)/3W of the images. Only speed hangs on the
// number: the report is the same with any that these clauses allow.
fn others_of(images: usize, workers: u8) -> usize
    ensures within { result ≤ images }
    ensures alone { workers < 2 → result ≡ 0 }
{
    if workers < 2 {
        return 0;
    }
    let workers = usize::from(workers);
    let own = images / (3 * workers) * (4 - workers.min(4));
    images.saturating_sub(own)
}

/// The report of some images, and what came of a source beside it.
#[derive(Drop)]
pub(crate) struct Beside {
    pub(crate) part: Result<FleetPart, OutOfMemory>,
    pub(crate) filled: Result<Filled, TakeFault>,
}

// What the first thread does: it takes what comes next of a source, and reports these images.
fn fill_and_report<S: Source>(
    alloc: Global,
    before: usize,
    images: &[&[u8]],
    source: &mut S,
    buffer: &mut [u8],
    next: &mut Vec<u8>,
    most: usize,
) -> Beside
    requires some { 1 ≤ length buffer.old }
    requires fit { All (λ i. FitsFrame i.now) images.now }
    requires few { before + length images.now ≤ largest_trace + 1 }
    ensures part { IfOk result.part (HasShare images.now before) }
    ensures takes { TakesPortion most (λ f. f) (λ f. Fills f next.old.items next.new.items)
        (S.left source.old) (S.left source.new)
        (S.faults source.old) (S.faults source.new) result.filled }
{
    let filled = fill(source, buffer, next, most);
    let part = part_of(alloc, before as u32 + 1, images, &NoTurn);
    Beside { part, filled }
}

/// Reports images, before which so many others stand, by so many threads, while `next` gets what
/// comes next of a source.
pub(crate) fn report_beside<R: Threads + Sync, S: Source>(
    rt: &R,
    alloc: Global,
    before: usize,
    images: &[&[u8]],
    workers: u8,
    source: &mut S,
    buffer: &mut [u8],
    next: &mut Vec<u8>,
    most: usize,
) -> Beside
    requires some { 1 ≤ length buffer.old }
    requires fit { All (λ i. FitsFrame i.now) images.now }
    requires few { before + length images.now ≤ largest_trace + 1 }
    ensures part { IfOk result.part (HasShare images.now before) }
    ensures takes { TakesPortion most (λ f. f) (λ f. Fills f next.old.items next.new.items)
        (S.left source.old) (S.left source.new)
        (S.faults source.old) (S.faults source.new) result.filled }
{
    let others = others_of(images.len(), workers);
    if others == 0 {
        return fill_and_report(alloc, before, images, source, buffer, next, most);
    }
    let (theirs, own) = images.split_at(others);
    let (part, mine) = join_mut(
        rt,
        &mut || -> Result<FleetPart, OutOfMemory>
            requires fit { All (λ i. FitsFrame i.now) theirs.now }
            requires few { before + length theirs.now ≤ largest_trace + 1 }
            requires workers { 2 ≤ workers }
            ensures { IfOk result (HasShare theirs.entry.now before) }
        { part_by(rt, alloc, before, theirs, workers - 1, &NoTurn) },
        &mut || -> Beside
            requires some { 1 ≤ length buffer.now }
            requires fit { All (λ i. FitsFrame i.now) own.now }
            requires few { before + others + length own.now ≤ largest_trace + 1 }
            ensures part { IfOk result.part (HasShare own.entry.now (before + others)) }
            ensures takes { TakesPortion most (λ f. f)
                (λ f. Fills f next.entry.now.items next.exit.now.items)
                (S.left source.entry.now) (S.left source.exit.now)
                (S.faults source.entry.now) (S.faults source.exit.now) result.filled }
        { fill_and_report(alloc, before + others, own, source, buffer, next, most) },
    );
    let Beside { part: own, filled } = mine;
    Beside {
        part: joined(alloc, &[part, own]),
        filled,
    }
}
