//! The frames that a source gives.
ghost use Rattle.std.specs.Prelude.{◌≡◌, ◌+◌, ◌≤◌, IfOk};
ghost use Rattle.edr_device.specs.Faults.{Rose};
ghost use Rattle.edr_device.specs.Told.{Told};
ghost use Rattle.edr_device.specs.Transfer.{GivesAtMost, GivesTooMany};
ghost use Rattle.edr_spell.specs.Spell.{largest_trace};
ghost use Rattle.edr_fleet.specs.Reading.{HasAllFrames};

use crate::reading::FleetReading;
use edr_device::{Source, TakeFault, piece_len};
use std::alloc::Global;
use std::thread::Threads;

/// The reading of all bytes up to the end of the source. Where there are more than `limit` of them,
/// it stops after one more.
pub fn read_frames<R: Threads + Sync, S: Source>(
    rt: &R,
    alloc: Global,
    source: &mut S,
    limit: usize,
    workers: u8,
) -> Result<FleetReading, TakeFault>
    requires limit { limit ≤ largest_trace }
    requires workers { (1 ≤ workers) × (workers ≤ 8) }
    ensures all { IfOk result (λ r. HasAllFrames limit r (S.left source.old) (S.left source.new)) }
    ensures too_long { result ≡ Err TakeFault.TooLong
        → Told (GivesTooMany limit) (S.left source.old) (S.left source.new) }
    ensures failed { result ≡ Err TakeFault.Failed
        → Rose (S.faults source.old) (S.faults source.new) }
    ensures most { Told (GivesAtMost (limit + 1)) (S.left source.old) (S.left source.new) }
    ensures later { S.faults source.old ≤ S.faults source.new }
{
    let mut reading = FleetReading::new(alloc, workers);
    let mut buffer = vec![in alloc; 0; piece_len(limit + 1)]?;
    let mut taken = 0;
    while taken <= limit {
        let filled = reading.take_on(rt, source, &mut buffer, limit + 1 - taken)?;
        if filled.is_end {
            return Ok(reading);
        }
        taken += filled.taken;
    }
    Err(TakeFault::TooLong)
}
