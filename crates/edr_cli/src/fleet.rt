//! Serves `fleet`: reports the images whose frames the source gives.
ghost use Rattle.std.specs.Prelude.{◌≡◌, ◌+◌, ◌≤◌, IfOk, IfErr, OnOk};
ghost use Rattle.edr_device.specs.Faults.{Rose};
ghost use Rattle.edr_device.specs.Told.{Told};
ghost use Rattle.edr_device.specs.Transfer.{GivesAtMost};
ghost use Rattle.edr_spell.specs.Spell.{largest_trace};
ghost use Rattle.edr_cli.specs.Fleets.{FleetIs, IsFleetCause, TellsFleet, ToldFrames};
ghost use Rattle.edr_cli.specs.Outside.{IsAtEnd, NoFault, input};

use crate::endings::finish;
use crate::fault::Fault;
use crate::status::Status;
use edr_device::{Sink, Source};
use edr_fleet::{NoTurn, read_frames};
use edr_trace::LARGEST_TRACE;
use std::alloc::Global;
use std::thread::Threads;

// The report of the images whose frames the source gives, by this number of workers. The lines are
// made while the source is read, and none is written before its end.
fn fleet_source<R: Threads + Sync, S: Source>(
    rt: &R,
    alloc: Global,
    source: &mut S,
    workers: u8,
) -> Result<Vec<u8>, Fault>
    requires workers { (1 ≤ workers) × (workers ≤ 8) }
    ensures takes { Told (GivesAtMost (largest_trace + 1)) (S.left source.old) (S.left source.new) }
    ensures source_later { S.faults source.old ≤ S.faults source.new }
    ensures end { OnOk result (IsAtEnd (S.left source.new)) }
    ensures text { IfOk result (λ out. FleetIs (input S.Source source.old) out.items) }
    ensures cause { IfErr result (IsFleetCause (input S.Source source.old)
        (input S.Source source.new)) }
    ensures complete { ToldFrames (S.left source.old) → NoFault S.faults source.old source.new
        → IfErr result (λ f. f ≡ Fault.OutOfMemory) }
{
    let frames = read_frames(rt, alloc, source, LARGEST_TRACE as usize, workers)?;
    Ok(frames.finish(rt, &NoTurn)?)
}

/// Writes the report of the images whose frames the source gives, by W workers.
pub(crate) fn serve_fleet<R: Threads + Sync, S: Source, K: Sink>(
    rt: &R,
    alloc: Global,
    source: &mut S,
    sink: &mut K,
    workers: u8,
) -> Status
    requires workers { (1 ≤ workers) × (workers ≤ 8) }
    ensures tells { TellsFleet S.Source K.Sink result source.old source.new sink.old sink.new }
    ensures write_fault { result ≡ Status.WriteFault
        → Rose (K.faults sink.old) (K.faults sink.new) }
    ensures sink_later { K.faults sink.old ≤ K.faults sink.new }
    ensures takes { Told (GivesAtMost (largest_trace + 1)) (S.left source.old) (S.left source.new) }
    ensures source_later { S.faults source.old ≤ S.faults source.new }
{
    finish(sink, fleet_source(rt, alloc, source, workers))
}
