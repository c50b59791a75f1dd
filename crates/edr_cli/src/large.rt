//! Serves `large`: counts what a generated trace comes to.
ghost use Rattle.std.specs.Prelude.{◌≡◌, ◌≤◌, IfOk, IfErr};
ghost use Rattle.edr_device.specs.Faults.{Rose};
ghost use Rattle.edr_large.specs.Large.{AreLinesOf};
ghost use Rattle.edr_cli.specs.Texts.{IsNumberCause, MakesText};

use crate::endings::finish;
use crate::fault::Fault;
use crate::status::Status;
use edr_device::Sink;
use edr_large::large_lines;
use std::alloc::Global;

// The lines of the counts of the run.
fn counts(alloc: Global, number: u64, cycles: u32) -> Result<Vec<u8>, Fault>
    ensures text { IfOk result (λ lines. AreLinesOf number cycles lines.items) }
    ensures cause { IfErr result IsNumberCause }
{
    Ok(large_lines(alloc, number, cycles)?)
}

/// Writes the counts of a run over the cycles that the trace of the number spells.
pub(crate) fn serve_large<K: Sink>(alloc: Global, sink: &mut K, number: u64, cycles: u32) -> Status
    ensures makes { MakesText K.Sink (AreLinesOf number cycles) result sink.old sink.new }
    ensures write_fault { result ≡ Status.WriteFault
        → Rose (K.faults sink.old) (K.faults sink.new) }
    ensures sink_later { K.faults sink.old ≤ K.faults sink.new }
{
    finish(sink, counts(alloc, number, cycles))
}
