//! Serves `replay`: runs a trace over the memory of the records, and reports.
ghost use Rattle.std.specs.Prelude.{◌≡◌, ◌+◌, ◌≤◌, All, IfErr, OnOk};
ghost use Rattle.edr_device.specs.Faults.{Rose};
ghost use Rattle.edr_device.specs.Lent.{Between, GoesOn};
ghost use Rattle.edr_device.specs.Told.{Told};
ghost use Rattle.edr_device.specs.Transfer.{GivesAtMost};
ghost use Rattle.edr_spell.specs.Spell.{IsCycleInput, largest_trace};
ghost use Rattle.edr_replay.specs.Past.{LeavesPast};
ghost use Rattle.edr_cli.specs.Replays.{IsReplayCause};
ghost use Rattle.edr_cli.specs.Runs.{Runs, RunIs};
ghost use Rattle.edr_cli.specs.Outside.{AnswersOfMemory, AnswersOfRun, FailsBy, IsAtEnd, OfMemory};
ghost use Rattle.edr_cli.specs.Steps.{IsRunCause, Reports};

use crate::endings::finish;
use crate::fault::Fault;
use crate::report::{open_settled, report_held};
use crate::status::Status;
use crate::traces::trace_of;
use edr_device::{Nvm, Sink, Source};
use edr_replay::replay;
use edr_trace::CycleInput;
use edr_words::Form;
use std::alloc::Global;

// Runs the trace that the source gives over the device, and gives the report of the run and of what the device holds
// after it. The trace is whole before the device is used, and the image is looked at before the first cycle.
fn replay_source<S: Source, N: Nvm>(
    alloc: Global,
    source: &mut S,
    nvm: &mut N,
    form: Form,
) -> Result<Vec<u8>, Fault>
    ensures takes { Told (GivesAtMost (largest_trace + 1)) (S.left source.old) (S.left source.new) }
    ensures source_later { S.faults source.old ≤ S.faults source.new }
    ensures lent { GoesOn N.Nvm nvm.old nvm.new }
    ensures past { Between N.Nvm LeavesPast nvm.old nvm.new }
    ensures end { OnOk result (IsAtEnd (S.left source.new)) }
    ensures text { AnswersOfRun S.Source N.Nvm (RunIs form) source.old nvm.old nvm.new result }
    ensures cause { FailsBy S.Source N.Nvm IsReplayCause source.old source.new nvm.old nvm.new result }
{
    let cycles = trace_of(alloc, source)?;
    open_settled(alloc, nvm)?;
    run(alloc, nvm, &cycles, form)
}

// Runs the cycles, opens the banks again and reports.
fn run<N: Nvm>(
    alloc: Global,
    nvm: &mut N,
    cycles: &[CycleInput],
    form: Form,
) -> Result<Vec<u8>, Fault>
    requires { All IsCycleInput cycles.now }
    ensures text { AnswersOfMemory N.Nvm (Reports form cycles.now) nvm.old nvm.new result }
    ensures cause { IfErr result (OfMemory N.Nvm (IsRunCause cycles.now) nvm.old nvm.new) }
    ensures lent { GoesOn N.Nvm nvm.old nvm.new }
    ensures past { Between N.Nvm LeavesPast nvm.old nvm.new }
{
    let reports = replay(alloc, nvm, cycles)?;
    report_held(alloc, nvm, form, &reports)
}

/// Writes the report of the run of the trace that the source gives.
pub(crate) fn serve_replay<S: Source, K: Sink, N: Nvm>(
    alloc: Global,
    source: &mut S,
    sink: &mut K,
    nvm: &mut N,
    form: Form,
) -> Status
    ensures runs { Runs S.Source K.Sink N.Nvm IsReplayCause (RunIs form) result
        source.old source.new sink.old sink.new nvm.old nvm.new }
    ensures write_fault { result ≡ Status.WriteFault
        → Rose (K.faults sink.old) (K.faults sink.new) }
    ensures sink_later { K.faults sink.old ≤ K.faults sink.new }
    ensures takes { Told (GivesAtMost (largest_trace + 1)) (S.left source.old) (S.left source.new) }
    ensures source_later { S.faults source.old ≤ S.faults source.new }
    ensures lent { GoesOn N.Nvm nvm.old nvm.new }
{
    finish(sink, replay_source(alloc, source, nvm, form))
}
