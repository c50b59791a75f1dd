//! Serves `drive W live`: `drive W`, with a line for each cycle that ran.
ghost use Rattle.std.specs.Prelude.{◌≡◌, ◌≤◌, ◌<◌, ◌+◌, ◌++◌, All, length, IfOk, IfErr, OnOk};
ghost use Rattle.edr_device.specs.Faults.{Rose};
ghost use Rattle.edr_device.specs.Lent.{Between, GoesOn};
ghost use Rattle.edr_device.specs.Told.{Told};
ghost use Rattle.edr_device.specs.Transfer.{GivesAtMost};
ghost use Rattle.edr_spell.specs.Spell.{IsCycleInput, largest_trace};
ghost use Rattle.edr_replay.specs.Past.{LeavesPast};
ghost use Rattle.edr_cli.specs.Drives.{IsDriveCause};
ghost use Rattle.edr_cli.specs.Lives.{LiveRunIs, ReportsLive, line_text, live_text};
ghost use Rattle.edr_cli.specs.Runs.{Runs};
ghost use Rattle.edr_cli.specs.Outside.{AnswersOfMemory, AnswersOfRun, FailsBy, IsAtEnd, OfMemory};
ghost use Rattle.edr_cli.specs.Steps.{IsDrivenCause};

use crate::endings::finish;
use crate::fault::Fault;
use crate::report::{open_settled, report_held};
use crate::status::Status;
use crate::traces::trace_of;
use edr_device::{Nvm, Sink, Source};
use edr_drive::Gate;
use edr_replay::{LiveLine, Workers, replay_live};
use edr_report::live_line;
use edr_trace::CycleInput;
use edr_words::Form;
use std::alloc::{AllocError as OutOfMemory, Global};
use std::sync::Wait;
use std::thread::Threads;

// Appends the line of a cycle.
#[tactic(auto, unfolding(crate::specs::Lives::line_text))]
fn push_line(text: &mut Vec<u8>, line: &LiveLine) -> Result<(), OutOfMemory>
    ensures { OnOk result (text.new.items ≡ text.old.items ++ line_text line.now) }
{
    let line = live_line(line.cycle, line.commands, line.events);
    text.extend_from_slice(line.as_bytes())
}

// The report, and then the lines of these cycles.
fn with_lines(report: Vec<u8>, lines: &[LiveLine]) -> Result<Vec<u8>, OutOfMemory>
    ensures { IfOk result (λ out. out.items ≡ report.items ++ live_text lines.now) }
{
    let mut text = report;
    for line in lines {
        push_line(&mut text, line)?;
    }
    Ok(text)
}

// Runs the cycles by these workers beside a reader, opens the banks again, and reports with the
// line of each cycle that ran.
fn run_live<
    R: Threads + Wait + Copy + Send + Sync + 'static,
    G: Gate + Drop + Send + Sync + 'static,
    N: Nvm,
>(
    alloc: Global,
    nvm: &mut N,
    cycles: Vec<CycleInput>,
    workers: &Workers<'_, R, G>,
) -> Result<Vec<u8>, Fault>
    requires cycles { All IsCycleInput cycles.items }
    requires few { length cycles.items ≤ largest_trace }
    ensures text { AnswersOfMemory N.Nvm (ReportsLive cycles.items) nvm.old nvm.new result }
    ensures cause { IfErr result (OfMemory N.Nvm (IsDrivenCause cycles.items) nvm.old nvm.new) }
    ensures lent { GoesOn N.Nvm nvm.old nvm.new }
    ensures past { Between N.Nvm LeavesPast nvm.old nvm.new }
{
    let lived = replay_live(alloc, nvm, cycles, workers)?;
    let report = report_held(alloc, nvm, Form::Text, &lived.reports)?;
    Ok(with_lines(report, &lived.lines)?)
}

// Runs the trace that the source gives over the device by these workers beside a reader, and gives
// the report of the run and of what the device holds after it, with the line of each cycle that ran.
fn live_source<
    R: Threads + Wait + Copy + Send + Sync + 'static,
    G: Gate + Drop + Send + Sync + 'static,
    S: Source,
    N: Nvm,
>(alloc: Global, source: &mut S, nvm: &mut N, workers: &Workers<'_, R, G>) -> Result<Vec<u8>, Fault>
    ensures takes { Told (GivesAtMost (largest_trace + 1)) (S.left source.old) (S.left source.new) }
    ensures source_later { S.faults source.old ≤ S.faults source.new }
    ensures lent { GoesOn N.Nvm nvm.old nvm.new }
    ensures past { Between N.Nvm LeavesPast nvm.old nvm.new }
    ensures end { OnOk result (IsAtEnd (S.left source.new)) }
    ensures text { AnswersOfRun S.Source N.Nvm LiveRunIs source.old nvm.old nvm.new result }
    ensures cause { FailsBy S.Source N.Nvm IsDriveCause source.old source.new nvm.old nvm.new result }
{
    let cycles = trace_of(alloc, source)?;
    open_settled(alloc, nvm)?;
    run_live(alloc, nvm, cycles, workers)
}

/// Writes the report of the run of the trace that the source gives, with the line of each cycle that ran.
pub(crate) fn serve_live<
    R: Threads + Wait + Copy + Send + Sync + 'static,
    G: Gate + Drop + Send + Sync + 'static,
    S: Source,
    K: Sink,
    N: Nvm,
>(alloc: Global, source: &mut S, sink: &mut K, nvm: &mut N, workers: &Workers<'_, R, G>) -> Status
    ensures runs { Runs S.Source K.Sink N.Nvm IsDriveCause LiveRunIs result
        source.old source.new sink.old sink.new nvm.old nvm.new }
    ensures write_fault { result ≡ Status.WriteFault
        → Rose (K.faults sink.old) (K.faults sink.new) }
    ensures sink_later { K.faults sink.old ≤ K.faults sink.new }
    ensures takes { Told (GivesAtMost (largest_trace + 1)) (S.left source.old) (S.left source.new) }
    ensures source_later { S.faults source.old ≤ S.faults source.new }
    ensures lent { GoesOn N.Nvm nvm.old nvm.new }
{
    finish(sink, live_source(alloc, source, nvm, workers))
}
