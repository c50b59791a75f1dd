//! The top call of what is done by threads: a run, and the report of a fleet. Its promises hold if it returns.
ghost use Rattle.std.specs.Prelude.{◌≡◌, ◌≤◌, ◌+◌, ℕ, Some, All, IfErr, OnOk};
ghost use Rattle.edr_device.specs.Faults.{Rose};
ghost use Rattle.edr_device.specs.Lent.{Between, GoesOn};
ghost use Rattle.edr_device.specs.Told.{Told};
ghost use Rattle.edr_device.specs.Transfer.{GivesAtMost};
ghost use Rattle.edr_spell.specs.Spell.{IsCycleInput, largest_trace};
ghost use Rattle.edr_spell.specs.declared.CycleInput.{CycleInput};
ghost use Rattle.edr_replay.specs.Past.{LeavesPast};
ghost use Rattle.edr_words.specs.declared.Form.{Form};
ghost use Rattle.edr_cli.specs.Drives.{IsDriveCause, ServesDrive};
ghost use Rattle.edr_cli.specs.Words.{IsUsageCause, NeedNoThreads};
ghost use Rattle.edr_cli.specs.Endings.{TellsCut, TellsWhole};
ghost use Rattle.edr_cli.specs.Lives.{ServesLive};
ghost use Rattle.edr_cli.specs.Outside.{AnswersOfMemory, AnswersOfRun, FailsBy, IsAtEnd, OfMemory};
ghost use Rattle.edr_cli.specs.Runs.{RunIs};
ghost use Rattle.edr_cli.specs.Steps.{IsDrivenCause, Reports};
ghost use Rattle.edr_cli.specs.Fleets.{ServesFleet, AreFleetWords};

use crate::endings::{finish, tell};
use crate::fault::Fault;
use crate::fleet::serve_fleet;
use crate::live::serve_live;
use crate::report::{open_settled, report_held};
use crate::status::Status;
use crate::traces::trace_of;
use edr_device::{Nvm, Sink, Source};
use edr_drive::Gate;
use edr_replay::{Workers, replay_driven};
use edr_trace::CycleInput;
use edr_words::{Form, Job, Words};
use std::alloc::{AllocError as OutOfMemory, Global};
use std::sync::{Arc, Wait};
use std::thread::Threads;

// Runs the cycles by these workers, opens the banks again and reports.
fn run_driven<
    R: Threads + Wait + Copy + Send + Sync + 'static,
    G: Gate + Drop + Send + Sync + 'static,
    N: Nvm,
>(
    alloc: Global,
    nvm: &mut N,
    cycles: Vec<CycleInput>,
    form: Form,
    workers: &Workers<'_, R, G>,
) -> Result<Vec<u8>, Fault>
    requires { All IsCycleInput cycles.items }
    ensures text { AnswersOfMemory N.Nvm (Reports form cycles.items) nvm.old nvm.new result }
    ensures cause { IfErr result (OfMemory N.Nvm (IsDrivenCause cycles.items) nvm.old nvm.new) }
    ensures lent { GoesOn N.Nvm nvm.old nvm.new }
    ensures past { Between N.Nvm LeavesPast nvm.old nvm.new }
{
    let reports = replay_driven(alloc, nvm, cycles, workers)?;
    report_held(alloc, nvm, form, &reports)
}

// Runs the trace that the source gives over the device by these workers, and gives the report of
// the run and of what the device holds after it. The trace is whole before the device is used, and
// the image is looked at before the first cycle.
fn drive_source<
    R: Threads + Wait + Copy + Send + Sync + 'static,
    G: Gate + Drop + Send + Sync + 'static,
    S: Source,
    N: Nvm,
>(
    alloc: Global,
    source: &mut S,
    nvm: &mut N,
    form: Form,
    workers: &Workers<'_, R, G>,
) -> Result<Vec<u8>, Fault>
    ensures takes { Told (GivesAtMost (largest_trace + 1)) (S.left source.old) (S.left source.new) }
    ensures source_later { S.faults source.old ≤ S.faults source.new }
    ensures lent { GoesOn N.Nvm nvm.old nvm.new }
    ensures past { Between N.Nvm LeavesPast nvm.old nvm.new }
    ensures end { OnOk result (IsAtEnd (S.left source.new)) }
    ensures text { AnswersOfRun S.Source N.Nvm (RunIs form) source.old nvm.old nvm.new result }
    ensures cause { FailsBy S.Source N.Nvm IsDriveCause source.old source.new nvm.old nvm.new result }
{
    let cycles = trace_of(alloc, source)?;
    open_settled(alloc, nvm)?;
    run_driven(alloc, nvm, cycles, form, workers)
}

/// Serves the words `drive W [text|csv]`: `replay` with W workers, 1 to 8, for the sensors, and a
/// recorder beside them. The caller's thread writes the records, so the device crosses no thread.
///
/// What it writes, what the device then holds and what each status says are those of `replay`,
/// whatever the schedule of the threads. Memory for the threads of a cycle is taken after its
/// start, so want of memory may leave that cycle counted. Each worker calls the gate once for each
/// item, before the item's first offer.
///
/// With `drive W live` a reader sees the banks beside the threads of each cycle, and a line for
/// each cycle that ran stands after the report. Where memory ran out in showing a command the run
/// ends after that cycle, with `OutOfMemory`.
///
/// And `fleet W`: reads frames of images from the source, and writes a line for each image and the
/// totals, by W workers, 1 to 8. It uses no device. Each word waits for its threads: what is
/// promised holds if the call returns.
pub fn drive<
    R: Threads + Wait + Copy + Send + Sync + 'static,
    S: Source,
    K: Sink,
    N: Nvm,
    G: Gate + Drop + Send + Sync + 'static,
>(
    rt: &R,
    alloc: Global,
    words: &Words,
    source: &mut S,
    sink: &mut K,
    nvm: &mut N,
    gate: &Arc<G>,
) -> Status
    // What is lent is handed back as it was lent: the same device of the same size, which tells its
    // bytes if it did, and no count of faults that falls. Of the source no more is taken than tells
    // that it gives too much. Where a write fails, the sink counted it.
    ensures takes { Told (GivesAtMost (largest_trace + 1)) (S.left source.old) (S.left source.new) }
    ensures lent { GoesOn N.Nvm nvm.old nvm.new }
    ensures source_later { S.faults source.old ≤ S.faults source.new }
    ensures sink_later { K.faults sink.old ≤ K.faults sink.new }
    ensures write_fault { result ≡ Status.WriteFault
        → Rose (K.faults sink.old) (K.faults sink.new) }

    // Other words are a fault of usage, unless memory runs out. Nothing is read, and the device stays.
    ensures usage { NeedNoThreads words.now → TellsWhole K.Sink IsUsageCause result
        sink.old sink.new }
    ensures usage_part { NeedNoThreads words.now
        → TellsCut K.Sink IsUsageCause result sink.old sink.new }
    ensures untouched { NeedNoThreads words.now → (source.new ≡ source.old) × (nvm.new ≡ nvm.old) }

    // `drive`: with Ok the sink gained exactly the report of a run of the cycles that the source
    // spelled, as by `replay`, with another status exactly the line of a fault that has its cause,
    // and where a write failed a part of either.
    ensures drive { ServesDrive S.Source K.Sink N.Nvm words.now result
        source.old source.new sink.old sink.new nvm.old nvm.new }
    // `drive W live`: likewise, and with Ok after that report the line of each cycle that ran, in
    // order: its place in the run, the length of its log, and the events in the banks after the
    // steps of these commands, by the same run.
    ensures live { ServesLive S.Source K.Sink N.Nvm words.now result
        source.old source.new sink.old sink.new nvm.old nvm.new }
    // `fleet`: likewise the report of the images whose frames the source told. The device stays.
    ensures fleet { ServesFleet S.Source K.Sink words.now result
        source.old source.new sink.old sink.new }
    ensures fleet_uses { (workers : ℕ) → AreFleetWords workers words.now → nvm.new ≡ nvm.old }
{
    let job = match words.job(alloc) {
        Ok(job) => job,
        Err(OutOfMemory) => return tell(sink, Fault::OutOfMemory),
    };
    match job {
        Some(Job::Drive { workers, form }) => {
            let workers = Workers {
                rt,
                count: workers,
                gate,
            };
            finish(sink, drive_source(alloc, source, nvm, form, &workers))
        }
        Some(Job::DriveLive { workers }) => {
            let workers = Workers {
                rt,
                count: workers,
                gate,
            };
            serve_live(alloc, source, sink, nvm, &workers)
        }
        Some(Job::Fleet { workers }) => serve_fleet(rt, alloc, source, sink, workers),
        _ => tell(sink, Fault::Usage),
    }
}
