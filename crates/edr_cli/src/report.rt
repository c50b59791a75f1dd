//! Serves `report`: reads what the memory of the records holds, and reports it.
ghost use Rattle.std.specs.Prelude.{◌≡◌, ◌≤◌, ℕ, List, Some, IfOk, IfErr, map};
ghost use Rattle.edr_device.specs.Faults.{Rose};
ghost use Rattle.edr_device.specs.Lent.{At, GoesOn, OnlyRead};
ghost use Rattle.edr_image.specs.Reports.{report_of};
ghost use Rattle.edr_gates.specs.Found.{IsFound, Says};
ghost use Rattle.edr_banks.specs.Opening.{view_when_opened};
ghost use Rattle.edr_cli.specs.Reports.{IsImageCause, ShowsReport, ReportIs, report_in};
ghost use Rattle.edr_cli.specs.Outside.{NoFault, OfMemory, memory};
ghost use Rattle.edr_cli.specs.Steps.{ReportsHeld};
ghost use Rattle.edr_cli.specs.Crashes.{KeepsBytes};

use crate::endings::finish;
use crate::fault::Fault;
use crate::status::Status;
use edr_banks::Banks;
use edr_device::{Nvm, Sink};
use edr_image::CycleReport;
use edr_report::{table, text};
use edr_words::Form;
use std::alloc::{AllocError as OutOfMemory, Global};

/// Opens the banks after a barrier, so that nothing is pending.
pub(crate) fn open_settled<N: Nvm>(alloc: Global, nvm: &mut N) -> Result<Banks, Fault>
    ensures found { IfOk result (λ b. (image : List ℕ) → N.content nvm.old ≡ Some image
        → At N.Nvm (IsFound (view_when_opened b)) nvm.new image) }
    ensures cause { IfErr result (OfMemory N.Nvm IsImageCause nvm.old nvm.new) }
    ensures stays { KeepsBytes N.Nvm nvm.old nvm.new }
    ensures keeps { NoFault N.faults nvm.old nvm.new → N.content nvm.new ≡ N.content nvm.old }
    ensures lent { GoesOn N.Nvm nvm.old nvm.new }
{
    nvm.sync()?;
    open(alloc, nvm)
}

/// Opens the banks.
pub(crate) fn open<N: Nvm>(alloc: Global, nvm: &mut N) -> Result<Banks, Fault>
    ensures says { IfOk result (λ b. (image : List ℕ) → N.content nvm.old ≡ Some image
        → Says image b.store b.count) }
    ensures cause { IfErr result (OfMemory N.Nvm IsImageCause nvm.old nvm.new) }
    ensures read { OnlyRead N.Nvm nvm.old nvm.new }
{
    Ok(Banks::open(alloc, nvm)?)
}

/// The report of these cycles and of what the banks hold.
pub(crate) fn report_of_banks(
    alloc: Global,
    form: Form,
    run: &[CycleReport],
    banks: &Banks,
) -> Result<Vec<u8>, OutOfMemory>
    ensures text { IfOk result (λ out. out.items ≡ report_in form (map report_of run.now)
        banks.now.store banks.now.count) }
{
    let found = banks.retrieve(alloc)?;
    match form {
        Form::Text => text(alloc, run, &found, banks.count()),
        Form::Table => table(alloc, run, &found, banks.count()),
    }
}

/// Opens the banks, and reports these cycles and what the banks hold.
pub(crate) fn report_held<N: Nvm>(
    alloc: Global,
    nvm: &mut N,
    form: Form,
    run: &[CycleReport],
) -> Result<Vec<u8>, Fault>
    ensures text { IfOk result (λ out. ReportsHeld form (map report_of run.now)
        (memory N.Nvm nvm.old) out.items) }
    ensures cause { IfErr result (OfMemory N.Nvm IsImageCause nvm.old nvm.new) }
    ensures read { OnlyRead N.Nvm nvm.old nvm.new }
{
    let banks = open(alloc, nvm)?;
    Ok(report_of_banks(alloc, form, run, &banks)?)
}

/// The report of what the device holds.
pub(crate) fn report<N: Nvm>(alloc: Global, nvm: &mut N, form: Form) -> Result<Vec<u8>, Fault>
    ensures lent { GoesOn N.Nvm nvm.old nvm.new }
    ensures text { IfOk result (λ out. OfMemory N.Nvm (ReportIs form) nvm.old nvm.new out.items) }
    ensures cause { IfErr result (OfMemory N.Nvm IsImageCause nvm.old nvm.new) }
    ensures stays { KeepsBytes N.Nvm nvm.old nvm.new }
{
    let banks = open_settled(alloc, nvm)?;
    Ok(report_of_banks(alloc, form, &[], &banks)?)
}

/// Writes the report of what the device holds.
pub(crate) fn serve_report<K: Sink, N: Nvm>(
    alloc: Global,
    sink: &mut K,
    nvm: &mut N,
    form: Form,
) -> Status
    ensures shows { ShowsReport K.Sink N.Nvm form result sink.old sink.new nvm.old nvm.new }
    ensures write_fault { result ≡ Status.WriteFault
        → Rose (K.faults sink.old) (K.faults sink.new) }
    ensures sink_later { K.faults sink.old ≤ K.faults sink.new }
    ensures lent { GoesOn N.Nvm nvm.old nvm.new }
{
    finish(sink, report(alloc, nvm, form))
}
