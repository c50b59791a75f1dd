//! Serves `audit`: says whether what the device holds, and a report, come from an earlier image and a trace.
ghost use Rattle.std.specs.Prelude.{◌≡◌, ◌⊎◌, ◌+◌, ◌≤◌, ◌++◌, IfOk, IfErr, IfSome, OnOk, length, min, take};
ghost use Rattle.arrayvec.specs.ArrayString.{array_string_len};
ghost use Rattle.edr_device.specs.Faults.{HasCause, Rose};
ghost use Rattle.edr_device.specs.Lent.{GoesOn, OnlyRead};
ghost use Rattle.edr_device.specs.Told.{Told};
ghost use Rattle.edr_device.specs.Transfer.{GivesAtMost};
ghost use Rattle.edr_spell.specs.Spell.{largest_trace};
ghost use Rattle.edr_cli.specs.Audits.{Audits, IsAudit, IsAuditCause, audited_line, audited_status, difference_words};
ghost use Rattle.edr_cli.specs.Crashes.{KeepsBytes};
ghost use Rattle.edr_cli.specs.Outside.{FailsBy, IsAtEnd, NoFault, OfRun};

use crate::endings::{tell, write};
use crate::fault::Fault;
use crate::pieces::pieces_of;
use crate::status::Status;
use edr_audit::{Difference, Verdict, audit};
use edr_device::{Failed, Nvm, Sink, Source, take_all};
use edr_report::{Room, ShortLine, push_number};
use edr_trace::LARGEST_TRACE;
use std::alloc::Global;

// What an image says stands in so many first bytes.
const LONGEST_IMAGE: u32 = 16_480;

/// What is said of the bytes of a source and of those of a device.
#[derive(Clone, Copy, Debug, PartialEq, Eq)]
pub(crate) enum Audited {
    /// The source has no first line, or fewer bytes than that tells.
    Lengths,
    /// The verdict on its pieces and on the device's bytes.
    Judged(Verdict),
}

// Appends in what the pieces differ first.
fn push_difference(line: &mut Room, difference: Difference)
    requires { array_string_len line.old ≤ 40 }
    ensures bytes { line.new.bytes ≡ line.old.bytes ++ difference_words difference }
    ensures len { array_string_len line.new ≤ array_string_len line.old + 20 }
{
    match difference {
        Difference::Before => line.push_str("before"),
        Difference::Trace { row } => push_number(line, "trace row ", row),
        Difference::Stops { found } => push_number(line, "stops ", found),
        Difference::After => line.push_str("after"),
        Difference::Run => line.push_str("run"),
        Difference::Report { offset } => push_number(line, "report at ", offset),
    }
}

impl Audited {
    // The line that tells it. It takes no memory.
    fn line(self) -> ShortLine
        ensures { result ≡ audited_line self }
    {
        let mut line = Room::new();
        line.push_str("audit: ");
        match self {
            Audited::Lengths => line.push_str("differs in lengths"),
            Audited::Judged(Verdict::Agrees) => line.push_str("agrees"),
            Audited::Judged(Verdict::Differs(difference)) => {
                line.push_str("differs in ");
                push_difference(&mut line, difference);
            }
        }
        line.push_str("\n");
        ShortLine::new(line)
    }

    // The status of a call that tells it.
    fn status(self) -> Status
        ensures { result ≡ audited_status self }
    {
        match self {
            Audited::Judged(Verdict::Agrees) => Status::Ok,
            Audited::Lengths | Audited::Judged(Verdict::Differs(_)) => Status::Audit,
        }
    }
}

// Reads the first bytes of the device, as many as an image may have, or all of fewer.
fn read_first<N: Nvm>(nvm: &mut N, into: &mut [u8]) -> Result<(), Failed>
    requires { length into.old ≡ min (N.extent nvm.old) LONGEST_IMAGE }
    ensures bytes { OnOk result (IfSome (N.content nvm.old)
        (λ image. into.new ≡ take LONGEST_IMAGE image)) }
    ensures cause { HasCause (N.faults nvm.old) (N.faults nvm.new) result }
    ensures read { OnlyRead N.Nvm nvm.old nvm.new }
{
    nvm.read(0, into)
}

// The bytes of the device that an image may have.
fn first_bytes<N: Nvm>(alloc: Global, nvm: &mut N) -> Result<Vec<u8>, Fault>
    ensures bytes { IfOk result (λ b. IfSome (N.content nvm.old)
        (λ image. b.items ≡ take LONGEST_IMAGE image)) }
    ensures cause { IfErr result (λ f. (f ≡ Fault.OutOfMemory)
        ⊎ ((f ≡ Fault.Store) × Rose (N.faults nvm.old) (N.faults nvm.new))) }
    ensures read { OnlyRead N.Nvm nvm.old nvm.new }
{
    let size = nvm.size().min(LONGEST_IMAGE);
    let mut bytes = vec![in alloc; 0; size as usize]?;
    read_first(nvm, &mut bytes)?;
    Ok(bytes)
}

// The bytes of the device, after a barrier, so that nothing is pending.
fn settled_bytes<N: Nvm>(alloc: Global, nvm: &mut N) -> Result<Vec<u8>, Fault>
    ensures bytes { IfOk result (λ b. IfSome (N.content nvm.old)
        (λ image. b.items ≡ take LONGEST_IMAGE image)) }
    ensures cause { IfErr result (λ f.
        ((f ≡ Fault.OutOfMemory) × (N.content nvm.new ≡ N.content nvm.old))
        ⊎ ((f ≡ Fault.Store) × Rose (N.faults nvm.old) (N.faults nvm.new))) }
    ensures told { OnOk result (N.content nvm.new ≡ N.content nvm.old) }
    ensures stays { KeepsBytes N.Nvm nvm.old nvm.new }
    ensures keeps { NoFault N.faults nvm.old nvm.new → N.content nvm.new ≡ N.content nvm.old }
    ensures lent { GoesOn N.Nvm nvm.old nvm.new }
{
    nvm.sync()?;
    first_bytes(alloc, nvm)
}

// What is said of the bytes that the source gives and of those of the device. The first line is
// looked at before the device is touched.
fn audit_source<S: Source, N: Nvm>(
    alloc: Global,
    source: &mut S,
    nvm: &mut N,
) -> Result<Audited, Fault>
    ensures takes { Told (GivesAtMost (largest_trace + 1)) (S.left source.old) (S.left source.new) }
    ensures source_later { S.faults source.old ≤ S.faults source.new }
    ensures lent { GoesOn N.Nvm nvm.old nvm.new }
    ensures end { OnOk result (IsAtEnd (S.left source.new)) }
    ensures says { IfOk result (OfRun S.Source N.Nvm IsAudit source.old nvm.old nvm.new) }
    ensures cause { FailsBy S.Source N.Nvm IsAuditCause source.old source.new nvm.old nvm.new result }
    ensures stays { KeepsBytes N.Nvm nvm.old nvm.new }
    ensures keeps { NoFault N.faults nvm.old nvm.new → N.content nvm.new ≡ N.content nvm.old }
{
    let bytes = take_all(alloc, source, LARGEST_TRACE as usize)?;
    let Some(pieces) = pieces_of(&bytes) else {
        return Ok(Audited::Lengths);
    };
    let after = settled_bytes(alloc, nvm)?;
    let verdict = audit(alloc, pieces.before, pieces.trace, &after, pieces.report)?;
    Ok(Audited::Judged(verdict))
}

/// Says whether what the device holds, and the report that the source gives, come from the image
/// and the trace that it gives.
pub(crate) fn serve_audit<S: Source, K: Sink, N: Nvm>(
    alloc: Global,
    source: &mut S,
    sink: &mut K,
    nvm: &mut N,
) -> Status
    ensures audits { Audits S.Source K.Sink N.Nvm result
        source.old source.new sink.old sink.new nvm.old nvm.new }
    ensures write_fault { result ≡ Status.WriteFault
        → Rose (K.faults sink.old) (K.faults sink.new) }
    ensures sink_later { K.faults sink.old ≤ K.faults sink.new }
    ensures takes { Told (GivesAtMost (largest_trace + 1)) (S.left source.old) (S.left source.new) }
    ensures source_later { S.faults source.old ≤ S.faults source.new }
    ensures lent { GoesOn N.Nvm nvm.old nvm.new }
{
    match audit_source(alloc, source, nvm) {
        Ok(audited) => write(sink, audited.line().as_bytes(), audited.status()),
        Err(fault) => tell(sink, fault),
    }
}
