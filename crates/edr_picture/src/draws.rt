//! The top call: from the bytes of a report to those of its page.
ghost use Rattle.std.specs.Prelude.{◌≡◌, ◌≢◌, ◌⊎◌, ◌≤◌, ◌+◌, IfOk, IfErr};
ghost use Rattle.edr_device.specs.{Told.{Told}, Transfer.{GivesAtMost}};
ghost use Rattle.edr_picture.specs.Pages.{AnswerIs, Fails, GainsPart, GainsText, HasNone, IsDrawn, IsTextFor, OfReport, OnInput, WritesText, WritesPart, fault_line, largest_report};

use crate::asked::{Asked, HELP, version_line};
use crate::faults::{PageFault, PageStatus};
use edr_device::{Sink, Source, TakeFault, put_all, take_all};
use edr_drawing::{Origin, page};
use edr_reading::{ReportRefused, read};
use sha2::{Digest, Sha256};
use std::alloc::Global;

// The most bytes that a report may have.
const LARGEST_REPORT: usize = 67_108_864;

// The page of the report that the source gives up to its end, or why there is none.
fn page_from<S: Source>(alloc: Global, source: &mut S) -> Result<Vec<u8>, PageFault>
    ensures page { IfOk result (λ v. OnInput S.Source (AnswerIs Asked.Page) source.old source.new v.items) }
    ensures cause { IfErr result (HasNone S.Source Asked.Page source.old source.new) }
    ensures complete { OfReport S.Source source.old source.new (IfErr result (λ f. f ≡ PageFault.OutOfMemory)) }
    ensures takes { Told (GivesAtMost (largest_report + 1)) (S.left source.old) (S.left source.new) }
    ensures later { S.faults source.old ≤ S.faults source.new }
{
    let bytes = take_all(alloc, source, LARGEST_REPORT).map_err(|fault| match fault {
        TakeFault::Failed => PageFault::Read,
        TakeFault::TooLong => PageFault::TooLong,
        TakeFault::OutOfMemory => PageFault::OutOfMemory,
    })?;
    let reading = match read(alloc, &bytes) {
        Ok(reading) => reading,
        Err(ReportRefused::Fault { row, fault }) => return Err(PageFault::Report { row, fault }),
        Err(ReportRefused::OutOfMemory) => return Err(PageFault::OutOfMemory),
    };
    let origin = Origin {
        count: reading.count,
        size: bytes.len() as u32,
        digest: Sha256::digest(&bytes),
    };
    page(alloc, &reading.run, &reading.found, &origin).map_err(|_| PageFault::OutOfMemory)
}

// Writes the text with which a call ends so.
fn write<K: Sink>(sink: &mut K, text: &[u8], status: PageStatus) -> PageStatus
    ensures whole { result ≢ PageStatus.WriteFault → GainsText K.Sink text.now sink.old sink.new }
    ensures part { status ≢ result → GainsPart K.Sink text.now sink.old sink.new × Fails K.Sink sink.old sink.new }
    ensures answers { (result ≡ status) ⊎ (result ≡ PageStatus.WriteFault) }
    ensures later { K.faults sink.old ≤ K.faults sink.new }
{
    put_all(sink, text).map_or(PageStatus::WriteFault, |()| status)
}

/// Answers what was asked. A page is that of the report that the source gives: it is read to its end, and the last line on
/// each sheet names the bytes by their digest. A fault writes its one line alone.
pub fn draw<S: Source, K: Sink>(
    alloc: Global,
    asked: Asked,
    source: &mut S,
    sink: &mut K,
) -> PageStatus
    // With Done the sink gained exactly the answer: the page of the bytes of the source, which is at its end, or a word's text.
    ensures done { result ≡ PageStatus.Done
        → WritesText K.Sink (OnInput S.Source (AnswerIs asked) source.old source.new) sink.old sink.new }
    // With a fault it gained exactly its line, and the fault has its cause.
    ensures fault { (f : PageFault) → result ≡ PageStatus.Faulty f
        → HasNone S.Source asked source.old source.new f
        × GainsText K.Sink (fault_line f) sink.old sink.new }
    // Where a write failed it gained a part of one of these texts.
    ensures part { result ≡ PageStatus.WriteFault
        → Fails K.Sink sink.old sink.new
        × WritesPart K.Sink (IsTextFor S.Source asked source.old source.new) sink.old sink.new }
    // Where neither source nor sink counts a fault, a report is drawn, unless memory runs out.
    ensures complete { asked ≡ Asked.Page → ¬ Fails K.Sink sink.old sink.new
        → OfReport S.Source source.old source.new (IsDrawn result) }
    ensures takes { Told (GivesAtMost (largest_report + 1)) (S.left source.old) (S.left source.new) }
    ensures later { (S.faults source.old ≤ S.faults source.new) × (K.faults sink.old ≤ K.faults sink.new) }
{
    let fault = match asked {
        Asked::Page => match page_from(alloc, source) {
            Ok(page) => return write(sink, &page, PageStatus::Done),
            Err(fault) => fault,
        },
        Asked::Help => return write(sink, HELP, PageStatus::Done),
        Asked::Version => return write(sink, &version_line(), PageStatus::Done),
        Asked::Other => PageFault::Usage,
    };
    write(sink, fault.line().as_bytes(), PageStatus::Faulty(fault))
}
