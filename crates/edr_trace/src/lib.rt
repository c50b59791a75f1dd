//! Reads a trace: the ignition cycles that its bytes spell, or the first row that has a fault.
#![tactic(auto)]

mod fronts;
pub mod laws;
mod parse;
mod pieces;
mod plain;
mod reading;
mod steps;

ghost use Rattle.std.specs.Prelude.{◌≡◌, ◌≤◌, ◌<◌, ◌+◌, ◌^◌, ℕ, List, Some, None, length, IfOk, IfErr, IfSome, All};
ghost use Rattle.edr_spell.specs.Spell.{Spell, IsCycleInput, largest_trace};
ghost use Rattle.edr_spell.specs.Fault.{FirstFault};
ghost use Rattle.edr_trace.specs.Told.{GivesCycles, GivesFault, TellsRefusal, TellsOf};
ghost use Rattle.edr_trace.specs.SoFar.{LeadsTo, LeavesLess, OfWhole};
ghost use Rattle.edr_trace.specs.Fronts.{IsRowTaken, IsRowRefused};

use csv::{ByteRecord, ReaderBuilder};
pub use edr_spell::{CycleInput, Row, TraceFault, TraceRefused, Word};
use fronts::{across_row, after_no_row, along_row, any_row, line_in_front};
use parse::{row_of, row_of_three};
use plain::take_plain_lines;
pub use reading::{LONGEST_ROW, TraceReading};
use std::alloc::{AllocError, Global};
use std::io::Read;
use steps::{HowFar, RowRefused, Trace, at_row};

/// The most bytes that a trace may have.
pub const LARGEST_TRACE: u32 = 67_108_864;

/// Why bytes are not read as a trace.
#[derive(Clone, Copy, Debug, PartialEq, Eq)]
pub enum ReadRefused {
    /// A row has a fault.
    Trace(TraceRefused),
    /// There is no room for a sample, a cycle or the bytes of rows.
    OutOfMemory,
}

impl From<AllocError> for ReadRefused {
    ghost use Rattle.edr_trace.specs.declared.ReadRefused.TheVariants as refused;

    ghost from_gives = { λ _ e. e ≡ refused.OutOfMemory };

    fn from(_: AllocError) -> ReadRefused {
        ReadRefused::OutOfMemory
    }
}

/// The cycles that the bytes spell, or the first row that has a fault.
///
/// The bytes are records of fields between commas, as `csv` reads them: quotes as usual, no header, nothing trimmed; a
/// carriage return, a line feed or both end a record, a byte order mark at the front is dropped, and a blank line is no
/// record. The bytes are gone through once. From a row on that is spelled as no writer does it they are read twice.
///
/// ```
/// let cycles = read(alloc, b"on,0,\nalong,1,-4000\ncut,0,\n")?;
/// assert_eq!(cycles[0].feeds.of(Sensor::Along).len(), 1);
/// ```
pub fn read(alloc: Global, bytes: &[u8]) -> Result<Vec<CycleInput>, ReadRefused>
    requires { length bytes.now ≤ largest_trace }
    ensures spelled { IfOk result (λ v. Spell bytes.now v.items) }
    ensures refused { IfErr result (λ e. TellsRefusal bytes.now e) }
    ensures cycles { IfOk result (λ v. All IsCycleInput v.items) }

    // What is spelled is read, and a fault is told, unless memory runs out.
    ensures only_spelled { (cycles : List CycleInput) → Spell bytes.now cycles → GivesCycles cycles result }
    ensures only_refused { (t : TraceRefused) → FirstFault bytes.now t → GivesFault t result }
{
    let mut reading = TraceReading::new(alloc);
    let taken = reading.take_rows(bytes);
    reading.finish(&bytes[taken..])
}

// Takes a row that isn't one of the two sensors that most rows are of, or isn't plain, and answers the bytes after it.
#[inline(never)]
fn take_any<'a>(
    alloc: Global,
    trace: &mut Trace,
    bytes: &'a [u8],
) -> Result<Option<&'a [u8]>, RowRefused>
    ensures taken { IfOk result (λ o. IfSome o (λ rest. IsRowTaken trace.old trace.new bytes.now rest.now)) }
    ensures none { IfOk result (λ o. o ≡ None → trace.new ≡ trace.old) }
    ensures refused { IfErr result (IsRowRefused trace.old bytes.now) }
{
    if let Some((row, after)) = any_row(bytes) {
        trace.take_row(alloc, row)?;
        return Ok(Some(after));
    }
    let Some(line) = line_in_front(bytes) else {
        return Ok(None);
    };
    trace.take_read(alloc, row_of_three(line.first, line.second, line.third))?;
    Ok(Some(line.rest))
}

// Takes a row, and answers the bytes after it. The two sensors that most rows are of are tried first, each with a code
// of its own.
#[inline(always)]
fn take_next<'a>(
    alloc: Global,
    trace: &mut Trace,
    bytes: &'a [u8],
) -> Result<Option<&'a [u8]>, RowRefused>
    ensures taken { IfOk result (λ o. IfSome o (λ rest. IsRowTaken trace.old trace.new bytes.now rest.now)) }
    ensures none { IfOk result (λ o. o ≡ None → trace.new ≡ trace.old) }
    ensures refused { IfErr result (IsRowRefused trace.old bytes.now) }
{
    if let Some((row, after)) = along_row(bytes) {
        trace.take_row(alloc, row)?;
        return Ok(Some(after));
    }
    if let Some((row, after)) = across_row(bytes) {
        trace.take_row(alloc, row)?;
        return Ok(Some(after));
    }
    take_any(alloc, trace, bytes)
}

// Takes a row in front of the bytes, or passes what is no row, and answers the bytes after it.
#[inline(always)]
fn take_one<'a>(
    alloc: Global,
    trace: &mut Trace,
    progress: &mut HowFar,
    bytes: &'a [u8],
) -> Result<Option<&'a [u8]>, ReadRefused>
    requires { progress.old.rows + length bytes.now < 2 ^ 32 }
    ensures taken { IfOk result (λ o. IfSome o (λ rest.
        LeadsTo bytes.now rest.now trace.old trace.new progress.old progress.new)) }
    ensures count { IfOk result (λ o. IfSome o (λ rest. LeavesLess bytes.now rest.now progress.old progress.new)) }
    ensures none { IfOk result (λ o. o ≡ None → (trace.new ≡ trace.old) × (progress.new ≡ progress.old)) }
    ensures refused { IfErr result (TellsOf bytes.now trace.old progress.old) }
{
    match take_next(alloc, trace, bytes) {
        Ok(Some(after)) => {
            progress.rows += 1;
            progress.begun = true;
            Ok(Some(after))
        }
        Ok(None) => {
            let Some(after) = after_no_row(bytes, progress.begun) else {
                return Ok(None);
            };
            progress.begun = true;
            Ok(Some(after))
        }
        Err(refused) => Err(at_row(progress.rows + 1, refused)),
    }
}

// Takes the rows in front of the bytes, and answers the bytes that are left.
fn take_lines<'a>(
    alloc: Global,
    trace: &mut Trace,
    progress: &mut HowFar,
    bytes: &'a [u8],
) -> Result<&'a [u8], ReadRefused>
    requires { progress.old.rows + length bytes.now < 2 ^ 32 }
    ensures count { IfOk result (λ rest. progress.new.rows + length rest.now ≤ progress.old.rows + length bytes.now) }
    ensures taken { IfOk result (λ rest. LeadsTo bytes.now rest.now trace.old trace.new progress.old progress.new) }
    ensures refused { IfErr result (TellsOf bytes.now trace.old progress.old) }
{
    let mut rest = bytes;
    loop {
        rest = take_plain_lines(trace, progress, rest);
        match take_one(alloc, trace, progress, rest) {
            Ok(Some(after)) => rest = after,
            Ok(None) => return Ok(rest),
            Err(refused) => return Err(refused),
        }
    }
}

// Takes the records of a source one after the other, where so much was taken before.
fn read_rest<R: Read + Drop>(
    alloc: Global,
    trace: Trace,
    progress: HowFar,
    source: R,
) -> Result<Vec<CycleInput>, ReadRefused>
    requires { (bytes : List ℕ) × (R.remaining source ≡ Some bytes) × (progress.rows + length bytes ≤ largest_trace) }
    ensures spelled { IfOk result (λ v. OfWhole (R.remaining source) trace progress (λ whole. Spell whole v.items)) }
    ensures refused { IfErr result (λ e. OfWhole (R.remaining source) trace progress (λ whole. TellsRefusal whole e)) }
{
    let mut trace = trace;
    // A byte order mark is one at the front of a trace alone. A blank line is no record.
    let front: &[u8] = if progress.begun { b"\n" } else { b"" };
    let mut reader = ReaderBuilder::new()
        .has_headers(false)
        .flexible(true)
        .from_reader(alloc, front.chain(source));
    let mut fields = ByteRecord::new(alloc);
    for n in progress.rows..u32::MAX {
        match reader.read_byte_record(&mut fields) {
            Ok(true) => {}
            Ok(false) => return trace.end(n + 1),
            // A source that tells its bytes has no faults of its own, so what is left is want of memory.
            Err(_) => return Err(ReadRefused::OutOfMemory),
        }
        if let Err(refused) = trace.take_read(alloc, row_of(&fields)) {
            return Err(at_row(n + 1, refused));
        }
    }
    // There are no more records than bytes.
    unreachable!()
}
