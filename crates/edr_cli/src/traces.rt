//! Reads the trace that a source gives.
ghost use Rattle.std.specs.Prelude.{◌≡◌, ◌≢◌, ◌+◌, ◌-◌, ◌≤◌, ◌<◌, ◌^◌, ℕ, List, Err, ◌++◌, length, take, All, IfOk, IfErr, IfSome, OnErr, OnOk};
ghost use Rattle.edr_device.specs.Faults.{Rose};
ghost use Rattle.edr_device.specs.Told.{Told};
ghost use Rattle.edr_device.specs.Transfer.{Carries, GivesAtMost, GivesTooMany};
ghost use Rattle.edr_spell.specs.Spell.{IsCycleInput, largest_trace};
ghost use Rattle.edr_trace.specs.Given.{Given, TakesBytes};
ghost use Rattle.edr_cli.specs.Sources.{IsTraceCause};
ghost use Rattle.edr_cli.specs.Outside.{IsAtEnd, input};
ghost use Rattle.edr_cli.specs.Runs.{IsTraceOf};
ghost use Rattle.edr_cli.specs.Traces.{HasAll};

use crate::fault::Fault;
use edr_device::{Source, TakeFault, piece_len};
use edr_trace::{CycleInput, LARGEST_TRACE, LONGEST_ROW, TraceReading};
use std::alloc::Global;

// Takes at most so many bytes of the source, puts them after the first `kept` of the buffer, and answers how many.
fn take_after<S: Source>(
    source: &mut S,
    buffer: &mut [u8],
    kept: usize,
    most: usize,
) -> Result<usize, TakeFault>
    requires some { 1 ≤ most }
    requires room { kept + most ≤ length buffer.old }
    ensures within { IfOk result (λ n. n ≤ most) }
    ensures carries { IfOk result (λ n. Told
        (Carries n (take kept buffer.old) (take (kept + n) buffer.new))
        (S.left source.old) (S.left source.new)) }
    ensures err { OnErr result (Told (GivesAtMost most) (S.left source.old) (S.left source.new)) }
    ensures later { S.faults source.old ≤ S.faults source.new }
    ensures failed { result ≡ Err TakeFault.Failed
        → Rose (S.faults source.old) (S.faults source.new) }
    ensures not_too_long { result ≢ Err TakeFault.TooLong }
{
    let n = source.take(&mut buffer[kept..kept + most])?;
    Ok(n)
}

// Gives the first `end` bytes of the buffer to the reading, moves what it leaves to the front, and
// answers how many bytes that is.
fn keep_left(reading: &mut TraceReading, buffer: &mut [u8], end: usize) -> usize
    requires within { end ≤ length buffer.old }
    requires fits { (before : List ℕ) × Given before reading.old × (length before + end < 2 ^ 32) }
    ensures few { result ≤ LONGEST_ROW }
    ensures left { result ≤ end }
    ensures given { TakesBytes (take (end - result) buffer.old) reading.old reading.new }
    ensures moved { take (end - result) buffer.old ++ take result buffer.new ≡ take end buffer.old }
{
    let taken = reading.take_rows(&buffer[..end]);
    buffer.copy_within(taken..end, 0);
    end - taken
}

// A trace that was taken to its end: what was read of it, and the bytes that are left.
#[derive(Drop)]
struct Taken {
    reading: TraceReading,
    left: Vec<u8>,
}

// Takes all bytes up to the end of the source, as `take_all` does, but reads their rows as they come.
fn take_trace<S: Source>(alloc: Global, source: &mut S, limit: usize) -> Result<Taken, TakeFault>
    requires { limit < 2 ^ 31 }
    ensures all { IfOk result (λ t. HasAll limit t (S.left source.old) (S.left source.new)) }
    ensures too_long { result ≡ Err TakeFault.TooLong
        → Told (GivesTooMany limit) (S.left source.old) (S.left source.new) }
    ensures failed { result ≡ Err TakeFault.Failed
        → Rose (S.faults source.old) (S.faults source.new) }
    ensures most { Told (GivesAtMost (limit + 1)) (S.left source.old) (S.left source.new) }
    ensures later { S.faults source.old ≤ S.faults source.new }
{
    let mut reading = TraceReading::new(alloc);
    let longest = piece_len(limit + 1);
    let mut buffer = vec![in alloc; 0; LONGEST_ROW + longest]?;
    let mut taken = 0;
    let mut kept = 0;
    while taken <= limit {
        let most = longest.min(limit + 1 - taken);
        let n = take_after(source, &mut buffer, kept, most)?;
        if n == 0 {
            buffer.truncate(kept);
            return Ok(Taken {
                reading,
                left: buffer,
            });
        }
        taken += n;
        kept = keep_left(&mut reading, &mut buffer, kept + n);
    }
    Err(TakeFault::TooLong)
}

/// The cycles of the trace that the source gives, which is read to its end, or to one byte past the most that a trace
/// may have.
pub(crate) fn trace_of<S: Source>(alloc: Global, source: &mut S) -> Result<Vec<CycleInput>, Fault>
    ensures end { OnOk result (IsAtEnd (S.left source.new)) }
    ensures spelled { IfOk result (λ cycles. IfSome (S.left source.old) (IsTraceOf cycles.items)) }
    ensures cycles { IfOk result (λ cycles. All IsCycleInput cycles.items) }
    ensures few { IfOk result (λ cycles. length cycles.items ≤ largest_trace) }
    ensures cause { IfErr result (IsTraceCause (input S.Source source.old)
        (input S.Source source.new)) }
    ensures takes { Told (GivesAtMost (largest_trace + 1)) (S.left source.old) (S.left source.new) }
    ensures later { S.faults source.old ≤ S.faults source.new }
{
    let Taken { reading, left } = take_trace(alloc, source, LARGEST_TRACE as usize)?;
    Ok(reading.finish(&left)?)
}
