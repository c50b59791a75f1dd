//! A slow checker: whether an image and a report come from an earlier image and a trace.
#![tactic(auto)]

ghost use Rattle.std.specs.Prelude.{◌≡◌, ◌≤◌, ◌<◌, ◌^◌, List, ℕ, IfOk, length};
ghost use Rattle.edr_spell.specs.Spell.{largest_trace};
ghost use Rattle.edr_audit.specs.Branches.{branch_with};
ghost use Rattle.edr_audit.specs.declared.compared.Compared.TheVariants.{Same};
ghost use Rattle.edr_audit.specs.Verdicts.{IsAudited, IsVerdict, stops_in};

use crate::branches::{Branch, after_cycles};
use crate::compared::Compared;
use crate::judge::judge;
use crate::same::is_same_header;
use crate::views::{ImageView, image_view};
use edr_spell::CycleInput;
use edr_trace::{ReadRefused, read};
use std::alloc::{AllocError as OutOfMemory, Global};

mod branches;
mod compared;
mod event_lines;
mod events;
mod judge;
pub mod laws;
mod lines;
mod same;
mod steps;
mod tail;
mod values;
mod views;
mod walk;
mod walker;

/// At most this many cycles of an audited trace may have two ends: those whose start is stopped in call 5 or 6, or that have a
/// planned stop in their commands.
pub const MOST_STOPS: u32 = 8;

/// What is said of an image and a report.
#[derive(Clone, Copy, Debug, PartialEq, Eq)]
pub enum Verdict {
    /// They come from the earlier image and the trace.
    Agrees,
    /// They don't.
    Differs(Difference),
}

/// The first difference.
#[derive(Clone, Copy, Debug, PartialEq, Eq)]
pub enum Difference {
    /// The image before says nothing.
    Before,
    /// The bytes are no trace: the first row that has a fault.
    Trace { row: u32 },
    /// Too many of its cycles may have two ends: this many.
    Stops { found: u32 },
    /// The image after says nothing.
    After,
    /// No end of the cycles has the banks and the count of the image after.
    Run,
    /// Some have, and the report is that of none of these: where it differs from that of the first of them.
    Report { offset: u32 },
}

// How many of the cycles may have two ends.
#[tactic(auto, using(crate::proofs::CountLemmas::stops_few))]
fn stops_in(cycles: &[CycleInput]) -> u32
    requires { length cycles.now < 2 ^ 32 }
    ensures { result ≡ stops_in cycles.now }
{
    let found = cycles
        .iter()
        .filter(|c| 5 <= c.start_stop || 0 < c.stop)
        .count();
    found as u32
}

// The branch at the start of a run.
fn first_branch(from: ImageView) -> Branch
    ensures { result ≡ branch_with from.count (Same 0) from.store.banks }
{
    Branch {
        banks: from.banks,
        count: from.count,
        text: Compared::Same(0),
    }
}

// Whether the cycles lead from one view to the other, with the report.
fn compare_runs(
    alloc: Global,
    report: &[u8],
    cycles: &[CycleInput],
    from: ImageView,
    to: &ImageView,
) -> Result<Verdict, OutOfMemory>
    requires { length report.now < 2 ^ 32 }
    ensures { IfOk result (λ v. (before trace after : List ℕ) → IsAudited before trace after from cycles.now to.now → IsVerdict before trace after report.now v) }
{
    let header = from.header();
    if !is_same_header(header, to.header()) {
        return Ok(Verdict::Differs(Difference::Run));
    }
    let first = first_branch(from);
    let branches = after_cycles(alloc, report, header, cycles, first)?;
    let found = to.events(alloc)?;
    Ok(judge(report, &branches, to, &found))
}

// The verdict on the four pieces.
#[tactic(auto, using(crate::proofs::AuditLemmas::fails_in, crate::proofs::CountLemmas::cycles_few))]
fn verdict_on(
    alloc: Global,
    before: &[u8],
    trace: &[u8],
    after: &[u8],
    report: &[u8],
) -> Result<Verdict, OutOfMemory>
    requires trace { length trace.now ≤ largest_trace }
    requires report { length report.now ≤ largest_trace }
    ensures { IfOk result (IsVerdict before.now trace.now after.now report.now) }
{
    let Some(from) = image_view(alloc, before)? else {
        return Ok(Verdict::Differs(Difference::Before));
    };
    let cycles = match read(alloc, trace) {
        Ok(cycles) => cycles,
        Err(ReadRefused::Trace(refused)) => {
            return Ok(Verdict::Differs(Difference::Trace { row: refused.row }));
        }
        Err(ReadRefused::OutOfMemory) => return Err(OutOfMemory),
    };
    let found = stops_in(&cycles);
    if found > MOST_STOPS {
        return Ok(Verdict::Differs(Difference::Stops { found }));
    }
    let Some(to) = image_view(alloc, after)? else {
        return Ok(Verdict::Differs(Difference::After));
    };
    compare_runs(alloc, report, &cycles, from, &to)
}

/// Whether the image after and the report come from the image before and the trace.
pub fn audit(
    alloc: Global,
    before: &[u8],
    trace: &[u8],
    after: &[u8],
    report: &[u8],
) -> Result<Verdict, OutOfMemory>
    requires trace { length trace.now ≤ largest_trace }
    requires report { length report.now ≤ largest_trace }
    ensures says { IfOk result (IsVerdict before.now trace.now after.now report.now) }
    // There is one verdict, so what is one is answered, unless memory runs out.
    ensures only { (v : Verdict) → IsVerdict before.now trace.now after.now report.now v → IfOk result (λ w. w ≡ v) }
{
    verdict_on(alloc, before, trace, after, report)
}
