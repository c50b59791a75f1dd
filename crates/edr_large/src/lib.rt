//! A large run: the cycles of a generated trace over 16 void banks, without a power cut, and what it came to in eight
//! numbers.
#![tactic(auto)]

mod counts;
mod lines;
mod rows;
mod runs;

ghost use Rattle.std.specs.Prelude.{IfOk};
ghost use Rattle.edr_large.specs.Large.{IsCounted, AreLinesOf};

pub use counts::Counts;
use counts::counts_of;
pub use lines::text;
use runs::{found_in, run_cycles};
use std::alloc::{AllocError as OutOfMemory, Global};

/// Runs that many cycles of the number, each to its end, and counts. The trace of the number is not written for it.
pub fn count(alloc: Global, number: u64, cycles: u32) -> Result<Counts, OutOfMemory>
    ensures { IfOk result (IsCounted number cycles) }
{
    let run = run_cycles(alloc, number, cycles)?;
    let found = found_in(alloc, run.image)?;
    Ok(counts_of(cycles, run.rows, &run.acks, &found))
}

/// Runs them so, and tells of the counts in eight lines.
pub fn large_lines(alloc: Global, number: u64, cycles: u32) -> Result<Vec<u8>, OutOfMemory>
    ensures { IfOk result (λ lines. AreLinesOf number cycles lines.items) }
{
    let counts = count(alloc, number, cycles)?;
    text(alloc, &counts)
}
