//! The report of a run: every element of each record, as text and as a table.
//!
//! A report is a list of lines, each with the number of its block, a name and a value. Block 0 has what is told of the
//! run, of damaged banks and of the count of ignition cycles; the blocks from 1 on have an event each. The lines and the
//! bytes of both forms are defined in `specs/`.
#![tactic(auto)]

mod event_lines;
mod forms;
mod printer;
mod short_lines;
mod values;

ghost use Rattle.std.specs.Prelude.{◌≡◌, IfOk, map};
ghost use Rattle.edr_image.specs.Reports.{report_of};
ghost use Rattle.edr_report.specs.Lines.{text_of, table_of};
ghost use Rattle.edr_report.specs.Report.{report_lines};
ghost use Rattle.edr_report.specs.Words.{number_shown, tenths_of};

use csv::WriterBuilder;
use edr_image::{CycleReport, Found};
pub use event_lines::{CrashLine, EventLine, LINES_OF_EVENT, PreLine, Restraint};
pub use forms::Lines;
use printer::print;
pub use printer::{print_event, print_run};
pub use short_lines::{
    Room, ShortLine, format_line, live_line, migrate_line, push_header_refused, push_number,
    push_short, push_signed,
};
use std::alloc::{AllocError as OutOfMemory, Global};

/// Counts of ignition cycles are shown up to this number.
pub const LARGEST_SHOWN_COUNT: u32 = 60_000;

/// A count of ignition cycles as it is shown.
#[inline]
pub fn number_shown(count: u32) -> u32
    ensures { result ≡ number_shown count }
{
    count.min(LARGEST_SHOWN_COUNT)
}

/// Milliseconds as tenths of a second, rounded half up.
#[inline]
pub fn tenths_of(time: u32) -> u64
    ensures { result ≡ tenths_of time }
{
    (u64::from(time) + 50) / 100
}

/// A count of ignition cycles is shown up to 60,000.
pub fn counts_are_shown_up_to_60000()
    ensures { LARGEST_SHOWN_COUNT ≡ 60_000 }
{}

/// The report of the cycles of a run, of what was found in the banks in this order, and of the count of ignition
/// cycles, as text: `name: value` and a line feed for each line.
pub fn text(
    alloc: Global,
    run: &[CycleReport],
    found: &[Found],
    count: u32,
) -> Result<Vec<u8>, OutOfMemory>
    ensures { IfOk result (λ out. out.items ≡ text_of (report_lines (map report_of run.now) found.now count)) }
{
    print(alloc, Vec::new(alloc), run, found, count)
}

/// The same report as comma-separated values: the record `block,name,value`, and then a record for each line. A field
/// is quoted only where it needs it, and each record ends with a line feed.
pub fn table(
    alloc: Global,
    run: &[CycleReport],
    found: &[Found],
    count: u32,
) -> Result<Vec<u8>, OutOfMemory>
    ensures { IfOk result (λ out. out.items ≡ table_of (report_lines (map report_of run.now) found.now count)) }
{
    let mut writer = WriterBuilder::new().from_writer(Vec::new(alloc));
    let head: [&[u8]; 3] = [b"block", b"name", b"value"];
    writer.write_fields(&head).map_err(|_| OutOfMemory)?;
    let printed = print(alloc, writer, run, found, count)?;
    printed.into_inner().map_err(|_| OutOfMemory)
}
