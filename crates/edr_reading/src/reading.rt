//! A report's table, read back.

ghost use Rattle.std.specs.Prelude.{◌≡◌, ◌≤◌, IfOk, IfErr, map, ◌≢◌, ◌<◌, Some, MatchOption, length};
ghost use Rattle.csv.specs.Records.{fields_of, field_at};
ghost use Rattle.edr_image.specs.Reports.{report_of};
ghost use Rattle.edr_report.specs.declared.TheConstants.{LARGEST_SHOWN_COUNT};
ghost use Rattle.edr_spell.specs.Spell.{RecordsOf};
ghost use Rattle.edr_reading.specs.{Reader.{HasReadRows, IsRefusalOfRecords, IsRowRefusal}, Reading.{IsReading, OfReportRows, rows_told, fields}};

use crate::reader::{NextRow, Reader, Refused};
use csv::{ByteRecord, ReaderBuilder};
use edr_image::{CycleReport, Found};
use std::alloc::{AllocError as OutOfMemory, Global};

/// What is wrong with the first row with which a text can be no report.
#[derive(Clone, Copy, Debug, PartialEq, Eq)]
pub enum RowFault {
    /// It has that many fields in place of three.
    Fields(u32),
    /// This field, from 1, is its first with which no report goes on.
    Field(u8),
    /// It is missing: the text ends before it.
    Unended,
}

/// What a report tells.
#[derive(Drop)]
pub struct Reading {
    /// The cycles of the run, the first one first.
    pub run: Vec<CycleReport>,
    /// The events and then the damaged banks, each by the number of its bank.
    pub found: Vec<Found>,
    /// The count of ignition cycles, up to 60000.
    pub count: u32,
}

/// Why a text is not read.
#[derive(Clone, Copy, Debug, PartialEq, Eq)]
pub enum ReportRefused {
    /// It can be no report from this row on, counted from 1.
    Fault { row: u32, fault: RowFault },
    OutOfMemory,
}

// The reader of the records, up to one that it can't take, or all.
fn read_rows(alloc: Global, records: &[ByteRecord]) -> Result<Reader, ReportRefused>
    ensures read { IfOk result (λ r. HasReadRows r (map fields_of records.now)) }
    ensures fault { IfErr result (IsRowRefusal (map fields_of records.now)) }
{
    let mut reader = Reader::new(alloc);
    for record in records {
        let row = reader.rows + 1;
        let Some(fields) = row_of(record) else {
            let fault = RowFault::Fields(record.len().min(u32::MAX as usize) as u32);
            return Err(ReportRefused::Fault { row, fault });
        };
        match reader.take(alloc, &fields) {
            Ok(()) => {}
            Err(Refused::Field(field)) => {
                let fault = RowFault::Field(field);
                return Err(ReportRefused::Fault { row, fault });
            }
            Err(Refused::OutOfMemory) => return Err(ReportRefused::OutOfMemory),
        }
    }
    Ok(reader)
}

/// Reads the table of a report back. What is read has exactly the rows that the text has: the cycles, each event with all
/// its elements, the damaged banks and the count. A text is refused only where it has the rows of no report: a bank told
/// twice, a row left out or one too many, a value that can't be. What a report shows and doesn't tell exactly is read as
/// its plainest value: 60000 for a greater count, and the time between two events in tenths of a second.
///
/// # Errors
/// `Fault` with the first row with which the text can be no report, however it goes on, and the first field of that row
/// with which it can't; or how many fields the row has in place of three; or that it is missing. `OutOfMemory` where memory
/// runs out before that is known.
pub fn read(alloc: Global, bytes: &[u8]) -> Result<Reading, ReportRefused>
    ensures read { IfOk result (λ r. RecordsOf bytes.now (rows_told r)) }
    ensures told { IfOk result (λ r. IsReading (map report_of r.run.items) r.found.items r.count) }
    ensures count { IfOk result (λ r. r.count ≤ LARGEST_SHOWN_COUNT) }
    ensures refused { IfErr result (λ e.
        OfReportRows (RecordsOf bytes.now) (e ≡ ReportRefused.OutOfMemory)) }
    ensures fault { IfErr result (IsRefusalOfRecords bytes.now) }
{
    let records = records(alloc, bytes).or(Err(ReportRefused::OutOfMemory))?;
    let mut reader = read_rows(alloc, &records)?;
    let NextRow::Nothing { count } = reader.next else {
        return Err(ReportRefused::Fault {
            row: reader.rows + 1,
            fault: RowFault::Unended,
        });
    };
    reader.end_cycle(alloc).or(Err(ReportRefused::OutOfMemory))?;
    Ok(Reading {
        run: reader.run,
        found: reader.found,
        count,
    })
}

/// A row of a report: the number of its block, a name and a value.
#[derive(Clone, Copy)]
pub(crate) struct ReportRow<'a> {
    pub block: &'a [u8],
    pub name: &'a [u8],
    pub value: &'a [u8],
}

/// The records of the bytes, each with any number of fields.
pub(crate) fn records(alloc: Global, bytes: &[u8]) -> Result<Vec<ByteRecord>, csv::Error>
    ensures { IfOk result (λ v. RecordsOf bytes.now (map fields_of v.items)) }
{
    let reader = ReaderBuilder::new()
        .has_headers(false)
        .flexible(true)
        .from_reader(alloc, bytes);
    let mut records = Vec::new(alloc);
    for record in reader.into_byte_records() {
        if records.push(record?).is_err() {
            return Err(csv::Error::out_of_memory());
        }
    }
    Ok(records)
}

/// The row of a record, if it has three fields.
pub(crate) fn row_of(found: &ByteRecord) -> Option<ReportRow<'_>>
    ensures { MatchOption result (length (fields_of found.now) ≢ 3) (λ r. fields r ≡ fields_of found.now) }
{
    if found.len() != 3 {
        return None;
    }
    Some(ReportRow {
        block: found.get(0)?,
        name: found.get(1)?,
        value: found.get(2)?,
    })
}
