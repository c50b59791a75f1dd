//! A reader of rows: what it knows after those that it has read.

ghost use Rattle.std.specs.Prelude.{◌≡◌, ◌≢◌, ◌+◌, ◌<◌, ◌^◌, [], None, ⊤, IfErr, IfOk, IfSome, MatchBool, MatchOption, OnOk, decimal, length, map};
ghost use Rattle.edr_image.specs.Reports.{report_of};
ghost use Rattle.edr_reading.specs.{declared.event.TheConstants.EVENT_ROWS, Reading.{event_of, HasNoBank, HasNoneFree, IsBank, IsRecord, FieldRows, fields}};
ghost use Rattle.edr_reading.specs.Reader.{AtLine, HasReadRows, MayBegin, MayHaveEvent, MayTell, TakesRow, TakesNamed, cycles_read, may_ack};
ghost use Rattle.edr_reading.specs.declared.values.ToldName.TheVariants as name;

use crate::event::{EVENT_ROWS, PartEvent, event_line, free_bank, is_among, line_at, plain_pre};
use crate::front::{is_word, last_within};
use crate::reading::ReportRow;
use crate::values::{CycleRow, ToldName, answer, count, cycle_value, damage, told_name};
use edr_image::{Ack, BankView, CycleReport, Found, Kind, Log};
use edr_record::{Crash, Record};
use edr_report::LINES_OF_EVENT;
use std::alloc::{AllocError as OutOfMemory, Global};

/// A report has no more rows.
pub const MOST_ROWS: u32 = 4_294_967_294;

/// Why a row is not taken.
#[derive(Clone, Copy, Debug, PartialEq, Eq)]
pub(crate) enum Refused {
    /// No report goes on with its fields up to this one, from 1.
    Field(u8),
    OutOfMemory,
}

/// What may stand next. Where it isn't a line of an event, the count of ignition cycles may always be it.
#[derive(Clone, Copy)]
pub(crate) enum NextRow {
    /// The row that names the columns.
    Head,
    /// A cycle, a command that the last one acknowledged, an event or a damaged bank.
    Run,
    /// An event or a damaged bank.
    Events,
    /// This line of an event, of which those before it were read.
    Line { line: usize, event: PartEvent },
    /// A damaged bank.
    Damaged,
    /// Nothing: this was the count.
    Nothing { count: u32 },
}

/// What a reader knows after some rows of a report.
#[derive(Drop)]
pub(crate) struct Reader {
    /// How many rows it has read.
    pub rows: u32,
    /// The cycles but for the last one.
    pub run: Vec<CycleReport>,
    /// The first row of the last one.
    pub last: Option<CycleRow>,
    /// Which commands the last one acknowledged.
    pub acks: Vec<Ack>,
    /// The events and then the damaged banks.
    pub found: Vec<Found>,
    pub next: NextRow,
}

// A log with these acknowledgements.
fn log_of(alloc: Global, acks: &[Ack]) -> Result<Log, OutOfMemory>
    requires { length acks.now < 2 ^ 32 }
    ensures { IfOk result (λ log. log.acks ≡ acks.now) }
{
    let mut log = Log::with_room(alloc, acks.len() as u32)?;
    for ack in acks {
        log.push(*ack);
    }
    Ok(log)
}

impl Reader {
    /// A reader that has read no row.
    pub(crate) fn new(alloc: Global) -> Reader
        ensures { HasReadRows result [] }
    {
        Reader {
            rows: 0,
            run: Vec::new(alloc),
            last: None,
            acks: Vec::new(alloc),
            found: Vec::new(alloc),
            next: NextRow::Head,
        }
    }

    // How many cycles it has read.
    fn cycles(&self) -> u32
        requires few { length (cycles_read self.now) < 2 ^ 32 }
        requires first { self.now.last ≡ None → self.now.run.items ≡ [] }
        ensures { result ≡ length (cycles_read self.now) }
    {
        match self.last {
            Some(_) => self.run.len() as u32 + 1,
            None => 0,
        }
    }

    /// Adds the last cycle to the others.
    pub(crate) fn end_cycle(&mut self, alloc: Global) -> Result<(), OutOfMemory>
        requires { length self.old.acks.items < 2 ^ 32 }
        ensures run { OnOk result (map report_of self.new.run.items ≡ cycles_read self.old) }
        ensures last { OnOk result ((self.new.last ≡ None) × (self.new.acks.items ≡ [])) }
        ensures found { OnOk result (self.new.found.items ≡ self.old.found.items) }
        ensures next { OnOk result ((self.new.next ≡ self.old.next) × (self.new.rows ≡ self.old.rows)) }
    {
        match self.last {
            Some(CycleRow::StartStopped { call }) => {
                self.run.push(CycleReport::StartStopped { call })?;
            }
            Some(CycleRow::Ran { number, stopped }) => {
                let log = log_of(alloc, &self.acks)?;
                self.run.push(CycleReport::Ran {
                    number,
                    stopped,
                    log,
                })?;
            }
            None => {}
        }
        self.acks.clear();
        self.last = None;
        Ok(())
    }

    // A row of block 0 with this name may be next.
    fn may_tell(&self, name: ToldName) -> bool
        ensures { MatchBool result (MayTell self.now name) (¬ MayTell self.now name) }
    {
        let has_room = self.rows < MOST_ROWS - 1;
        let may_tell_cycle = has_room && matches!(&self.next, NextRow::Run);
        match name {
            ToldName::Cycle => may_tell_cycle,
            ToldName::Ack { .. } => may_tell_cycle
                && matches!(&self.last, Some(CycleRow::Ran { .. })),
            ToldName::Bank { bank } => has_room && !is_among(&self.found, bank),
            ToldName::Count => true,
        }
    }

    // Takes the row that names the columns.
    fn take_head(&mut self, row: &ReportRow<'_>) -> Result<(), Refused>
        requires rows { self.old.rows + 1 < 2 ^ 32 }
        requires head { self.old.next ≡ NextRow.Head }
        ensures { TakesRow (HasReadRows self.old) self.new (fields row.now) result }
    {
        if !is_word(row.block, b"block") {
            return Err(Refused::Field(1));
        }
        if !is_word(row.name, b"name") {
            return Err(Refused::Field(2));
        }
        if !is_word(row.value, b"value") {
            return Err(Refused::Field(3));
        }
        self.next = NextRow::Run;
        self.rows += 1;
        Ok(())
    }

    // Takes a row of block 0 with this name.
    fn take_named(&mut self, alloc: Global, name: ToldName, value: &[u8]) -> Result<(), Refused>
        requires acks { length self.old.acks.items < 2 ^ 32 }
        requires rows { self.old.rows + 1 < 2 ^ 32 }
        ensures { TakesNamed name value.now self.old self.new result }
    {
        match name {
            ToldName::Cycle => {
                let first = cycle_value(value).ok_or(Refused::Field(3))?;
                self.end_cycle(alloc).or(Err(Refused::OutOfMemory))?;
                self.last = Some(first);
            }
            ToldName::Ack { kind, tick } => {
                let applied = answer(value, kind).ok_or(Refused::Field(3))?;
                let ack = Ack {
                    tick,
                    kind,
                    applied,
                };
                self.acks.push(ack).or(Err(Refused::OutOfMemory))?;
            }
            ToldName::Bank { bank } => {
                let view = damage(value).ok_or(Refused::Field(3))?;
                // The prover learns here of the types of what a bank may hold.
                let _record: Option<Record> = None;
                let _crash: Option<Crash> = None;
                self.found
                    .push(Found { bank, view })
                    .or(Err(Refused::OutOfMemory))?;
                self.next = NextRow::Damaged;
            }
            ToldName::Count => {
                let count = count(value, 0).ok_or(Refused::Field(3))?;
                self.next = NextRow::Nothing { count };
            }
        }
        self.rows += 1;
        Ok(())
    }

    // Takes a row of block 0.
    fn take_told(&mut self, alloc: Global, row: &ReportRow<'_>) -> Result<(), Refused>
        requires read { (rows : FieldRows) × HasReadRows self.old rows }
        requires between { MayBegin self.old.next }
        requires block { row.now.block.now ≡ decimal 0 }
        ensures { TakesRow (HasReadRows self.old) self.new (fields row.now) result }
    {
        match told_name(row.name, self.cycles()) {
            Some(name) if self.may_tell(name) => self.take_named(alloc, name, row.value),
            _ => Err(Refused::Field(2)),
        }
    }

    // In which bank the next event may be, if there may be one.
    fn bank_of_next(&self) -> Option<u8>
        ensures read { IfSome result (λ b. IsBank b × HasNoBank self.now.found.items b × MayHaveEvent self.now) }
        ensures none { MatchOption result (MayHaveEvent self.now → HasNoneFree self.now.found.items) (λ b. ⊤) }
    {
        if self.rows > MOST_ROWS - (EVENT_ROWS as u32 + 1) {
            return None;
        }
        match self.next {
            NextRow::Run | NextRow::Events => free_bank(&self.found),
            _ => None,
        }
    }

    // The number of the block of the event that is read or is next.
    fn block(&self) -> u32
        requires { length self.now.found.items + 1 < 2 ^ 32 }
        ensures { result ≡ length self.now.found.items + 1 }
    {
        self.found.len() as u32 + 1
    }

    // Takes a row of its event's block.
    fn take_line(
        &mut self,
        line: usize,
        event: &PartEvent,
        row: &ReportRow<'_>,
    ) -> Result<(), Refused>
        requires read { (rows : FieldRows) × AtLine self.old line (event_of event.now) rows }
        requires block { row.now.block.now ≡ decimal (length self.old.found.items + 1) }
        ensures { TakesRow (AtLine self.old line (event_of event.now)) self.new (fields row.now) result }
    {
        let (name, what) = line_at(&LINES_OF_EVENT, line);
        if !is_word(row.name, name.as_bytes()) {
            return Err(Refused::Field(2));
        }
        let event = event_line(event, self.block(), &self.found, what, row.value).ok_or(
            Refused::Field(3),
        )?;
        if line + 1 < EVENT_ROWS {
            let line = line + 1;
            self.next = NextRow::Line { line, event };
        } else {
            let PartEvent { bank, record } = event;
            let view = BankView::Event(record);
            self.found
                .push(Found { bank, view })
                .or(Err(Refused::OutOfMemory))?;
            self.next = NextRow::Events;
        }
        self.rows += 1;
        Ok(())
    }

    // Takes a row of another block than 0.
    fn take_first(&mut self, row: &ReportRow<'_>) -> Result<(), Refused>
        requires read { (rows : FieldRows) × HasReadRows self.old rows }
        requires between { MayBegin self.old.next }
        requires block { row.now.block.now ≢ decimal 0 }
        ensures { TakesRow (HasReadRows self.old) self.new (fields row.now) result }
    {
        let bank = self.bank_of_next().ok_or(Refused::Field(1))?;
        let block = self.block();
        last_within(row.block, b"", block, block).ok_or(Refused::Field(1))?;
        let record = Record {
            pre: plain_pre(),
            locked: false,
            crash: None,
        };
        self.take_line(0, &PartEvent { bank, record }, row)
    }

    /// Takes one row more, or answers the first of its fields with which no report goes on.
    pub(crate) fn take(&mut self, alloc: Global, row: &ReportRow<'_>) -> Result<(), Refused>
        requires { (rows : FieldRows) × HasReadRows self.old rows }
        ensures { TakesRow (HasReadRows self.old) self.new (fields row.now) result }
    {
        match self.next {
            NextRow::Head => self.take_head(row),
            NextRow::Line { line, event } => {
                let block = self.block();
                last_within(row.block, b"", block, block).ok_or(Refused::Field(1))?;
                self.take_line(line, &event, row)
            }
            NextRow::Nothing { .. } => Err(Refused::Field(1)),
            _ if last_within(row.block, b"", 0, 0).is_some() => self.take_told(alloc, row),
            _ => self.take_first(row),
        }
    }
}
