//! The walk over a run and what its banks hold, which gives the lines of the report to a form.

ghost use Rattle.std.specs.Prelude.{◌≡◌, ◌∷◌, [], IfOk, OnOk, map};
ghost use Rattle.edr_image.specs.Reports.{report_of};
ghost use Rattle.edr_report.specs.Printed.{Takes, GainsLines, named_line};
ghost use Rattle.edr_report.specs.Report.{ack_line, cycle_lines, run_lines, event_lines, events_lines, found_records, damage_lines, damaged_lines, report_lines};

use crate::event_lines::{EventLine, LINES_OF_EVENT, put_value};
use crate::forms::Lines;
use crate::values::{put_applied, put_count, put_stop, yes_no};
use edr_image::{Ack, BankView, CycleReport, Found, Kind};
use edr_record::Record;
use std::alloc::{AllocError as OutOfMemory, Global};

/// Gives lines to a form. `name` and `value` are room for the parts of one line.
#[derive(Drop)]
pub struct Printer<L: Lines> {
    lines: L,
    name: String,
    value: String,
}

impl<L: Lines> Printer<L> {
    fn new(alloc: Global, lines: L) -> Printer<L>
        ensures { result.lines ≡ lines }
    {
        let name = String::new(alloc);
        let value = String::new(alloc);
        Printer { lines, name, value }
    }

    // Gives the line of block 0 whose name and value stand there.
    fn put_named(&mut self) -> Result<(), OutOfMemory>
        requires { L.ready self.old.lines }
        ensures { OnOk result (Takes L.Lines self.old.lines self.new.lines (named_line self.old ∷ [])) }
    {
        self.lines
            .line(0, self.name.as_bytes(), self.value.as_bytes())
    }

    // Gives the lines of an event.
    #[tactic(auto, unfolding(crate::specs::Report::event_lines))]
    fn put_event(&mut self, block: u64, bank: u8, event: &Record) -> Result<(), OutOfMemory>
        requires { L.ready self.old.lines }
        ensures { OnOk result (Takes L.Lines self.old.lines self.new.lines (event_lines block bank event.now)) }
    {
        let lines = LINES_OF_EVENT.as_slice();
        for (name, line) in lines {
            self.value.clear();
            put_value(&mut self.value, block, bank, event, *line)?;
            self.lines
                .line(block, name.as_bytes(), self.value.as_bytes())?;
        }
        Ok(())
    }

    // Gives the line of an acknowledged command of the cycle in this place of the run.
    fn put_ack(&mut self, place: u64, ack: &Ack) -> Result<(), OutOfMemory>
        requires { L.ready self.old.lines }
        ensures { OnOk result (Takes L.Lines self.old.lines self.new.lines (ack_line place ack.now ∷ [])) }
    {
        let kind = match ack.kind {
            Kind::Take => "take",
            Kind::Lock => "lock",
            Kind::Done => "done",
        };
        let tick = ack.tick;
        self.name.clear();
        write!(self.name, "cycle {place} {kind} at {tick}")?;
        self.value.clear();
        put_applied(&mut self.value, ack.applied)?;
        self.put_named()
    }

    // Gives the lines of the cycle in this place of the run.
    fn put_cycle(&mut self, place: u64, report: &CycleReport) -> Result<(), OutOfMemory>
        requires { L.ready self.old.lines }
        ensures { OnOk result (Takes L.Lines self.old.lines self.new.lines (cycle_lines place (report_of report.now))) }
    {
        self.name.clear();
        write!(self.name, "cycle {place}")?;
        self.value.clear();
        match report {
            CycleReport::StartStopped { call } => {
                write!(self.value, "start stopped in call {call}")?;
                self.put_named()
            }
            CycleReport::Ran {
                number,
                stopped,
                log,
            } => {
                write!(self.value, "number {number}, ")?;
                put_stop(&mut self.value, *stopped)?;
                self.put_named()?;
                let acks = log.acks();
                for ack in acks {
                    self.put_ack(place, ack)?;
                }
                Ok(())
            }
        }
    }

    // Gives the lines of the cycles of a run.
    fn put_run(&mut self, run: &[CycleReport]) -> Result<(), OutOfMemory>
        requires { L.ready self.old.lines }
        ensures { OnOk result (Takes L.Lines self.old.lines self.new.lines (run_lines 1 (map report_of run.now))) }
    {
        for (i, report) in run.iter().enumerate() {
            self.put_cycle(i as u64 + 1, report)?;
        }
        Ok(())
    }

    // Gives the lines of the events that were found.
    fn put_events(&mut self, found: &[Found]) -> Result<(), OutOfMemory>
        requires { L.ready self.old.lines }
        ensures { OnOk result (Takes L.Lines self.old.lines self.new.lines (events_lines 1 (found_records found.now))) }
    {
        let mut block = 0;
        for bank in found {
            if let BankView::Event(record) = &bank.view {
                block += 1;
                self.put_event(block, bank.bank, record)?;
            }
        }
        Ok(())
    }

    // Gives the line of a bank, if it is damaged.
    fn put_if_damaged(&mut self, bank: &Found) -> Result<(), OutOfMemory>
        requires { L.ready self.old.lines }
        ensures { OnOk result (Takes L.Lines self.old.lines self.new.lines (damaged_lines bank.now.bank bank.now.view)) }
    {
        let BankView::Damaged {
            offset,
            found,
            locked,
        } = bank.view
        else {
            return Ok(());
        };
        self.name.clear();
        write!(self.name, "bank {}", bank.bank)?;
        self.value.clear();
        let locked = yes_no(locked);
        write!(
            self.value,
            "damaged at {offset} found {found} locked {locked}"
        )?;
        self.put_named()
    }

    // Gives the lines of the damaged banks that were found.
    fn put_damaged(&mut self, found: &[Found]) -> Result<(), OutOfMemory>
        requires { L.ready self.old.lines }
        ensures { OnOk result (Takes L.Lines self.old.lines self.new.lines (damage_lines found.now)) }
    {
        for bank in found {
            self.put_if_damaged(bank)?;
        }
        Ok(())
    }
}

/// The form with all lines of a report of the cycles of a run, of what was found in the banks and of the count.
pub fn print<L: Lines + Drop>(
    alloc: Global,
    form: L,
    run: &[CycleReport],
    found: &[Found],
    count: u32,
) -> Result<L, OutOfMemory>
    requires { L.ready form }
    ensures { IfOk result (λ out. GainsLines L.Lines form out (report_lines (map report_of run.now) found.now count)) }
{
    let mut printer = Printer::new(alloc, form);
    printer.put_run(run)?;
    printer.put_events(found)?;
    printer.put_damaged(found)?;
    printer.name.clear();
    printer.name.push_str("ignition cycle, download")?;
    printer.value.clear();
    put_count(&mut printer.value, count)?;
    printer.put_named()?;
    Ok(printer.lines)
}

/// The form with all lines of the cycles of a run.
pub fn print_run<L: Lines + Drop>(
    alloc: Global,
    form: L,
    run: &[CycleReport],
) -> Result<L, OutOfMemory>
    requires { L.ready form }
    ensures { IfOk result (λ out. GainsLines L.Lines form out (run_lines 1 (map report_of run.now))) }
{
    let mut printer = Printer::new(alloc, form);
    printer.put_run(run)?;
    Ok(printer.lines)
}

/// The form with all lines of the event of this bank, which is in place `block` of the retrieved ones.
pub fn print_event<L: Lines + Drop>(
    alloc: Global,
    form: L,
    block: u64,
    bank: u8,
    event: &Record,
) -> Result<L, OutOfMemory>
    requires { L.ready form }
    ensures { IfOk result (λ out. GainsLines L.Lines form out (event_lines block bank event.now)) }
{
    let mut printer = Printer::new(alloc, form);
    printer.put_event(block, bank, event)?;
    Ok(printer.lines)
}
