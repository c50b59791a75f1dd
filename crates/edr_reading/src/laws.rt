//! Laws of the definitions, each the contract of a function that does nothing.

ghost use Rattle.std.specs.Prelude.{◌≡◌, ℕ, Bool, IfSome, List, Option, length};
ghost use Rattle.edr_image.specs.{declared.Found.Found, Reports.Report};
ghost use Rattle.edr_report.specs.{Lines.table_of, Report.report_lines};
ghost use Rattle.edr_reading.specs.{declared.{reading.RowFault.RowFault, event.TheConstants.EVENT_ROWS}, Reading.{AreReport, IsFault, report_rows, FieldRows, event_fields, crash_texts, pre_texts}};
ghost use Rattle.edr_spell.specs.Spell.{RecordsOf};
ghost use Rattle.edr_record.specs.{declared.Record.Record, Bounds.IsCrash, Parts.{CrashPart, PrePart}};

/// The records of a report's table are the rows of the report.
pub fn tables_are_rows()
    ensures { (reports : List Report) (found : List Found) (n : ℕ) → RecordsOf (table_of (report_lines reports found n)) (report_rows reports found n) }
{}

/// Records that can be no report from some row on are none.
pub fn a_fault_is_of_no_report()
    ensures { (records : FieldRows) (row : ℕ) (f : RowFault) → IsFault records row f → ¬ AreReport records }
{}

/// An event has 29 rows: those of its number and its bank, 11 of what stood before time zero, 15 of what came after it, and
/// one that says whether it is complete.
pub fn an_event_has_29_rows()
    ensures rows { EVENT_ROWS ≡ 29 }
    ensures event { (block bank : ℕ) (r : Record) → length (event_fields block bank r) ≡ EVENT_ROWS }
    ensures before { (p : PrePart) (is_locked : Bool) → length (pre_texts p is_locked) ≡ 11 }
    ensures after { (c : Option CrashPart) → IfSome c IsCrash → length (crash_texts c) ≡ 15 }
{}
