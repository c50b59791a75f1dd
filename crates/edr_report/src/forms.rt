//! The two forms of a report: lines of text, and the records of a table.

ghost use Rattle.std.specs.Prelude.{◌≡◌, ◌++◌, OnOk};
ghost use Rattle.edr_report.specs.Lines.{line, text_line, table_row, table_bytes, IsReadyForRecord};

use csv::Writer;
use edr_text::put_line;
use itoa::Buffer;
use std::alloc::AllocError as OutOfMemory;

/// A form that takes the lines of a report one after the other. It is of no use after a line that it did not take.
pub trait Lines {
    ghost use Rattle.std.specs.Prelude.{ℕ, List};
    ghost use Rattle.edr_report.specs.Lines.{Line};

    // It can take a line; the bytes so far; what a line adds to them.
    ghost ready: { Self → Type 0 };

    ghost bytes: { Self → List ℕ };

    ghost form: { Line → List ℕ };

    /// Appends a line.
    fn line(&mut self, block: u64, name: &[u8], value: &[u8]) -> Result<(), OutOfMemory>
        requires { ready self.old }
        ensures ready { OnOk result (ready self.new) }
        ensures bytes { OnOk result (bytes self.new ≡ bytes self.old ++ form (line block name.now value.now)) };
}

/// Lines of text.
impl Lines for Vec<u8> {
    ghost ready = { λ _. Unit {0} };

    ghost bytes = { λ text. text.items };

    ghost form = { text_line };

    fn line(&mut self, _block: u64, name: &[u8], value: &[u8]) -> Result<(), OutOfMemory> {
        put_line(self, name, value)
    }
}

/// Records of a table. A writer over a vector fails only for want of memory.
impl Lines for Writer<Vec<u8>> {
    ghost ready = { IsReadyForRecord };

    ghost bytes = { table_bytes };

    ghost form = { table_row };

    fn line(&mut self, block: u64, name: &[u8], value: &[u8]) -> Result<(), OutOfMemory> {
        let mut number = Buffer::new();
        let fields = [number.format(block).as_bytes(), name, value];
        self.write_fields(&fields).map_err(|_| OutOfMemory)
    }
}
