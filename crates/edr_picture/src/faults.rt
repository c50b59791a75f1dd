//! How the program ends: its status, and the line that tells why there is no page.
ghost use Rattle.std.specs.Prelude.{◌≡◌, ◌≤◌, ◌+◌, ◌++◌};
ghost use Rattle.arrayvec.specs.ArrayString.{array_string_len};
ghost use Rattle.edr_picture.specs.Pages.{fault_line, fault_words, number_of, row_words};

use edr_reading::RowFault;
use edr_report::{Room, ShortLine, push_number};

/// Why there is no page.
#[derive(Clone, Copy, Debug, PartialEq, Eq)]
pub enum PageFault {
    /// The words on the command line are none that the program knows.
    Usage,
    /// The bytes can be no report from this row on.
    Report { row: u32, fault: RowFault },
    /// The source failed.
    Read,
    OutOfMemory,
    /// The source gave more bytes than a report may have.
    TooLong,
}

/// How the program ends.
#[derive(Clone, Copy, Debug, PartialEq, Eq)]
pub enum PageStatus {
    /// The page was written whole.
    Done,
    /// There is no page, and the line of this fault was written whole.
    Faulty(PageFault),
    /// The sink failed. It has a part of a text.
    WriteFault,
}

// Appends what is wrong with a row.
fn push_row_fault(line: &mut Room, fault: RowFault)
    requires { array_string_len line.old ≤ 40 }
    ensures bytes { line.new.bytes ≡ line.old.bytes ++ row_words fault }
    ensures len { array_string_len line.new ≤ array_string_len line.old + 18 }
{
    match fault {
        RowFault::Fields(found) => push_number(line, "fields ", found),
        RowFault::Field(field) => push_number(line, "field ", u32::from(field)),
        RowFault::Unended => line.push_str("unended"),
    }
}

impl PageFault {
    // Appends what went wrong.
    fn push_to(self, line: &mut Room)
        requires { array_string_len line.old ≤ 7 }
        ensures bytes { line.new.bytes ≡ line.old.bytes ++ fault_words self }
        ensures len { array_string_len line.new ≤ 70 }
    {
        match self {
            PageFault::Usage => {
                line.push_str("usage: edr_picture [--help|--version] < crash.csv > crash.html");
            }
            PageFault::Report { row, fault } => {
                push_number(line, "report row ", row);
                line.push_str(": ");
                push_row_fault(line, fault);
            }
            PageFault::Read => line.push_str("read fault"),
            PageFault::OutOfMemory => line.push_str("out of memory"),
            PageFault::TooLong => line.push_str("too long"),
        }
    }

    /// The line that tells of the fault. It takes no memory.
    pub fn line(self) -> ShortLine
        ensures { result ≡ fault_line self }
    {
        let mut line = Room::new();
        line.push_str("fault: ");
        self.push_to(&mut line);
        line.push_str("\n");
        ShortLine::new(line)
    }
}

impl PageStatus {
    /// The exit status: 0, or what the fault has, with the numbers of `edr`.
    pub fn code(self) -> u8
        ensures { result ≡ number_of self }
    {
        match self {
            PageStatus::Done => 0,
            PageStatus::Faulty(PageFault::Usage) => 2,
            PageStatus::Faulty(PageFault::Report { .. }) => 3,
            PageStatus::Faulty(PageFault::Read) => 4,
            PageStatus::WriteFault => 5,
            PageStatus::Faulty(PageFault::OutOfMemory) => 9,
            PageStatus::Faulty(PageFault::TooLong) => 10,
        }
    }
}
