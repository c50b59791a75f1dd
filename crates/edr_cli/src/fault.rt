//! Why a call ends without what was asked of it: the line that tells it, and the status.
ghost use Rattle.std.specs.Prelude.{◌≡◌, ◌+◌, ◌≤◌, ◌++◌, length};
ghost use Rattle.arrayvec.specs.ArrayString.{array_string_len};
ghost use Rattle.edr_cli.specs.Faults.{trace_words, old_words, fault_words, fault_line, status_of};

use crate::status::Status;
use edr_banks::{FormatFault, OpenFault};
use edr_cycle::StartFault;
use edr_device::{Failed, TakeFault};
use edr_fleet::FleetRefused;
use edr_image::{HeaderRefused, OldRefused};
use edr_migrate::MigrateFault;
use edr_report::{Room, ShortLine, push_header_refused, push_number, push_short, push_signed};
use edr_spell::{TraceFault, TraceRefused, Word};
use edr_trace::ReadRefused;
use std::alloc::AllocError;

/// Why a call ends without what was asked of it.
#[derive(Clone, Copy, Debug, PartialEq, Eq)]
pub enum Fault {
    /// The words of the command line are none that it serves.
    Usage,
    /// The bytes are no trace.
    Trace(TraceRefused),
    /// The source failed.
    Read,
    /// The memory of the records failed.
    Store,
    /// The memory has fewer bytes than the image needs.
    Short { size: u32, needed: u32 },
    /// The image has no header that the program reads.
    Header(HeaderRefused),
    /// The image that was to be formatted is formatted.
    Formatted,
    /// No ignition cycle is left to count.
    Spent,
    OutOfMemory,
    /// The source gave more bytes than a trace may have.
    TooLong,
    /// The old image that the source gave is refused.
    Old(OldRefused),
    /// The bytes that the source gave end inside the frame that begins at this offset.
    Fleet { offset: u32 },
}

// Appends what is wrong with a row.
fn push_trace_fault(line: &mut Room, fault: TraceFault)
    requires { array_string_len line.old ≤ 40 }
    ensures bytes { line.new.bytes ≡ line.old.bytes ++ trace_words fault }
    ensures len { array_string_len line.new ≤ array_string_len line.old + 32 }
{
    match fault {
        TraceFault::Fields { found } => push_number(line, "fields ", found),
        TraceFault::Word => line.push_str("word"),
        TraceFault::Number { field } => push_number(line, "number in field ", u32::from(field)),
        TraceFault::Place => line.push_str("place"),
        TraceFault::Order { last } => push_number(line, "order after ", last),
        TraceFault::Moment { limit } => push_number(line, "moment past ", limit),
        TraceFault::Range { low, high } => {
            push_signed(line, "range ", low);
            push_signed(line, " to ", high);
        }
        TraceFault::Gap { last } => push_number(line, "gap after ", last),
        TraceFault::Skew { sensor } => {
            line.push_str("skew of ");
            line.push_str(Word::Of(sensor).spelling());
        }
        TraceFault::Unended => line.push_str("unended"),
    }
}

// Appends what is wrong with an old image.
fn push_old_refused(line: &mut Room, refused: OldRefused)
    requires { array_string_len line.old ≤ 17 }
    ensures bytes { line.new.bytes ≡ line.old.bytes ++ old_words refused }
    ensures len { array_string_len line.new ≤ array_string_len line.old + 54 }
{
    match refused {
        OldRefused::Short { size, needed } => push_short(line, size, needed),
        OldRefused::Header(refused) => push_header_refused(line, refused),
        OldRefused::Bank {
            bank,
            offset,
            found,
        } => {
            push_number(line, "bank ", u32::from(bank));
            push_number(line, " damaged at ", u32::from(offset));
            push_number(line, " found ", u32::from(found));
        }
    }
}

impl Fault {
    // Appends what went wrong.
    fn push_to(&self, line: &mut Room)
        requires { array_string_len line.old ≤ 7 }
        ensures bytes { line.new.bytes ≡ line.old.bytes ++ fault_words self.now }
        ensures len { array_string_len line.new ≤ 79 }
    {
        match self {
            Fault::Usage => line.push_str("usage"),
            Fault::Trace(refused) => {
                push_number(line, "trace row ", refused.row);
                line.push_str(": ");
                push_trace_fault(line, refused.fault);
            }
            Fault::Read => line.push_str("read fault"),
            Fault::Store => line.push_str("store fault"),
            Fault::Short { size, needed } => {
                line.push_str("image ");
                push_short(line, *size, *needed);
            }
            Fault::Header(refused) => {
                line.push_str("image ");
                push_header_refused(line, *refused);
            }
            Fault::Formatted => line.push_str("image formatted"),
            Fault::Spent => line.push_str("spent"),
            Fault::OutOfMemory => line.push_str("out of memory"),
            Fault::TooLong => line.push_str("too long"),
            Fault::Old(refused) => {
                line.push_str("old image ");
                push_old_refused(line, *refused);
            }
            Fault::Fleet { offset } => push_number(line, "fleet truncated at ", *offset),
        }
    }

    /// The line that tells of the fault. It takes no memory.
    pub fn line(&self) -> ShortLine
        ensures { result ≡ fault_line self.now }
    {
        let mut line = Room::new();
        line.push_str("fault: ");
        self.push_to(&mut line);
        line.push_str("\n");
        ShortLine::new(line)
    }

    /// The status of a call that ends with it.
    pub fn status(&self) -> Status
        ensures { result ≡ status_of self.now }
    {
        match self {
            Fault::Usage => Status::Usage,
            Fault::Trace(_) => Status::Trace,
            Fault::Read => Status::ReadFault,
            Fault::Store => Status::StoreFault,
            Fault::Short { .. } | Fault::Header(_) | Fault::Formatted => Status::Image,
            Fault::Spent => Status::Spent,
            Fault::OutOfMemory => Status::OutOfMemory,
            Fault::TooLong => Status::TooLong,
            Fault::Old(_) => Status::OldImage,
            Fault::Fleet { .. } => Status::Fleet,
        }
    }
}

// ---- the faults of what is called

impl From<AllocError> for Fault {
    ghost use Rattle.edr_cli.specs.declared.fault.Fault.TheVariants as fault;

    ghost from_gives = { λ _ f. f ≡ fault.OutOfMemory };

    fn from(_: AllocError) -> Fault {
        Fault::OutOfMemory
    }
}

/// Of a device: what a source or a sink fails is told apart before.
impl From<Failed> for Fault {
    ghost use Rattle.edr_cli.specs.declared.fault.Fault.TheVariants as fault;

    ghost from_gives = { λ _ f. f ≡ fault.Store };

    fn from(_: Failed) -> Fault {
        Fault::Store
    }
}

impl From<TakeFault> for Fault {
    ghost use Rattle.edr_cli.specs.Faults.{fault_of_take};

    ghost from_gives = { λ e f. f ≡ fault_of_take e };

    fn from(e: TakeFault) -> Fault {
        match e {
            TakeFault::Failed => Fault::Read,
            TakeFault::TooLong => Fault::TooLong,
            TakeFault::OutOfMemory => Fault::OutOfMemory,
        }
    }
}

impl From<ReadRefused> for Fault {
    ghost use Rattle.edr_cli.specs.Faults.{fault_of_read};

    ghost from_gives = { λ e f. f ≡ fault_of_read e };

    fn from(e: ReadRefused) -> Fault {
        match e {
            ReadRefused::Trace(refused) => Fault::Trace(refused),
            ReadRefused::OutOfMemory => Fault::OutOfMemory,
        }
    }
}

impl From<OpenFault> for Fault {
    ghost use Rattle.edr_cli.specs.Faults.{fault_of_open};

    ghost from_gives = { λ e f. f ≡ fault_of_open e };

    fn from(e: OpenFault) -> Fault {
        match e {
            OpenFault::Short { size, needed } => Fault::Short { size, needed },
            OpenFault::Header(refused) => Fault::Header(refused),
            OpenFault::StoreFault => Fault::Store,
            OpenFault::OutOfMemory => Fault::OutOfMemory,
        }
    }
}

impl From<FormatFault> for Fault {
    ghost use Rattle.edr_cli.specs.Faults.{fault_of_format};

    ghost from_gives = { λ e f. f ≡ fault_of_format e };

    fn from(e: FormatFault) -> Fault {
        match e {
            FormatFault::Short { size, needed } => Fault::Short { size, needed },
            FormatFault::Formatted => Fault::Formatted,
            FormatFault::StoreFault => Fault::Store,
        }
    }
}

impl From<StartFault> for Fault {
    ghost use Rattle.edr_cli.specs.Faults.{fault_of_start};

    ghost from_gives = { λ e f. f ≡ fault_of_start e };

    fn from(e: StartFault) -> Fault {
        match e {
            StartFault::Open(e) => Fault::from(e),
            StartFault::Spent => Fault::Spent,
            StartFault::StoreFault => Fault::Store,
            StartFault::OutOfMemory => Fault::OutOfMemory,
        }
    }
}

impl From<FleetRefused> for Fault {
    ghost use Rattle.edr_cli.specs.Faults.{fault_of_fleet};

    ghost from_gives = { λ e f. f ≡ fault_of_fleet e };

    fn from(e: FleetRefused) -> Fault {
        match e {
            FleetRefused::Truncated { offset } => Fault::Fleet { offset },
            FleetRefused::OutOfMemory => Fault::OutOfMemory,
        }
    }
}

impl From<OldRefused> for Fault {
    ghost use Rattle.edr_cli.specs.declared.fault.Fault.TheVariants as fault;

    ghost from_gives = { λ e f. f ≡ fault.Old e };

    fn from(e: OldRefused) -> Fault {
        Fault::Old(e)
    }
}

impl From<MigrateFault> for Fault {
    ghost use Rattle.edr_cli.specs.Faults.{fault_of_migrate};

    ghost from_gives = { λ e f. f ≡ fault_of_migrate e };

    fn from(e: MigrateFault) -> Fault {
        match e {
            MigrateFault::OldShort { size, needed } => Fault::Old(OldRefused::Short {
                size,
                needed,
            }),
            MigrateFault::OldHeader(refused) => Fault::Old(OldRefused::Header(refused)),
            MigrateFault::OldBank {
                bank,
                offset,
                found,
            } => Fault::Old(OldRefused::Bank {
                bank,
                offset,
                found,
            }),
            MigrateFault::Short { size, needed } => Fault::Short { size, needed },
            MigrateFault::Formatted => Fault::Formatted,
            MigrateFault::StoreFault => Fault::Store,
        }
    }
}
