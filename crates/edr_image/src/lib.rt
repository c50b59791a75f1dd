//! The types in which the banks of a recorder are spoken of, and the definitions of what is done with them.
//! The definitions stand in `specs/`.
#![tactic(auto)]

use edr_record::Record;

/// What is done with a new event where no bank is void.
#[derive(Clone, Copy, Debug, PartialEq, Eq)]
pub enum Choice {
    Keep,
    Overwrite,
}

/// How many banks the image has, and the choice that it was formatted with.
#[derive(Clone, Copy, Debug, PartialEq, Eq)]
pub struct Header {
    pub banks: u8,
    pub choice: Choice,
}

/// Why the first bytes of an image are refused.
#[derive(Clone, Copy, Debug, PartialEq, Eq)]
pub enum HeaderRefused {
    NotFormatted { offset: u32, found: u8 },
    Version { found: u16 },
    Banks { found: u8 },
    Choice { found: u8 },
}

/// What a bank holds.
#[derive(Clone, Copy, Debug, PartialEq, Eq)]
pub enum BankView {
    Void,
    Event(Record),
    Damaged {
        offset: u16,
        found: u8,
        locked: bool,
    },
}

/// A bank that is not void, by its number.
#[derive(Clone, Copy, Debug, PartialEq, Eq)]
pub struct Found {
    pub bank: u8,
    pub view: BankView,
}

/// What came of a command.
#[derive(Clone, Copy, Debug, PartialEq, Eq)]
pub enum Applied {
    Kept { bank: u8 },
    Locked { bank: u8 },
    Done { bank: u8 },
    NotKept,
}

/// Which command it was.
#[derive(Clone, Copy, Debug, PartialEq, Eq)]
pub enum Kind {
    Take,
    Lock,
    Done,
}

/// An acknowledged command: when it was issued, and what came of it.
#[derive(Clone, Copy, Debug, PartialEq, Eq)]
pub struct Ack {
    pub tick: u32,
    pub kind: Kind,
    pub applied: Applied,
}

/// Why an image is not opened.
#[derive(Clone, Copy, Debug, PartialEq, Eq)]
pub enum OpenFault {
    Short { size: u32, needed: u32 },
    Header(HeaderRefused),
    StoreFault,
    OutOfMemory,
}

/// Why an image of version 1 is not migrated.
#[derive(Clone, Copy, Debug, PartialEq, Eq)]
pub enum OldRefused {
    Short { size: u32, needed: u32 },
    Header(HeaderRefused),
    /// The lowest bank that is damaged, and where.
    Bank { bank: u8, offset: u16, found: u8 },
}

pub mod forms;
pub mod laws;
mod log;
pub mod places;

pub use log::{CycleReport, Log};
