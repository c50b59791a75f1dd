//! The banks of a recorder: they are formatted, opened, retrieved, and changed by commands so that a stop in any write
//! leaves each bank as it was or as it becomes.
//!
//! The calls of [`Banks`] stand in files of their own by subject: `new_image.rt` formats, `image_reader.rt` opens,
//! `events.rt` retrieves, and `commands.rt` applies a command, whose effect on the banks `tasks.rt` works out.
#![tactic(auto)]

ghost use Rattle.std.specs.Prelude.{◌≡◌, ◌≤◌, length};
ghost use Rattle.edr_image.specs.declared.places.TheConstants.{MOST_BANKS};
ghost use Rattle.edr_image.specs.Banks.{bank_at};

use edr_device::Failed;
use edr_layout::BankNumber;
use std::marker::Model;

mod bank_choice;
mod commands;
mod events;
mod image;
mod image_reader;
mod new_image;
mod overlay;
mod task_steps;
mod tasks;

pub use crate::image::Image;
pub use crate::overlay::lay;
pub use edr_image::{
    Ack, Applied, BankView, Choice, CycleReport, Found, Header, HeaderRefused, Kind, Log, OpenFault,
};
pub use edr_record::Command;

/// Why a command was not taken.
#[derive(Clone, Copy, Debug, PartialEq, Eq)]
pub enum ApplyFault {
    /// The device has failed.
    StoreFault,
    /// It has failed in an earlier command.
    Ended,
}

/// Why an image is not formatted.
#[derive(Clone, Copy, Debug, PartialEq, Eq)]
pub enum FormatFault {
    /// The device has fewer bytes than an image of that many banks.
    Short { size: u32, needed: u32 },
    /// The device has an image already.
    Formatted,
    /// The device has failed.
    StoreFault,
}

impl From<Failed> for FormatFault {
    ghost use Rattle.edr_banks.specs.declared.FormatFault.TheVariants as fault;

    ghost from_gives = { λ _ e. e ≡ fault.StoreFault };

    fn from(_: Failed) -> FormatFault {
        FormatFault::StoreFault
    }
}

/// The banks of an image, as they were opened and as commands have changed them since.
#[derive(Drop)]
pub struct Banks {
    header: Header,
    banks: Vec<BankView>,
    // The count of cycles that the image had.
    count: u32,
    // The bank of the event that is taken and not done.
    held: Option<BankNumber>,
    // A command has met a fault of the device.
    ended: bool,
}

impl Model for Banks {
    ghost use Rattle.edr_banks.specs.Opened.{OpenedBanks, IsOpened};

    ghost Value = { OpenedBanks };

    ghost use Rattle.edr_banks.specs.Fields.{opened_of};

    ghost view = { opened_of };

    ghost invariant = { λ b. IsOpened (opened_of b) };
}

impl Banks {
    /// The count of cycles that the image had when it was opened.
    pub fn count(&self) -> u32
        ensures { result ≡ self.now.count }
    {
        self.count
    }

    /// How many banks there are.
    pub fn banks(&self) -> u8
        ensures banks { result ≡ self.now.store.header.banks }
        ensures all { length self.now.store.banks ≡ result }
        ensures most { result ≤ MOST_BANKS }
    {
        self.header.banks
    }

    /// What a bank holds.
    pub fn view(&self, bank: u8) -> BankView
        requires { (1 ≤ bank) × (bank ≤ self.now.store.header.banks) }
        ensures { result ≡ bank_at self.now.store.banks bank }
    {
        self.banks[usize::from(bank) - 1]
    }
}
