//! Where things stand in an image, as bytes that are read and written: its front with the header and the two slots of its
//! count, and its banks with their gates and parts. The places have their names in `edr_image::places`. Images of version 1
//! are only read.
#![tactic(auto)]

ghost use Rattle.std.specs.Prelude.{◌≡◌, ◌≤◌, ◌<◌, ◌^◌};
ghost use Rattle.edr_image.specs.declared.places.TheConstants.{MOST_BANKS};
ghost use Rattle.edr_image.specs.Image.{image_size, place_of, size_by};

use edr_image::forms::{Layout, VERSION_2};

mod bank;
mod bank_number;
mod front;
mod old;
mod writes;

pub use crate::bank::bank_view;
pub use crate::bank_number::BankNumber;
pub use crate::front::{
    MAGIC, is_open, new_front, not_magic, older_slot, place_of_slot, read_count, read_header,
};
pub use crate::old::{old_bank_view, old_image_size, old_place_of, read_old_header};
pub use crate::writes::{
    ByteWrite, Gated, closing_write, count_writes, done_writes, erase_write, fill_writes,
    lock_write,
};
pub use edr_image::forms::OLD_BANK_SIZE;
pub use edr_image::places::{BANK_SIZE, FEWEST_BANKS, FRONT_SIZE, MOST_BANKS, OPEN_GATE};
pub use edr_image::{Choice, Header, HeaderRefused};

// How many bytes an image of a layout with so many banks has. There begins the bank after these.
fn size_by(layout: &Layout, banks: u8) -> u32
    requires few { layout.now.bank < 2 ^ 16 }
    ensures { result ≡ size_by layout.now banks }
{
    FRONT_SIZE as u32 + layout.bank as u32 * u32::from(banks)
}

/// Where a bank begins in the image. Banks are numbered from 1.
pub fn place_of(bank: u8) -> u32
    requires from { 1 ≤ bank }
    requires to { bank ≤ MOST_BANKS }
    ensures { result ≡ place_of bank }
{
    size_by(&VERSION_2, bank - 1)
}

/// How many bytes an image with that many banks has.
pub fn image_size(banks: u8) -> u32
    ensures { result ≡ image_size banks }
{
    size_by(&VERSION_2, banks)
}
