//! Formatting: an image with void banks and the count 0 is laid over a device.
ghost use Rattle.std.specs.Prelude.{◌≤◌, ⊤};
ghost use Rattle.edr_image.specs.declared.places.TheConstants.{FEWEST_BANKS, MOST_BANKS};
ghost use Rattle.edr_image.specs.Image.{new_image};
ghost use Rattle.edr_banks.specs.Formatting.{LaysNew, LeavesKept, new_header};

use crate::image::Image;
use crate::overlay::lay;
use crate::{Banks, Choice, FormatFault, Header};
use edr_device::Nvm;
use edr_layout::{BANK_SIZE, BankNumber, FRONT_SIZE, new_front};

// The image of a header with void banks.
#[derive(Drop)]
struct NewImage {
    header: Header,
}

impl Image for NewImage {
    ghost bytes = { λ i. new_image i.header };

    ghost bank_count = { λ i. i.header.banks };

    ghost is_told = { λ i. ⊤ };

    fn banks(&self) -> u8 {
        self.header.banks
    }

    fn front(&self) -> [u8; FRONT_SIZE] {
        new_front(self.header)
    }

    fn bank(&self, bank: BankNumber) -> [u8; BANK_SIZE] {
        // The proof learns here that the banks begin with 1.
        let _ = bank.get();
        [0; BANK_SIZE]
    }
}

impl Banks {
    /// Makes an image with that many void banks and the count 0. What the device has past it stays, and a device that has an
    /// image already stays as it is.
    ///
    /// A crash inside the call leaves the bytes as they were, or without the magic, or the new image.
    pub fn format<N: Nvm>(nvm: &mut N, banks: u8, choice: Choice) -> Result<(), FormatFault>
        requires from { FEWEST_BANKS ≤ banks }
        requires to { banks ≤ MOST_BANKS }
        ensures laid { LaysNew N.Nvm (new_header banks choice) nvm.old nvm.new result }
        // Where the image was one that this program formatted, so is each of these, or it has no magic.
        ensures kept { LeavesKept N.Nvm nvm.old nvm.new }
    {
        let header = Header { banks, choice };
        lay(nvm, &NewImage { header })
    }
}
