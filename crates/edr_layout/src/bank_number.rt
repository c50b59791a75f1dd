//! The number of a bank as a type, so that no call asks again that it is one.
ghost use Rattle.std.specs.Prelude.{◌≡◌, ◌+◌, ◌-◌, ◌≤◌, ◌<◌};
ghost use Rattle.edr_image.specs.declared.places.TheConstants.{BANK_SIZE, MOST_BANKS};
ghost use Rattle.edr_image.specs.Image.{image_size, place_of};
ghost use Rattle.edr_layout.specs.Numbers.{IsBankNumber};

use crate::place_of;
use std::marker::Model;

/// The number of a bank. Banks are numbered from 1 to 16.
#[derive(Clone, Copy, Debug, PartialEq, Eq)]
pub struct BankNumber {
    number: u8,
}

impl Model for BankNumber {
    ghost use Rattle.std.specs.Prelude.{ℕ};
    ghost use Rattle.edr_layout.specs.Numbers.{IsBankNumber};

    ghost Value = { ℕ };

    ghost view = { λ b. b.number };

    ghost inverse = { λ n. record { number = n } };

    ghost invariant = { λ b. IsBankNumber b.number };
}

impl BankNumber {
    /// The number of the bank at a place in the order of banks, which begins with 0.
    pub fn from_index(index: u8) -> BankNumber
        requires { index < MOST_BANKS }
        ensures { result ≡ index + 1 }
    {
        BankNumber { number: index + 1 }
    }

    /// The place of the bank in the order of banks, which begins with 0.
    pub fn index(self) -> usize
        ensures index { result ≡ self - 1 }
        ensures number { IsBankNumber self }
    {
        usize::from(self.number) - 1
    }

    /// The number.
    pub fn get(self) -> u8
        ensures same { result ≡ self }
        ensures number { IsBankNumber result }
    {
        self.number
    }

    /// Where the bank begins in the image.
    pub fn place(self) -> u32
        ensures place { result ≡ place_of self }
        ensures within { result + BANK_SIZE ≤ image_size MOST_BANKS }
    {
        place_of(self.number)
    }
}
