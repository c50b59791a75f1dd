//! An image as it is laid over a device: its bytes piece by piece, so that no memory is taken for them.
ghost use Rattle.std.specs.Prelude.{◌≡◌, ◌+◌, ◌≤◌, ℕ, List, slice_range, take};
ghost use Rattle.edr_image.specs.declared.places.TheConstants.{BANK_SIZE, FRONT_SIZE};
ghost use Rattle.edr_image.specs.Image.{place_of};

use edr_layout::{BANK_SIZE, BankNumber, FRONT_SIZE};

/// What is laid over a device: what stands before the banks, and each bank.
pub trait Image {
    /// Its bytes.
    ghost bytes: { Self → List ℕ };

    /// How many banks it has.
    ghost bank_count: { Self → ℕ };

    /// What is so of one that can tell its bytes.
    ghost is_told: { Self → Type 0 };

    /// How many banks it has.
    fn banks(&self) -> u8
        ensures { result ≡ bank_count self.now };

    /// What stands before the banks.
    fn front(&self) -> [u8; FRONT_SIZE]
        requires { is_told self.now }
        ensures { result ≡ take FRONT_SIZE (bytes self.now) };

    /// The bytes of a bank.
    fn bank(&self, bank: BankNumber) -> [u8; BANK_SIZE]
        requires told { is_told self.now }
        requires to { bank ≤ bank_count self.now }
        ensures { result ≡ slice_range (bytes self.now) (place_of bank) (place_of bank + BANK_SIZE) };
}
