//! Several steps on one bank, one after the other.
ghost use Rattle.std.specs.Prelude.{◌+◌, ◌≤◌, [], ◌∷◌};
ghost use Rattle.edr_image.specs.declared.places.TheConstants.{BANK_SIZE};
ghost use Rattle.edr_image.specs.Image.{place_of};
ghost use Rattle.edr_image.specs.Steps.{Erase, Fill, Lock};
ghost use Rattle.edr_gates.specs.Taken.{TakesSteps};

use crate::steps::{erase, fill, lock};
use edr_device::{Failed, Nvm};
use edr_layout::BankNumber;
use edr_record::Pre;

/// Puts a new event in the place of one that may go.
pub fn replace<N: Nvm>(nvm: &mut N, bank: BankNumber, pre: &Pre) -> Result<(), Failed>
    requires { place_of bank + BANK_SIZE ≤ N.extent nvm.old }
    ensures { TakesSteps N.Nvm (Erase bank ∷ Fill bank pre.now ∷ []) nvm.old nvm.new result }
{
    erase(nvm, bank)?;
    fill(nvm, bank, pre)
}

// Puts a new event into a void bank, and locks it.
fn fill_locked<N: Nvm>(nvm: &mut N, bank: BankNumber, pre: &Pre) -> Result<(), Failed>
    requires { place_of bank + BANK_SIZE ≤ N.extent nvm.old }
    ensures { TakesSteps N.Nvm (Fill bank pre.now ∷ Lock bank ∷ []) nvm.old nvm.new result }
{
    fill(nvm, bank, pre)?;
    lock(nvm, bank)
}

/// Puts a new event, locked, in the place of one that may go.
pub fn replace_locked<N: Nvm>(nvm: &mut N, bank: BankNumber, pre: &Pre) -> Result<(), Failed>
    requires { place_of bank + BANK_SIZE ≤ N.extent nvm.old }
    ensures { TakesSteps N.Nvm (Erase bank ∷ Fill bank pre.now ∷ Lock bank ∷ []) nvm.old nvm.new result }
{
    erase(nvm, bank)?;
    fill_locked(nvm, bank, pre)
}
