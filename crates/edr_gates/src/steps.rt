//! One step on a device. The gate of a bank is one byte, so a crash leaves it open or closed.
ghost use Rattle.std.specs.Prelude.{◌+◌, ◌≤◌, [], ◌∷◌};
ghost use Rattle.edr_image.specs.declared.places.TheConstants.{BANK_SIZE};
ghost use Rattle.edr_image.specs.Image.{place_of};
ghost use Rattle.edr_image.specs.Steps.{Done, Erase, Fill, Lock};
ghost use Rattle.edr_gates.specs.Taken.{TakesSteps};

use edr_device::{Failed, Nvm, write_gated, write_settled};
use edr_layout::{BankNumber, OPEN_GATE, done_writes, erase_write, fill_writes, lock_write};
use edr_record::{Crash, Pre};

/// Makes a bank void that holds an event.
pub fn erase<N: Nvm>(nvm: &mut N, bank: BankNumber) -> Result<(), Failed>
    requires { place_of bank + BANK_SIZE ≤ N.extent nvm.old }
    ensures { TakesSteps N.Nvm (Erase bank ∷ []) nvm.old nvm.new result }
{
    let erasing = erase_write(bank);
    write_settled(nvm, erasing.at, &[erasing.byte])
}

/// Locks an event that isn't locked.
pub fn lock<N: Nvm>(nvm: &mut N, bank: BankNumber) -> Result<(), Failed>
    requires { place_of bank + BANK_SIZE ≤ N.extent nvm.old }
    ensures { TakesSteps N.Nvm (Lock bank ∷ []) nvm.old nvm.new result }
{
    let locking = lock_write(bank);
    write_settled(nvm, locking.at, &[locking.byte])
}

/// Puts an event's pre part into a void bank, neither locked nor done.
pub fn fill<N: Nvm>(nvm: &mut N, bank: BankNumber, pre: &Pre) -> Result<(), Failed>
    requires { place_of bank + BANK_SIZE ≤ N.extent nvm.old }
    ensures { TakesSteps N.Nvm (Fill bank pre.now ∷ []) nvm.old nvm.new result }
{
    let filling = fill_writes(bank, pre);
    write_gated(nvm, filling.at, &filling.piece, filling.gate, OPEN_GATE)
}

/// Puts an event's crash part beside its pre part, where it has none.
pub fn finish<N: Nvm>(nvm: &mut N, bank: BankNumber, crash: &Crash) -> Result<(), Failed>
    requires { place_of bank + BANK_SIZE ≤ N.extent nvm.old }
    ensures { TakesSteps N.Nvm (Done bank crash.now ∷ []) nvm.old nvm.new result }
{
    let ending = done_writes(bank, crash);
    write_gated(nvm, ending.at, &ending.piece, ending.gate, OPEN_GATE)
}
