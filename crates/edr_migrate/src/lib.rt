//! Migration: an image of version 1 becomes one of version 2 on another memory, with the same banks and the same count.
#![tactic(auto)]

ghost use Rattle.std.specs.Prelude.{◌≡◌, ◌≢◌, ◌⊎◌, ◌≤◌, ◌<◌, ℕ, List, Some, None, Ok, Err, length, IfOk, IfErr, OnOk};
ghost use Rattle.edr_device.specs.Lent.{GoesOn, LeavesMeanwhile, OnlyRead};
ghost use Rattle.edr_image.specs.declared.OldRefused.{OldRefused};
ghost use Rattle.edr_image.specs.Image.{View, not_magic, old_refusal, old_view_of};
ghost use Rattle.edr_image.specs.Kept.{AreKept};
ghost use Rattle.edr_banks.specs.Laying.{LacksMagic, LeavesSince, SettlesIn};
ghost use Rattle.edr_migrate.specs.Causes.{HasRoom, IsCause, LacksRoom, fault_of, laying_fault, new_size};
ghost use Rattle.edr_migrate.specs.Migrated.{IsWhole, migrated_of};
ghost use Rattle.edr_migrate.specs.NewBytes.{Completes, IsKeptAnew, IsMigrated, IsPartlyMigrated};
ghost use Rattle.edr_migrate.specs.OldImage.{largest_old};
ghost use Rattle.edr_migrate.specs.declared.MigrateFault.TheVariants.{Short, Formatted, StoreFault};

pub mod laws;
mod new_bytes;
mod old_image;

use crate::old_image::read_old;
use edr_banks::{FormatFault, lay};
use edr_device::Nvm;
pub use edr_image::{HeaderRefused, OldRefused};

/// What was migrated.
#[derive(Clone, Copy, Debug, PartialEq, Eq)]
pub struct Migrated {
    /// How many events the banks hold.
    pub events: u8,
    /// The count of cycles.
    pub count: u32,
}

/// Why nothing is migrated.
#[derive(Clone, Copy, Debug, PartialEq, Eq)]
pub enum MigrateFault {
    /// The old image has fewer bytes than its header, or than its banks.
    OldShort { size: u32, needed: u32 },
    /// The header of the old image is refused.
    OldHeader(HeaderRefused),
    /// A bank of the old image is damaged, and none before it.
    OldBank { bank: u8, offset: u16, found: u8 },
    /// The device has fewer bytes than an image of that many banks.
    Short { size: u32, needed: u32 },
    /// The device has an image already.
    Formatted,
    /// The device has failed.
    StoreFault,
}

impl From<OldRefused> for MigrateFault {
    ghost from_gives = { λ refused fault. fault ≡ fault_of refused };

    fn from(refused: OldRefused) -> MigrateFault {
        match refused {
            OldRefused::Short { size, needed } => MigrateFault::OldShort { size, needed },
            OldRefused::Header(refused) => MigrateFault::OldHeader(refused),
            OldRefused::Bank {
                bank,
                offset,
                found,
            } => MigrateFault::OldBank {
                bank,
                offset,
                found,
            },
        }
    }
}

impl From<FormatFault> for MigrateFault {
    ghost from_gives = { λ fault same. same ≡ laying_fault fault };

    fn from(fault: FormatFault) -> MigrateFault {
        match fault {
            FormatFault::Short { size, needed } => MigrateFault::Short { size, needed },
            FormatFault::Formatted => MigrateFault::Formatted,
            FormatFault::StoreFault => MigrateFault::StoreFault,
        }
    }
}

/// What a migration of an image of version 1 keeps, or why there is none. Bytes past the image are not read.
pub fn check(old: &[u8]) -> Result<Migrated, OldRefused>
    requires { length old.now ≤ largest_old }
    ensures passed { IfOk result (λ m. (v : View) × IsWhole old.now v × (m ≡ migrated_of v)) }
    ensures refused { IfErr result (λ e. old_refusal old.now ≡ Some e) }
    // It is refused exactly where it has no view, or a damaged bank.
    ensures whole { IfErr result (λ _. (v : View) → ¬ IsWhole old.now v) }
{
    match read_old(old) {
        Ok(image) => Ok(image.migrated()),
        Err(refused) => Err(refused),
    }
}

/// Makes an image of version 2 that says what an image of version 1 says. What the device has past it stays, and a device
/// that has an image already stays as it is. Bytes past the old image are not read.
///
/// A crash inside the call leaves the bytes as they were, or without the magic, or the new image.
pub fn migrate<N: Nvm>(nvm: &mut N, old: &[u8]) -> Result<Migrated, MigrateFault>
    requires { length old.now ≤ largest_old }
    ensures lent { GoesOn N.Nvm nvm.old nvm.new }
    ensures later { N.clock nvm.old ≤ N.clock nvm.new }
    // Each refusal exactly by its cause: the old image comes first, then the size of the device, then its magic.
    ensures old_refused { (e : OldRefused) → old_refusal old.now ≡ Some e → result ≡ Err (fault_of e) }
    ensures short { (v : View) → LacksRoom old.now (N.extent nvm.old) (new_size v) v
        → result ≡ Err (Short (N.extent nvm.old) (new_size v)) }
    ensures cause { IfErr result (IsCause old.now (N.extent nvm.old) (N.content nvm.old) (N.faults nvm.old) (N.faults nvm.new)) }
    // A refusal changes nothing; nor does a fault where the magic stands.
    ensures refused { IfErr result (λ e. e ≢ StoreFault → OnlyRead N.Nvm nvm.old nvm.new) }
    ensures magic_stays { (bytes : List ℕ) → N.content nvm.old ≡ Some bytes → not_magic bytes ≡ None
        → OnlyRead N.Nvm nvm.old nvm.new }
    ensures not_formatted { OnOk result ((bytes : List ℕ) → N.content nvm.old ≡ Some bytes → LacksMagic bytes) }
    ensures counts { IfOk result (λ m. (v : View) × HasRoom old.now (N.extent nvm.old) v × (m ≡ migrated_of v)) }
    ensures done { OnOk result ((v : View) → old_view_of old.now ≡ Some v
        → SettlesIn N.Nvm (IsMigrated v) nvm.old nvm.new) }
    // Where nothing refuses it and the device doesn't fail, it is done.
    ensures complete { (v : View) → HasRoom old.now (N.extent nvm.old) v
        → Completes N.Nvm nvm.old nvm.new (result ≡ Ok (migrated_of v)) }
    ensures any_moment { (v : View) → old_view_of old.now ≡ Some v
        → LeavesMeanwhile N.Nvm (IsPartlyMigrated v) nvm.old nvm.new }
    ensures each { (v : View) → old_view_of old.now ≡ Some v
        → LeavesSince N.Nvm (IsPartlyMigrated v) nvm.old nvm.new }
    // Where the old image was one that this program formatted, the new one is kept too.
    ensures kept { (v : View) → old_view_of old.now ≡ Some v → AreKept v.store.banks v.count
        → LeavesSince N.Nvm IsKeptAnew nvm.old nvm.new }
{
    let image = match read_old(old) {
        Ok(image) => image,
        Err(refused) => return Err(MigrateFault::from(refused)),
    };
    match lay(nvm, &image) {
        Ok(()) => Ok(image.migrated()),
        Err(fault) => Err(MigrateFault::from(fault)),
    }
}
