//! Opening an image.
ghost use Rattle.std.specs.Prelude.{◌≡◌, ◌⊎◌, ◌≤◌, ◌<◌, ◌+◌, ℕ, false, None, List, Some, Err, length, slice_range, IfOk, IfErr};
ghost use Rattle.std.specs.Option.{ForSome};
ghost use Rattle.edr_device.specs.Faults.{HasCause, Rose};
ghost use Rattle.edr_device.specs.Lent.{OnlyRead};
ghost use Rattle.edr_image.specs.declared.OpenFault.TheVariants.{OutOfMemory, Short, StoreFault};
ghost use Rattle.edr_image.specs.declared.places.TheConstants.{BANK_SIZE, FEWEST_BANKS, FRONT_SIZE, MOST_BANKS};
ghost use Rattle.edr_image.specs.Image.{bank_view, banks_of, header_of, image_size, place_of};
ghost use Rattle.edr_banks.specs.Opening.{IsRefusal, RefusesRightly, TellsView, bank_in, refusal_by, view_when_opened};

use crate::{BankView, Banks, Header, OpenFault};
use edr_device::{Failed, Nvm};
use edr_layout::{
    BANK_SIZE, BankNumber, FRONT_SIZE, bank_view, image_size, read_count, read_header,
};
use std::alloc::Global;

// What a bank of the device holds.
fn read_bank<N: Nvm>(nvm: &mut N, bank: BankNumber) -> Result<BankView, Failed>
    requires { place_of bank + BANK_SIZE ≤ N.extent nvm.old }
    ensures view { IfOk result (λ v. ForSome (N.content nvm.old) (λ bytes. v ≡ bank_in bank bytes)) }
    ensures read { OnlyRead N.Nvm nvm.old nvm.new }
    ensures cause { HasCause (N.faults nvm.old) (N.faults nvm.new) result }
{
    let mut bytes = [0; BANK_SIZE];
    nvm.read(bank.place(), &mut bytes)?;
    Ok(bank_view(&bytes))
}

// What the first banks of the device hold.
fn read_banks<N: Nvm>(alloc: Global, nvm: &mut N, count: u8) -> Result<Vec<BankView>, OpenFault>
    requires few { count ≤ MOST_BANKS }
    requires room { image_size count ≤ N.extent nvm.old }
    ensures views { IfOk result (λ v.
        ForSome (N.content nvm.old) (λ bytes. v.items ≡ banks_of count bytes)) }
    ensures all { IfOk result (λ v. length v.items ≡ count) }
    ensures fault { IfErr result (λ e. (e ≡ OutOfMemory) ⊎ ((e ≡ StoreFault) × Rose (N.faults nvm.old) (N.faults nvm.new))) }
    ensures read { OnlyRead N.Nvm nvm.old nvm.new }
{
    let Ok(mut banks) = Vec::with_capacity(alloc, count as usize) else {
        return Err(OpenFault::OutOfMemory);
    };
    for k in 0..count {
        let Ok(view) = read_bank(nvm, BankNumber::from_index(k)) else {
            return Err(OpenFault::StoreFault);
        };
        banks.push_reserved(view);
    }
    Ok(banks)
}

// The header that the first bytes of an image of this size say, or why the image is refused.
#[tactic(auto, unfolding(crate::specs::Opening::refusal_by))]
fn header_by(first: &[u8; FRONT_SIZE], size: u32) -> Result<Header, OpenFault>
    ensures header { IfOk result (λ h. h ≡ header_of first.now) }
    ensures accepted { IfOk result (λ h. refusal_by first.now size ≡ None) }
    ensures within { IfOk result (λ h. (FEWEST_BANKS ≤ h.banks) × (h.banks ≤ MOST_BANKS)) }
    ensures fits { IfOk result (λ h. image_size h.banks ≤ size) }
    ensures refused { IfErr result (λ e. refusal_by first.now size ≡ Some e) }
    ensures kind { IfErr result IsRefusal }
    ensures sizes { IfErr result (λ e. (found needed : ℕ) → e ≡ Short found needed → (found ≡ size) × (found < needed)) }
{
    let header = match read_header(first) {
        Ok(header) => header,
        Err(refused) => return Err(OpenFault::Header(refused)),
    };
    let needed = image_size(header.banks);
    if size < needed {
        return Err(OpenFault::Short { size, needed });
    }
    Ok(header)
}

impl Banks {
    /// Reads the banks of an image. It makes no changing call.
    pub fn open<N: Nvm>(alloc: Global, nvm: &mut N) -> Result<Banks, OpenFault>
        ensures view { IfOk result (λ b. TellsView (N.content nvm.old) (view_when_opened b)) }
        ensures held { IfOk result (λ b. (b.held ≡ None) × (b.ended ≡ false)) }
        // The device has the bytes of so many banks, also where it tells none.
        ensures fits { IfOk result (λ b. image_size b.store.header.banks ≤ N.extent nvm.old) }
        // The cause of each refusal; and an image without one is not refused, by `view`.
        ensures refused { IfErr result (RefusesRightly (N.content nvm.old)) }
        ensures short { N.extent nvm.old < FRONT_SIZE → result ≡ Err (Short (N.extent nvm.old) FRONT_SIZE) }
        ensures sizes { IfErr result (λ e. (size needed : ℕ) → e ≡ Short size needed → (size ≡ N.extent nvm.old) × (size < needed)) }
        ensures fault { IfErr result (λ e. e ≡ StoreFault → Rose (N.faults nvm.old) (N.faults nvm.new)) }
        ensures read { OnlyRead N.Nvm nvm.old nvm.new }
    {
        let size = nvm.size();
        let least = FRONT_SIZE as u32;
        if size < least {
            return Err(OpenFault::Short {
                size,
                needed: least,
            });
        }
        let mut first = [0; FRONT_SIZE];
        if nvm.read(0, &mut first).is_err() {
            return Err(OpenFault::StoreFault);
        }
        let header = header_by(&first, size)?;
        let banks = read_banks(alloc, nvm, header.banks)?;
        Ok(Banks {
            header,
            banks,
            count: read_count(&first),
            held: None,
            ended: false,
        })
    }
}
