//! An image of version 1, read.
ghost use Rattle.std.specs.Prelude.{◌≡◌, ◌+◌, ◌≤◌, None, Some, IfOk, IfErr, count_by, length, slice_range};
ghost use Rattle.edr_image.specs.declared.forms.TheConstants.{OLD_BANK_SIZE, OLD_MOST_BANKS};
ghost use Rattle.edr_image.specs.declared.places.TheConstants.{FEWEST_BANKS};
ghost use Rattle.edr_image.specs.Image.{old_bank_view, old_banks_of, old_banks_refusal, old_image_size, old_place_of, old_refusal};
ghost use Rattle.edr_image.specs.Banks.{holds_event};
ghost use Rattle.edr_migrate.specs.Migrated.{migrated_of};
ghost use Rattle.edr_migrate.specs.OldImage.{IsOld, largest_old, view_in};
ghost use Rattle.edr_migrate.specs.NewBytes.{image_of};

use crate::Migrated;
use crate::new_bytes::{bank_bytes, front_bytes};
use edr_banks::Image;
use edr_image::{BankView, Header, OldRefused};
use edr_layout::{
    BANK_SIZE, BankNumber, FRONT_SIZE, OLD_BANK_SIZE, old_bank_view, old_image_size, old_place_of,
    read_count, read_old_header,
};

/// An image of version 1 without damaged banks, as what is laid over a device.
#[derive(Drop)]
pub(crate) struct OldImage<'a> {
    header: Header,
    count: u32,
    events: u8,
    // All of its bytes, and perhaps more.
    bytes: &'a [u8],
}

impl<'a> OldImage<'a> {
    /// What is migrated of it.
    pub(crate) fn migrated(&self) -> Migrated
        ensures { result ≡ (let m : Migrated = record { events = self.now.events; count = self.now.count } in m) }
    {
        Migrated {
            events: self.events,
            count: self.count,
        }
    }
}

// What a bank of an image of version 1 holds.
fn view_at(old: &[u8], bank: BankNumber) -> BankView
    requires { old_image_size bank ≤ length old.now }
    ensures { result ≡ old_bank_view (slice_range old.now (old_place_of bank) (old_place_of bank + OLD_BANK_SIZE)) }
{
    let place = old_place_of(bank.get()) as usize;
    let mut bytes = [0; OLD_BANK_SIZE];
    bytes.copy_from_slice(&old[place..place + OLD_BANK_SIZE]);
    old_bank_view(&bytes)
}

// How many events the banks hold, or the lowest that is damaged.
fn count_events(old: &[u8], banks: u8) -> Result<u8, OldRefused>
    requires to { banks ≤ OLD_MOST_BANKS }
    requires fits { old_image_size banks ≤ length old.now }
    ensures events { IfOk result (λ n. n ≡ count_by holds_event (old_banks_of banks old.now)) }
    ensures passed { IfOk result (λ _. old_banks_refusal 1 (old_banks_of banks old.now) ≡ None) }
    ensures refused { IfErr result (λ e. old_banks_refusal 1 (old_banks_of banks old.now) ≡ Some e) }
{
    let mut events = 0;
    for k in 0..banks {
        let bank = BankNumber::from_index(k);
        match view_at(old, bank) {
            BankView::Void => {}
            BankView::Event(_) => events += 1,
            BankView::Damaged { offset, found, .. } => {
                return Err(OldRefused::Bank {
                    bank: bank.get(),
                    offset,
                    found,
                });
            }
        }
    }
    Ok(events)
}

/// Reads an image of version 1: of several causes to refuse it the one that [`OldRefused`] has first, but that it is too
/// short for its banks comes after its header.
pub(crate) fn read_old(old: &[u8]) -> Result<OldImage, OldRefused>
    requires few { length old.now ≤ largest_old }
    ensures read { IfOk result (λ o. (o.bytes.now ≡ old.now) × IsOld o.header o.count o.bytes.now
        × (o.events ≡ count_by holds_event (old_banks_of o.header.banks o.bytes.now))) }
    ensures refused { IfErr result (λ e. old_refusal old.now ≡ Some e) }
{
    let size = old.len() as u32;
    if size < FRONT_SIZE as u32 {
        return Err(OldRefused::Short {
            size,
            needed: FRONT_SIZE as u32,
        });
    }
    let mut front = [0; FRONT_SIZE];
    front.copy_from_slice(&old[..FRONT_SIZE]);
    let header = match read_old_header(&front) {
        Ok(header) => header,
        Err(refused) => return Err(OldRefused::Header(refused)),
    };
    let needed = old_image_size(header.banks);
    if size < needed {
        return Err(OldRefused::Short { size, needed });
    }
    let events = count_events(old, header.banks)?;
    Ok(OldImage {
        header,
        count: read_count(&front),
        events,
        bytes: old,
    })
}

impl<'a> Image for OldImage<'a> {
    ghost bytes = { λ o. image_of (view_in o.header o.count o.bytes.now) };

    ghost bank_count = { λ o. o.header.banks };

    ghost is_told = { λ o. IsOld o.header o.count o.bytes.now };

    fn banks(&self) -> u8 {
        self.header.banks
    }

    fn front(&self) -> [u8; FRONT_SIZE] {
        front_bytes(self.header, self.count)
    }

    fn bank(&self, bank: BankNumber) -> [u8; BANK_SIZE] {
        // The proof learns here that the banks begin with 1.
        let _ = bank.get();
        bank_bytes(&view_at(self.bytes, bank))
    }
}
