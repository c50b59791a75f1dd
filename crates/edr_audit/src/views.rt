//! What the bytes of an image in memory say.
ghost use Rattle.std.specs.Prelude.{◌≡◌, ◌≤◌, ◌+◌, ◌++◌, ◌∷◌, [], IfOk, OnOk, length, take, slice_range};
ghost use Rattle.edr_image.specs.declared.places.TheConstants.{BANK_SIZE, FRONT_SIZE, MOST_BANKS};
ghost use Rattle.edr_image.specs.Banks.{events};
ghost use Rattle.edr_image.specs.Image.{banks_of, image_size, place_of, view_of};
ghost use Rattle.edr_banks.specs.Opening.{bank_in};

use crate::tail::events_in_order;
use edr_image::{BankView, Header};
use edr_layout::{
    BANK_SIZE, BankNumber, FRONT_SIZE, bank_view, image_size, read_count, read_header,
};
use edr_record::Record;
use std::alloc::{AllocError as OutOfMemory, Global};
use std::marker::Model;

/// What an image says.
#[derive(Drop)]
pub struct ImageView {
    pub header: Header,
    pub banks: Vec<BankView>,
    pub count: u32,
}

impl Model for ImageView {
    ghost use Rattle.edr_image.specs.Image.{View};

    ghost Value = { View };

    ghost use Rattle.std.specs.Prelude.{◌≤◌, length};
    ghost use Rattle.edr_image.specs.declared.places.TheConstants.{MOST_BANKS};

    ghost view = { λ v. record { store = record { header = v.header; banks = v.banks.items }; count = v.count } };

    ghost invariant = { λ v. length v.banks.items ≤ MOST_BANKS };
}

impl ImageView {
    /// The header.
    pub fn header(&self) -> Header
        ensures { result ≡ self.now.store.header }
    {
        self.header
    }

    /// The events of the banks with their numbers, in key order.
    pub fn events(&self, alloc: Global) -> Result<Vec<(u8, Record)>, OutOfMemory>
        ensures { IfOk result (λ e. e.items ≡ events self.now.store.banks) }
    {
        events_in_order(alloc, &self.banks)
    }
}

// The front of an image.
fn front_of(bytes: &[u8]) -> [u8; FRONT_SIZE]
    requires { FRONT_SIZE ≤ length bytes.now }
    ensures { result ≡ take FRONT_SIZE bytes.now }
{
    let mut front = [0; FRONT_SIZE];
    front.copy_from_slice(&bytes[..FRONT_SIZE]);
    front
}

// What a bank of an image holds.
fn bank_of(bytes: &[u8], bank: BankNumber) -> BankView
    requires { place_of bank + BANK_SIZE ≤ length bytes.now }
    ensures { result ≡ bank_in bank bytes.now }
{
    let place = bank.place() as usize;
    let mut bytes_of_bank = [0; BANK_SIZE];
    bytes_of_bank.copy_from_slice(&bytes[place..place + BANK_SIZE]);
    bank_view(&bytes_of_bank)
}

// Adds what a bank of an image holds.
fn add_bank(banks: &mut Vec<BankView>, bytes: &[u8], bank: BankNumber) -> Result<(), OutOfMemory>
    requires { place_of bank + BANK_SIZE ≤ length bytes.now }
    ensures { OnOk result (banks.new.items ≡ banks.old.items ++ bank_in bank bytes.now ∷ []) }
{
    banks.extend_from_slice(&[bank_of(bytes, bank)])?;
    Ok(())
}

// What the first banks of an image hold.
fn banks_in(alloc: Global, bytes: &[u8], count: u8) -> Result<Vec<BankView>, OutOfMemory>
    requires few { count ≤ MOST_BANKS }
    requires room { image_size count ≤ length bytes.now }
    ensures views { IfOk result (λ v. v.items ≡ banks_of count bytes.now) }
    ensures all { IfOk result (λ v. length v.items ≡ count) }
{
    let mut banks = Vec::with_capacity(alloc, usize::from(count))?;
    for k in 0..count {
        add_bank(&mut banks, bytes, BankNumber::from_index(k))?;
    }
    Ok(banks)
}

/// What an image says, if it isn't refused.
pub fn image_view(alloc: Global, bytes: &[u8]) -> Result<Option<ImageView>, OutOfMemory>
    ensures { IfOk result (λ v. v ≡ view_of bytes.now) }
{
    if bytes.len() < FRONT_SIZE {
        return Ok(None);
    }
    let first = front_of(bytes);
    let Ok(header) = read_header(&first) else {
        return Ok(None);
    };
    if bytes.len() < image_size(header.banks) as usize {
        return Ok(None);
    }
    let banks = banks_in(alloc, bytes, header.banks)?;
    Ok(Some(ImageView {
        header,
        banks,
        count: read_count(&first),
    }))
}
