//! What the bytes of a bank say.
ghost use Rattle.std.specs.Prelude.{◌≡◌, Some, None, IfOk, IfErr, OnOk, length, slice_index};
ghost use Rattle.edr_image.specs.declared.places.TheConstants.{PRE_PART};
ghost use Rattle.edr_image.specs.Image.{bank_damage_by, bank_view, bank_view_by, crash_place, record_by};
ghost use Rattle.edr_image.specs.PartBytes.{crash_at, crash_damage_by, pre_at_by, pre_damage_by};
ghost use Rattle.edr_layout.specs.Readable.{IsReadable};

use crate::front::is_open;
use edr_codec::{Damaged, read_crash_by, read_pre_by};
use edr_image::BankView;
use edr_image::forms::{Layout, VERSION_2};
use edr_image::places::{BANK_SIZE, DONE_GATE, EVENT_GATE, LOCK_GATE, PRE_PART};
use edr_record::{Crash, Pre, Record};

// The pre part of a bank, or the first byte of the bank with which it is none.
fn pre_of(bank: &[u8], layout: &Layout) -> Result<Pre, Damaged>
    requires layout { IsReadable layout.now }
    requires long { length bank.now ≡ layout.now.bank }
    ensures read { IfOk result (λ p. p ≡ pre_at_by layout.now.pre bank.now PRE_PART) }
    ensures whole { OnOk result (pre_damage_by layout.now.pre bank.now PRE_PART ≡ None) }
    ensures damaged { IfErr result (λ d. pre_damage_by layout.now.pre bank.now PRE_PART ≡ Some d.offset) }
    ensures found { IfErr result (λ d. d.found ≡ slice_index bank.now d.offset) }
{
    match read_pre_by(&bank[PRE_PART..layout.crash_place()], &layout.pre) {
        Ok(pre) => Ok(pre),
        Err(Damaged { offset, found }) => Err(Damaged {
            offset: PRE_PART as u16 + offset,
            found,
        }),
    }
}

// The same of its crash part.
fn crash_of(bank: &[u8], layout: &Layout) -> Result<Crash, Damaged>
    requires layout { IsReadable layout.now }
    requires long { length bank.now ≡ layout.now.bank }
    ensures read { IfOk result (λ c. c ≡ crash_at bank.now (crash_place layout.now)) }
    ensures whole { OnOk result (crash_damage_by layout.now.crash bank.now (crash_place layout.now) ≡ None) }
    ensures damaged { IfErr result (λ d. crash_damage_by layout.now.crash bank.now (crash_place layout.now) ≡ Some d.offset) }
    ensures found { IfErr result (λ d. d.found ≡ slice_index bank.now d.offset) }
{
    let place = layout.crash_place();
    match read_crash_by(&bank[place..place + layout.crash.size()], &layout.crash) {
        Ok(crash) => Ok(crash),
        Err(Damaged { offset, found }) => Err(Damaged {
            offset: place as u16 + offset,
            found,
        }),
    }
}

// The record of a bank, or the first byte with which its parts are none.
fn record_of(bank: &[u8], layout: &Layout) -> Result<Record, Damaged>
    requires layout { IsReadable layout.now }
    requires long { length bank.now ≡ layout.now.bank }
    ensures read { IfOk result (λ r. r ≡ record_by layout.now bank.now) }
    ensures whole { OnOk result (bank_damage_by layout.now bank.now ≡ None) }
    ensures damaged { IfErr result (λ d. bank_damage_by layout.now bank.now ≡ Some d.offset) }
    ensures found { IfErr result (λ d. d.found ≡ slice_index bank.now d.offset) }
{
    let pre = pre_of(bank, layout)?;
    let crash = if is_open(bank, DONE_GATE) {
        Some(crash_of(bank, layout)?)
    } else {
        None
    };
    let locked = is_open(bank, LOCK_GATE);
    Ok(Record { pre, locked, crash })
}

/// What a bank of a layout holds.
#[tactic(auto, unfolding(edr_image::specs::Image::bank_view_by))]
pub(crate) fn bank_view_by(bank: &[u8], layout: &Layout) -> BankView
    requires layout { IsReadable layout.now }
    requires long { length bank.now ≡ layout.now.bank }
    ensures { result ≡ bank_view_by layout.now bank.now }
{
    if !is_open(bank, EVENT_GATE) {
        return BankView::Void;
    }
    match record_of(bank, layout) {
        Ok(whole) => BankView::Event(whole),
        Err(Damaged { offset, found }) => BankView::Damaged {
            offset,
            found,
            locked: is_open(bank, LOCK_GATE),
        },
    }
}

/// What a bank holds.
#[tactic(auto, using(crate::proofs::ReadableLemmas::version_2_is_readable))]
pub fn bank_view(bank: &[u8; BANK_SIZE]) -> BankView
    ensures { result ≡ bank_view bank.now }
{
    bank_view_by(bank, &VERSION_2)
}
