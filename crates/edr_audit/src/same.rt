//! Whether banks in memory are those of an image, value by value.
ghost use Rattle.std.specs.Prelude.{◌≡◌, ◌↔◌, IsTrue};
ghost use Rattle.edr_audit.specs.Judged.{Fits};

use crate::branches::Branch;
use crate::views::ImageView;
use edr_image::{BankView, Header};
use edr_record::{Crash, Extreme, Key, Place, Pre, Profile, Record};

/// It is the same header.
pub fn is_same_header(a: Header, b: Header) -> bool
    ensures { IsTrue result ↔ a ≡ b }
{
    a == b
}

fn is_same_key(a: Key, b: Key) -> bool
    ensures { IsTrue result ↔ a ≡ b }
{
    a == b
}

fn is_same_place(a: Place, b: Place) -> bool
    ensures { IsTrue result ↔ a ≡ b }
{
    a == b
}

fn is_same_profile(a: Profile, b: Profile) -> bool
    ensures { IsTrue result ↔ a ≡ b }
{
    a == b
}

fn is_same_switch(a: Option<bool>, b: Option<bool>) -> bool
    ensures { IsTrue result ↔ a ≡ b }
{
    a == b
}

fn is_same_number(a: u16, b: u16) -> bool
    ensures { IsTrue result ↔ a ≡ b }
{
    a == b
}

fn is_same_extreme(a: Extreme, b: Extreme) -> bool
    ensures { IsTrue result ↔ a ≡ b }
{
    a == b
}

fn are_same_numbers(a: &[Option<u16>], b: &[Option<u16>]) -> bool
    ensures { IsTrue result ↔ a.now ≡ b.now }
{
    a == b
}

fn are_same_per_cents(a: &[Option<u8>], b: &[Option<u8>]) -> bool
    ensures { IsTrue result ↔ a.now ≡ b.now }
{
    a == b
}

fn are_same_switches(a: &[Option<bool>], b: &[Option<bool>]) -> bool
    ensures { IsTrue result ↔ a.now ≡ b.now }
{
    a == b
}

fn are_same_points(a: &[i16], b: &[i16]) -> bool
    ensures { IsTrue result ↔ a.now ≡ b.now }
{
    a == b
}

fn is_same_pre(a: &Pre, b: &Pre) -> bool
    ensures { IsTrue result ↔ a.now ≡ b.now }
{
    is_same_key(a.key, b.key)
        & is_same_place(a.place, b.place)
        & is_same_profile(a.profile(), b.profile())
        & are_same_numbers(a.speed(), b.speed())
        & are_same_per_cents(a.throttle(), b.throttle())
        & are_same_switches(a.brake(), b.brake())
        & is_same_switch(a.belt, b.belt)
        & is_same_switch(a.lamp, b.lamp)
}

fn is_same_crash(a: &Crash, b: &Crash) -> bool
    ensures { IsTrue result ↔ a.now ≡ b.now }
{
    is_same_number(a.end, b.end)
        & are_same_points(&a.along, &b.along)
        & are_same_points(&a.across, &b.across)
        & is_same_extreme(a.max_along, b.max_along)
        & is_same_extreme(a.max_across, b.max_across)
        & is_same_number(a.result_at, b.result_at)
        & is_same_number(a.missing_along, b.missing_along)
        & is_same_number(a.missing_across, b.missing_across)
        & are_same_numbers(&a.fired, &b.fired)
}

fn is_same_crash_part(a: &Option<Crash>, b: &Option<Crash>) -> bool
    ensures { IsTrue result ↔ a.now ≡ b.now }
{
    match (a, b) {
        (Some(a), Some(b)) => is_same_crash(a, b),
        (None, None) => true,
        _ => false,
    }
}

fn is_same_record(a: &Record, b: &Record) -> bool
    ensures { IsTrue result ↔ a.now ≡ b.now }
{
    a.locked == b.locked && is_same_pre(&a.pre, &b.pre) && is_same_crash_part(&a.crash, &b.crash)
}

fn is_same_view(a: &BankView, b: &BankView) -> bool
    ensures { IsTrue result ↔ a.now ≡ b.now }
{
    match (a, b) {
        (BankView::Void, BankView::Void) => true,
        (BankView::Event(a), BankView::Event(b)) => is_same_record(a, b),
        (
            BankView::Damaged {
                offset: at,
                found: byte,
                locked: is_locked,
            },
            BankView::Damaged {
                offset,
                found,
                locked,
            },
        ) => at == offset && byte == found && is_locked == locked,
        _ => false,
    }
}

fn are_same_banks(a: &[BankView], b: &[BankView]) -> bool
    ensures { IsTrue result ↔ a.now ≡ b.now }
{
    if a.len() != b.len() {
        return false;
    }
    for k in 0..a.len() {
        if !is_same_view(&a[k], &b[k]) {
            return false;
        }
    }
    true
}

/// The branch has the banks and the count of the view.
pub fn fits(branch: &Branch, to: &ImageView) -> bool
    ensures { IsTrue result ↔ Fits to.now branch.now }
{
    branch.count == to.count && are_same_banks(&branch.banks, &to.banks)
}
