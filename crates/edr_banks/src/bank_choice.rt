//! Which bank a new event takes.
ghost use Rattle.edr_banks.specs.Lesser.{is_first, is_free, referred_event};
ghost use Rattle.std.specs.Prelude.{◌≡◌, ◌&&◌, ◌≤◌, ◌<◌, length, position, IfSome};
ghost use Rattle.edr_image.specs.declared.places.TheConstants.{MOST_BANKS};
ghost use Rattle.edr_image.specs.Banks.{comes_before, is_void, least_unlocked, lowest_void};

use crate::BankView;
use edr_layout::BankNumber;
use edr_record::Record;

/// Key order: by cycle, then time zero, then bank number.
pub(crate) fn comes_before(bank: u8, event: &Record, other: u8, later: &Record) -> bool
    ensures { result ≡ comes_before (bank, event.now) (other, later.now) }
{
    let k = event.pre.key;
    let l = later.pre.key;
    k.cycle < l.cycle || k.cycle == l.cycle && (k.zero < l.zero || k.zero == l.zero && bank < other)
}

// The place of the first void bank.
fn first_void(banks: &[BankView]) -> Option<usize>
    ensures place { result ≡ position is_void banks.now }
    ensures within { IfSome result (λ k. k < length banks.now) }
{
    banks.iter().position(|b| matches!(b, BankView::Void))
}

/// The lowest void bank.
#[tactic(auto, using(crate::proofs::KeyOrderLemmas::lowest_void_is), unfolding(edr_image::specs::Banks::lowest_void))]
pub(crate) fn lowest_void(banks: &[BankView]) -> Option<BankNumber>
    requires { length banks.now ≤ MOST_BANKS }
    ensures { result ≡ lowest_void banks.now }
{
    first_void(banks).map(|place| BankNumber::from_index(place as u8))
}

// The event isn't locked, and comes before the other, if there is one.
fn is_lesser(bank: u8, event: &Record, other: Option<(u8, &Record)>) -> bool
    ensures { result ≡ (is_free (bank, event.now) && is_first (bank, event.now) (referred_event other.entry)) }
{
    !event.locked && other.is_none_or(|(m, later)| comes_before(bank, event, m, later))
}

// The number of the unlocked event bank of least key.
#[tactic(auto, using(crate::proofs::LeastKeyLemmas::least_more), unfolding(edr_image::specs::Banks::least_unlocked, edr_image::specs::Banks::events))]
fn least_number(banks: &[BankView]) -> Option<u8>
    requires { length banks.now ≤ MOST_BANKS }
    ensures { result ≡ least_unlocked banks.now }
{
    let mut least: Option<(u8, &Record)> = None;
    for k in (0..banks.len()).rev() {
        if let BankView::Event(record) = &banks[k] {
            let bank = k as u8 + 1;
            if is_lesser(bank, record, least) {
                least = Some((bank, record));
            }
        }
    }
    least.map(|event| event.0)
}

/// The unlocked event bank of least key.
#[tactic(auto, using(crate::proofs::KeyOrderLemmas::least_is_number))]
pub(crate) fn least_unlocked(banks: &[BankView]) -> Option<BankNumber>
    requires { length banks.now ≤ MOST_BANKS }
    ensures { result ≡ least_unlocked banks.now }
{
    let number = least_number(banks)?;
    Some(BankNumber::from_index(number - 1))
}
