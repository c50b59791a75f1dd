//! The values of a report, read back.

ghost use Rattle.std.specs.{Fmt.signed_decimal, Prelude.{◌≡◌, ◌≤◌, ◌∷◌, ◌++◌, ◌+◌, List, decimal, negsuc, ⊤, ℕ, Some, IfSome, MatchOption, codes, ◌<◌, ◌^◌}};
ghost use Rattle.edr_record.specs.{declared.TheConstants.{EARLIEST_END, GREATEST_CHANGE, RESET}, Bounds.{IsChange, IsExtreme, IsPlace, IsUpTo}};
ghost use Rattle.edr_report.specs.declared.TheConstants.{LARGEST_SHOWN_COUNT};
ghost use Rattle.edr_report.specs.Words.{applied_words, yes_no, profile_word, switch_or_none, milliseconds, firing_words, number_shown, shown_count, events_in_crash, extreme_words, missing_words, ack_words, seconds, number_or_none, stop_words};
ghost use Rattle.edr_reading.specs.Answers.{AreUpTo, EndsNumber, GivesValue, IsFromTo, Reads, ReadsFront, ReadsTwo, number_after, ReadsAfter, space_at, ReadsSlots};
ghost use Rattle.edr_reading.specs.Reading.{IsBank, IsStopCall, IsApplied, IsTick, done_in, IsPlaceLike, ReadsPlace, IsDamagedView, view_words, IsCycleRow, IsToldName, name_words, row_words};

use crate::front::{after, is_word, last_within, two_within, within, within_after};
use edr_image::places::{BANK_SIZE, MOST_BANKS};
use edr_image::{Applied, BankView, Kind};
use edr_items::LATEST_MOMENT;
use edr_record::{EARLIEST_END, Extreme, GREATEST_CHANGE, Place, Profile, RESET};
use edr_report::LARGEST_SHOWN_COUNT;

/// The number of a bank after these bytes.
pub(crate) fn bank_after(bytes: &[u8], front: &[u8]) -> Option<u8>
    ensures { Reads (number_after front.now) IsBank bytes.now result }
{
    let bank = last_within(bytes, front, 1, MOST_BANKS.into())?;
    Some(bank as u8)
}

/// A count of ignition cycles, as it is shown, which is at least `low`.
pub(crate) fn count(bytes: &[u8], low: u32) -> Option<u32>
    requires { low ≤ LARGEST_SHOWN_COUNT }
    ensures read { IfSome result (λ n. bytes.now ≡ shown_count n) }
    ensures range { IfSome result (λ n. (low ≤ n) × (n ≤ LARGEST_SHOWN_COUNT)) }
    ensures whole { (n : ℕ) → low ≤ n → bytes.now ≡ shown_count n → result ≡ Some (number_shown n) }
{
    last_within(bytes, b"", low, LARGEST_SHOWN_COUNT)
}

/// A time of `low` to `high` milliseconds.
pub(crate) fn time(bytes: &[u8], low: u32, high: u32) -> Option<u32>
    ensures { Reads milliseconds (IsFromTo low high) bytes.now result }
{
    within(bytes, b"", b" ms", low, high)
}

/// `yes` or `no`.
pub(crate) fn decision(bytes: &[u8]) -> Option<bool>
    ensures { Reads yes_no (λ _. ⊤) bytes.now result }
{
    match bytes {
        b"yes" => Some(true),
        b"no" => Some(false),
        _ => None,
    }
}

/// How far lists look back: `short` or `long`.
pub(crate) fn profile(bytes: &[u8]) -> Option<Profile>
    ensures { Reads profile_word (λ _. ⊤) bytes.now result }
{
    match bytes {
        b"short" => Some(Profile::Short),
        b"long" => Some(Profile::Long),
        _ => None,
    }
}

/// What a switch was, if that was recorded.
pub(crate) fn switch(bytes: &[u8]) -> Option<Option<bool>>
    ensures { Reads switch_or_none (λ _. ⊤) bytes.now result }
{
    match bytes {
        b"on" => Some(Some(true)),
        b"off" => Some(Some(false)),
        b"none" => Some(None),
        _ => None,
    }
}

/// When a restraint fired first, up to `latest`, if it did.
pub(crate) fn firing(bytes: &[u8], latest: u16) -> Option<Option<u16>>
    ensures { Reads firing_words (IsUpTo latest) bytes.now result }
{
    if is_word(bytes, b"none") {
        return Some(None);
    }
    let t = time(bytes, 0, u32::from(latest))?;
    Some(Some(t as u16))
}

// The number in front of the bytes with `-` before it, and what stands after it.
fn negative_in_front(bytes: &[u8]) -> Option<(i16, &[u8])>
    ensures read { IfSome result (λ p. (45 ∷ bytes.now ≡ signed_decimal p.0 ++ p.1.now) × IsChange p.0) }
    ensures whole { (k : ℕ) (more : List ℕ) → k + 1 ≤ GREATEST_CHANGE → EndsNumber more →
        bytes.now ≡ decimal (k + 1) ++ more → GivesValue (negsuc k) more result }
{
    let (n, rest) = within_after(bytes, b"", 1, GREATEST_CHANGE)?;
    Some((0 - n as i16, rest))
}

/// The change of speed in front of the bytes, and what stands after it.
pub(crate) fn change_in_front(bytes: &[u8]) -> Option<(i16, &[u8])>
    ensures { ReadsFront signed_decimal IsChange bytes.now result }
{
    match after(bytes, b"-") {
        Some(digits) => negative_in_front(digits),
        None => {
            let (n, rest) = within_after(bytes, b"", 0, GREATEST_CHANGE)?;
            Some((n as i16, rest))
        }
    }
}

/// The greatest change of an axis and its time, up to `window`.
pub(crate) fn extreme(bytes: &[u8], window: u16) -> Option<Extreme>
    ensures { Reads extreme_words (IsExtreme window) bytes.now result }
{
    let (kmh, rest) = change_in_front(bytes)?;
    let at = within(rest, b" km/h at ", b" ms", 0, u32::from(window))? as u16;
    Some(Extreme { kmh, at })
}

/// How many ticks have no sample, up to `window`.
pub(crate) fn missing(bytes: &[u8], window: u16) -> Option<(u32, u32)>
    ensures { ReadsTwo missing_words (AreUpTo window) bytes.now result }
{
    let high = u32::from(window);
    two_within(bytes, b" longitudinal, ", b" lateral", high)
}

// Tenths of a second, up to 5 s.
fn tenths(bytes: &[u8]) -> Option<u32>
    ensures { Reads seconds (IsFromTo 0 50) bytes.now result }
{
    let (whole, tenth) = two_within(bytes, b".", b" s", 9)?;
    let tenths = 10 * whole + tenth;
    (tenths <= 50).then_some(tenths)
}

/// The place of an event in its crash, by how many events the crash has. A second one is read as plainly as it can be.
pub(crate) fn events(bytes: &[u8]) -> Option<Place>
    ensures read { IfSome result (λ p. (bytes.now ≡ events_in_crash p) × IsPlace p) }
    ensures whole { (p : Place) → bytes.now ≡ events_in_crash p → MatchOption result ⊥ (IsPlaceLike p) }
{
    match bytes {
        b"1" => Some(Place::First),
        b"2" => Some(Place::Second { after: 1 }),
        _ => None,
    }
}

/// The place of an event of which there are as many, by the time between them.
pub(crate) fn place_between(place: Place, bytes: &[u8]) -> Option<Place>
    ensures { ReadsPlace place bytes.now result }
{
    match place {
        Place::First if is_word(bytes, b"none") => Some(Place::First),
        Place::First => None,
        Place::Second { .. } => {
            let after = (100 * tenths(bytes)?).max(1);
            Some(Place::Second { after })
        }
    }
}

/// What these bytes show of a damaged bank: where it is, which byte stands there, and whether it is locked.
pub(crate) fn damage(bytes: &[u8]) -> Option<BankView>
    ensures { Reads view_words IsDamagedView bytes.now result }
{
    let (offset, rest) = within_after(bytes, b"damaged at ", 0, BANK_SIZE as u32 - 1)?;
    let (found, rest) = within_after(rest, b" found ", 0, 255)?;
    let locked = decision(after(rest, b" locked ")?)?;
    Some(BankView::Damaged {
        offset: offset as u16,
        found: found as u8,
        locked,
    })
}

// How a cycle ended.
fn stop(bytes: &[u8]) -> Option<Option<u32>>
    ensures { Reads (λ stop. codes ", " ++ stop_words stop) IsStopCall bytes.now result }
{
    if is_word(bytes, b", power off") {
        return Some(None);
    }
    let call = last_within(bytes, b", stopped in call ", 1, u32::MAX)?;
    Some(Some(call))
}

/// What came of a command of this kind.
pub(crate) fn answer(bytes: &[u8], kind: Kind) -> Option<Applied>
    ensures { Reads applied_words (IsApplied kind) bytes.now result }
{
    if is_word(bytes, b"not kept") {
        return Some(Applied::NotKept);
    }
    let bank = bank_after(bytes, b"bank ")?;
    Some(match kind {
        Kind::Take => Applied::Kept { bank },
        Kind::Lock => Applied::Locked { bank },
        Kind::Done => Applied::Done { bank },
    })
}

/// Which command of the cycle in this place was acknowledged, and when.
pub(crate) fn ack(bytes: &[u8], place: u32) -> Option<(Kind, u32)>
    ensures { ReadsTwo (ack_words place) (λ _ t. IsTick t) bytes.now result }
{
    let (_, rest) = within_after(bytes, b"cycle ", place, place)?;
    if let Some(tick) = last_within(rest, b" take at ", 1, LATEST_MOMENT) {
        return Some((Kind::Take, tick));
    }
    if let Some(tick) = last_within(rest, b" lock at ", 1, LATEST_MOMENT) {
        return Some((Kind::Lock, tick));
    }
    let tick = last_within(rest, b" done at ", 1, LATEST_MOMENT)?;
    Some((Kind::Done, tick))
}

/// What stands in one slot of a list.
pub(crate) trait SlotRead {
    // How it is spelled, and which values it may have.
    ghost words: { Self → List ℕ };

    ghost is_slot: { Self → Type 0 };

    /// The slot in front of the bytes, and what stands after it.
    fn in_front(bytes: &[u8]) -> Option<(Self, &[u8])>
        ensures { ReadsFront words is_slot bytes.now result };
}

impl SlotRead for i16 {
    ghost words = { signed_decimal };

    ghost is_slot = { IsChange };

    fn in_front(bytes: &[u8]) -> Option<(i16, &[u8])> {
        change_in_front(bytes)
    }
}

// The number in front of the bytes, up to `highest`, or that there is none, and what stands after it.
fn number_or_none(bytes: &[u8], highest: u16) -> Option<(Option<u16>, &[u8])>
    ensures { ReadsFront number_or_none (IsUpTo highest) bytes.now result }
{
    if let Some(rest) = after(bytes, b"none") {
        return Some((None, rest));
    }
    let (n, rest) = within_after(bytes, b"", 0, u32::from(highest))?;
    Some((Some(n as u16), rest))
}

impl SlotRead for Option<u16> {
    ghost words = { number_or_none };

    ghost is_slot = { IsUpTo 300 };

    fn in_front(bytes: &[u8]) -> Option<(Option<u16>, &[u8])> {
        number_or_none(bytes, 300)
    }
}

impl SlotRead for Option<u8> {
    ghost words = { number_or_none };

    ghost is_slot = { IsUpTo 100 };

    fn in_front(bytes: &[u8]) -> Option<(Option<u8>, &[u8])> {
        let (slot, rest) = number_or_none(bytes, 100)?;
        Some((slot.map(|per_cent| per_cent as u8), rest))
    }
}

impl SlotRead for Option<bool> {
    ghost words = { switch_or_none };

    ghost is_slot = { λ _. ⊤ };

    fn in_front(bytes: &[u8]) -> Option<(Option<bool>, &[u8])> {
        if let Some(rest) = after(bytes, b"on") {
            return Some((Some(true), rest));
        }
        if let Some(rest) = after(bytes, b"off") {
            return Some((Some(false), rest));
        }
        let rest = after(bytes, b"none")?;
        Some((None, rest))
    }
}

// What stands before the slot in this place.
fn space_at(place: usize) -> &'static [u8]
    ensures { result.now ≡ space_at place }
{
    if place == 0 { b"" } else { b" " }
}

/// Reads slots that are parted by one space, as many as there are, if the bytes are such slots.
pub(crate) fn read_slots<S: SlotRead + Copy>(bytes: &[u8], slots: &mut [S]) -> Option<()>
    ensures { ReadsSlots S.words S.is_slot bytes.now slots.old slots.new result }
{
    let mut rest = bytes;
    for i in 0..slots.len() {
        let (slot, more) = S::in_front(after(rest, space_at(i))?)?;
        slots[i] = slot;
        rest = more;
    }
    if rest.is_empty() { Some(()) } else { None }
}

/// What the first row of a cycle tells.
#[derive(Clone, Copy)]
pub(crate) enum CycleRow {
    /// Its start was stopped in this changing call.
    StartStopped { call: u32 },
    /// It ran with this number, and was stopped in this changing call of its commands or not at all.
    Ran { number: u32, stopped: Option<u32> },
}

/// What a name of block 0 says of its row.
#[derive(Clone, Copy)]
pub(crate) enum ToldName {
    /// It is the first of the next cycle.
    Cycle,
    /// It is that of a command that the last cycle acknowledged at this time.
    Ack { kind: Kind, tick: u32 },
    /// It is that of this bank, which is damaged.
    Bank { bank: u8 },
    /// It is that of the count of ignition cycles.
    Count,
}

/// What a name says where `cycles` cycles were told.
pub(crate) fn told_name(name: &[u8], cycles: u32) -> Option<ToldName>
    requires { cycles + 1 < 2 ^ 32 }
    ensures { Reads (name_words cycles) IsToldName name.now result }
{
    if is_word(name, b"ignition cycle, download") {
        return Some(ToldName::Count);
    }
    if let Some(bank) = bank_after(name, b"bank ") {
        return Some(ToldName::Bank { bank });
    }
    if let Some((kind, tick)) = ack(name, cycles) {
        return Some(ToldName::Ack { kind, tick });
    }
    last_within(name, b"cycle ", cycles + 1, cycles + 1)?;
    Some(ToldName::Cycle)
}

/// What the value of the first row of a cycle tells.
pub(crate) fn cycle_value(value: &[u8]) -> Option<CycleRow>
    ensures { Reads row_words IsCycleRow value.now result }
{
    if let Some(call) = last_within(value, b"start stopped in call ", 1, 6) {
        return Some(CycleRow::StartStopped { call });
    }
    let (number, rest) = within_after(value, b"number ", 1, u32::MAX)?;
    let stopped = stop(rest)?;
    Some(CycleRow::Ran { number, stopped })
}
