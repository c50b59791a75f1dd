//! The samples of a sensor as far back as the pre-crash part of a record looks, in a ring that takes no memory once made.
#![tactic(auto)]

ghost use Rattle.std.specs.Prelude.{◌≡◌, ℕ, ◌+◌, ◌-◌, ◌^◌, ◌<◌, ◌≤◌, ◌↔◌, None, replicate, pos, ◌<ℤ◌, ◌≤ℤ◌, ◌+ℤ◌, IfOk, IsTrue, Some, List, [], ◌∷◌, ◌++◌, length, slice_get, All};
ghost use Rattle.edr_items.specs.declared.TheConstants.{LONGEST_GAP};
ghost use Rattle.edr_definitions.specs.declared.limits.TheConstants.{LONGEST_AGE};
ghost use Rattle.edr_capture.specs.declared.TheConstants.{ROOM};
ghost use Rattle.edr_record.specs.declared.TheConstants.{LONG_SLOTS, SINGLE_REACH};
ghost use Rattle.edr_items.specs.declared.Item.{Item};
ghost use Rattle.edr_items.specs.Item.{mark_of};
ghost use Rattle.edr_definitions.specs.Rings.{RisesFrom};
ghost use Rattle.edr_definitions.specs.Parts.{slot, slots_before};
ghost use Rattle.edr_items.specs.declared.Sensor.{Sensor};
ghost use Rattle.edr_capture.specs.Kept.{IsSample, IsCountBetween, IsCount, IsLastCounted};
ghost use Rattle.edr_capture.specs.Capture.{CaptureStandsFor, kept_after, slot_at};
ghost use Rattle.edr_items.specs.Sensor.{IsSlow};
ghost use Rattle.edr_capture.specs.SensorPart.{IsOfSensor, part, part_slots};

mod part;

use circular_buffer::HeapCircularBuffer;
use edr_definitions::limits::LONGEST_AGE;
use edr_items::{Item, Sensor};
use edr_record::{LONG_SLOTS, SINGLE_REACH, SLOT_STEP};
pub use part::Part;
use std::alloc::{AllocError as OutOfMemory, Global};
use std::marker::Model;

/// How many samples a capture keeps: one for each tick from 100 ms before a slot to less than 21,100 ms past it. So the slots of
/// the 20 s before time zero can still be read when samples of the second after it stand there already.
pub const ROOM: usize = 21_200;

/// The newest samples of a sensor in an ignition cycle.
#[derive(Drop)]
pub struct Capture {
    ring: HeapCircularBuffer<Item>,
}

impl Model for Capture {
    ghost use Rattle.std.specs.Prelude.{List};
    ghost use Rattle.edr_items.specs.declared.Item.{Item};

    ghost Value = { List Item };

    ghost use Rattle.edr_capture.specs.Kept.{IsRing};

    ghost view = { λ c. c.ring.items };

    ghost invariant = { λ c. IsRing c.ring };
}

impl Capture {
    /// A capture of a sensor that has given nothing yet. It takes all its memory here.
    pub fn new(alloc: Global) -> Result<Capture, OutOfMemory>
        ensures empty { IfOk result (λ c. c ≡ []) }
        ensures stands { IfOk result (λ c. CaptureStandsFor c []) }
    {
        let ring = HeapCircularBuffer::with_capacity(alloc, ROOM)?;
        Ok(Capture { ring })
    }

    /// Takes the sensor's next item, whose moment is past that of the last sample. An item without a value is not kept.
    pub fn push(&mut self, item: Item)
        requires later { mark_of self.old < item.moment }
        ensures kept { self.new ≡ kept_after self.old item }
        ensures mark { mark_of self.new ≤ item.moment }
        ensures sensor { (s : Sensor) → All (IsOfSensor s) self.old → IsOfSensor s item → All (IsOfSensor s) self.new }

        // The same of all items of the sensor.
        ensures stands { (given : List Item) → CaptureStandsFor self.old given → CaptureStandsFor self.new (given ++ item ∷ []) }
    {
        if item.value.is_some() {
            self.ring.push_back(item);
        }
    }

    /// The slot of a tick: the value of the sensor's latest sample of the 100 ms up to it, `None` where there is none. A
    /// negative tick lies before the cycle. The number of steps is logarithmic in the number of samples that are kept.
    pub fn slot(&self, at: i64) -> Option<i32>
        requires near { pos (mark_of self.now) <ℤ (at +ℤ pos (ROOM - LONGEST_AGE)) }
        ensures kept { result ≡ slot_at self.now at }

        // The same of all items of the sensor, though the oldest of them are not kept.
        ensures definition { (given : List Item) → CaptureStandsFor self.now given → result ≡ slot_at given at }
    {
        slot_of(&self.ring, at)
    }

    /// What a pre part of the time zero `zero` has of a slow sensor, whose samples these are and none of which is more than
    /// 1 s past it.
    pub fn part(&self, sensor: Sensor, zero: u32) -> Part
        requires slow { IsSlow sensor }
        requires range { All (IsOfSensor sensor) self.now }
        requires near { mark_of self.now ≤ zero + LONGEST_GAP }
        ensures kept { result ≡ part sensor self.now zero }

        // The same of all items of the sensor, though the oldest of them are not kept.
        ensures definition { (given : List Item) → CaptureStandsFor self.now given → result ≡ part sensor given zero }
    {
        Part {
            sensor,
            zero,
            slots: slots_of_part(self, sensor, zero),
        }
    }
}

// The tick `back` before that one, where ticks before the cycle count as 0.
fn tick_before(tick: u64, back: u64) -> i64
    requires { tick < 2 ^ 33 }
    ensures { result ≡ pos (tick - back) }
{
    tick.saturating_sub(back) as i64
}

// The slots at each tenth of a second from 20 s before that time zero up to it.
fn slots_before(capture: &Capture, zero: u32) -> [Option<i32>; LONG_SLOTS]
    ensures { result ≡ slots_before capture.now zero }
{
    slots_back(&capture.ring, zero)
}

// The same, from the newest back: few samples lie between a slot and the one before it. Where no sample is left, the other
// slots are absent.
fn slots_back(ring: &HeapCircularBuffer<Item>, zero: u32) -> [Option<i32>; LONG_SLOTS]
    requires rises { RisesFrom 0 ring.now.items }
    requires samples { All IsSample ring.now.items }
    ensures { result ≡ slots_before ring.now.items zero }
{
    let mut slots = [None; LONG_SLOTS];
    let mut first = first_of(ring, ring.len());
    let mut at = u64::from(zero);
    let mut left = LONG_SLOTS;
    while left > 0 {
        left -= 1;
        first = first_up_to(ring, at as i64, first);
        let Some(latest) = first.last else {
            return slots;
        };
        if is_recent(latest.moment, at as i64) {
            slots[left] = latest.value;
        }
        at = at.saturating_sub(u64::from(SLOT_STEP));
    }
    slots
}

// The slot 1 s before that time zero, in the first place.
fn slot_before(capture: &Capture, zero: u32) -> [Option<i32>; LONG_SLOTS]
    requires near { mark_of capture.now ≤ zero + LONGEST_GAP }
    ensures { result ≡ slot capture.now (zero - SINGLE_REACH) ∷ replicate (LONG_SLOTS - 1) None }
{
    let mut slots = [None; LONG_SLOTS];
    slots[0] = capture.slot(tick_before(u64::from(zero), u64::from(SINGLE_REACH)));
    slots
}

// The slots of a sensor's part.
fn slots_of_part(capture: &Capture, sensor: Sensor, zero: u32) -> [Option<i32>; LONG_SLOTS]
    requires near { mark_of capture.now ≤ zero + LONGEST_GAP }
    ensures { result ≡ part_slots sensor capture.now zero }
{
    match sensor {
        Sensor::Belt | Sensor::Lamp => slot_before(capture, zero),
        _ => slots_before(capture, zero),
    }
}

/// A capture has room for 21,200 samples.
pub fn room_is_for_21200_samples()
    ensures { ROOM ≡ 21_200 }
{}

/// Items of a sensor that are later than a time zero don't change its part.
pub fn later_items_leave_a_part()
    ensures { (s : Sensor) (xs later : List Item) (z : ℕ) → All (λ x. z < x.moment) later → part s (xs ++ later) z ≡ part s xs z }
{}

// Whether the sample in that place has a moment of at most `at`.
fn is_up_to(ring: &HeapCircularBuffer<Item>, place: usize, at: i64) -> bool
    requires { place < length ring.now.items }
    ensures { (x : Item) → slice_get ring.now.items place ≡ Some x → IsTrue result ↔ (pos x.moment ≤ℤ at) }
{
    match ring.get(place) {
        Some(sample) => i64::from(sample.moment) <= at,
        None => false,
    }
}

// How many of the samples have a moment of at most `at`, where that is no fewer than `low` and no more than `high`.
fn count_between(ring: &HeapCircularBuffer<Item>, at: i64, low: usize, high: usize) -> usize
    requires rises { RisesFrom 0 ring.now.items }
    requires between { IsCountBetween ring.now.items at low high }
    ensures { IsCount ring.now.items at result }
{
    let mut low = low;
    let mut high = high;
    while low < high {
        let middle = low + (high - low) / 2;
        if is_up_to(ring, middle, at) {
            low = middle + 1;
        } else {
            high = middle;
        }
    }
    low
}

// The same, where that is no more than `most`. The steps back grow, so that they are logarithmic in how many fewer it is.
fn count_down_to(ring: &HeapCircularBuffer<Item>, at: i64, most: usize) -> usize
    requires rises { RisesFrom 0 ring.now.items }
    requires between { IsCountBetween ring.now.items at 0 most }
    ensures { IsCount ring.now.items at result }
{
    let mut high = most;
    loop {
        let step = (most - high).max(1);
        if high < step {
            return count_between(ring, at, 0, high);
        }
        if is_up_to(ring, high - step, at) {
            return count_between(ring, at, high - step + 1, high);
        }
        high -= step;
    }
}

// So many samples from the oldest on, and the last of these.
#[derive(Clone, Copy)]
struct FirstSamples {
    count: usize,
    last: Option<Item>,
}

// So many of them.
fn first_of(ring: &HeapCircularBuffer<Item>, count: usize) -> FirstSamples
    requires { count ≤ length ring.now.items }
    ensures count { result.count ≡ count }
    ensures last { IsLastCounted ring.now.items count result.last }
{
    let last = match count {
        0 => None,
        _ => ring.get(count - 1).copied(),
    };
    FirstSamples { count, last }
}

// Whether the sample, if there is one, has a moment of at most `at`.
fn is_none_past(last: Option<Item>, at: i64) -> bool
    ensures none { last ≡ None → IsTrue result }
    ensures some { (x : Item) → last ≡ Some x → IsTrue result ↔ (pos x.moment ≤ℤ at) }
{
    match last {
        Some(latest) => i64::from(latest.moment) <= at,
        None => true,
    }
}

// Those that have a moment of at most `at`, where these are no more than `most`. Most often they are as many, or one fewer.
fn first_up_to(ring: &HeapCircularBuffer<Item>, at: i64, most: FirstSamples) -> FirstSamples
    requires rises { RisesFrom 0 ring.now.items }
    requires between { IsCountBetween ring.now.items at 0 most.count }
    requires last { IsLastCounted ring.now.items most.count most.last }
    ensures count { IsCount ring.now.items at result.count }
    ensures last { IsLastCounted ring.now.items result.count result.last }
{
    if is_none_past(most.last, at) {
        return most;
    }
    let fewer = first_of(ring, most.count - 1);
    if is_none_past(fewer.last, at) {
        return fewer;
    }
    first_of(ring, count_down_to(ring, at, fewer.count - 1))
}

// How many of the samples have a moment of at most `at`.
fn count_up_to(ring: &HeapCircularBuffer<Item>, at: i64) -> usize
    requires rises { RisesFrom 0 ring.now.items }
    ensures { IsCount ring.now.items at result }
{
    count_between(ring, at, 0, ring.len())
}

// Whether a sample of that moment counts at a tick that it is not later than.
fn is_recent(moment: u32, at: i64) -> bool
    ensures { IsTrue result ↔ (at ≤ℤ pos (moment + LONGEST_AGE)) }
{
    at <= i64::from(moment) + i64::from(LONGEST_AGE)
}

// The slot that the samples give.
fn slot_of(ring: &HeapCircularBuffer<Item>, at: i64) -> Option<i32>
    requires rises { RisesFrom 0 ring.now.items }
    requires samples { All IsSample ring.now.items }
    ensures { result ≡ slot_at ring.now.items at }
{
    let first = first_of(ring, count_up_to(ring, at));
    slot_by_last(first.count, first.last, at)
}

// The same, where that is the last of the samples that have a moment of at most `at`, and `count` of them have one.
fn slot_by_last(count: usize, last: Option<Item>, at: i64) -> Option<i32>
    ensures { (xs : List Item) → RisesFrom 0 xs → All IsSample xs → IsCount xs at count → IsLastCounted xs count last
        → result ≡ slot_at xs at }
{
    match last {
        None => None,
        Some(latest) => {
            if is_recent(latest.moment, at) {
                latest.value
            } else {
                None
            }
        }
    }
}
