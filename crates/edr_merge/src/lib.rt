//! The merge of the sensors: items that come in any order of sensors go in, and the rows of one tick after the
//! other come out.
#![tactic(auto)]

mod marks;
mod rings;
mod samples;

ghost use Rattle.std.specs.Prelude.{◌≡◌, ◌↔◌, ◌+◌, ◌≤◌, false, pos, ◌≤ℤ◌, IfOk, IfErr, IsOk, OnOk, OnErr, IfSome, IsTrue, unsigned_abs, unwrap_or};
ghost use Rattle.edr_items.specs.Item.{refusal_of, mark_of};
ghost use Rattle.edr_items.specs.SensorLists.{no_items, items_of};
ghost use Rattle.edr_definitions.specs.Schedule.{Progress, Give, Close, IsAllowed, after_step};
ghost use Rattle.edr_merge.specs.Marks.{first_at, mark_in};
ghost use Rattle.edr_merge.specs.Lag.{IsBelowSlow};

use edr_items::{Item, ItemRefused, LONGEST_GAP, PerSensor, Restraints, Sensor, check};
use marks::{Marks, first_at, least_slow};
use rings::Rings;
use std::alloc::{AllocError as OutOfMemory, Global};
use std::marker::Model;

/// Why a merge refuses an item.
#[derive(Clone, Copy, Debug, PartialEq, Eq)]
pub enum MergeRefused {
    /// The sensor may not give it after its last one.
    Item(ItemRefused),
    /// Its moment is more than [`LONGEST_GAP`] past the closed tick.
    Ahead { closed: u32 },
}

/// What a merge answers to the wish for the next tick.
#[derive(Clone, Copy, Debug, PartialEq, Eq)]
pub enum Next {
    /// The next tick can't be closed: this sensor may still give an item of it.
    Waiting {
        sensor: Sensor,
    },
    /// The next tick is closed. A sensor that gave no sample of it has None, and no restraint fires.
    Row {
        tick: u32,
        along: Option<i32>,
        across: Option<i32>,
        fired: Restraints,
    },
}

/// The items of a cycle's sensors on their way to rows. Each sensor gives its own items in their order; how those of
/// several come between one another is free.
///
/// All memory is taken when it is made. A call takes none and has a bounded number of steps.
#[derive(Drop)]
pub struct Merge {
    closed: u32,
    marks: Marks,
    // No sensor beside the two axes has a mark before this tick.
    slow: u32,
    rings: Rings,
}

impl Model for Merge {
    ghost use Rattle.edr_merge.specs.State.{MergeState};

    ghost Value = { MergeState };

    ghost use Rattle.edr_merge.specs.Fields.{state_of, IsSound};

    ghost view = { state_of };

    ghost invariant = { IsSound };
}

// The restraints of a sample.
fn restraints(sample: Option<i32>) -> Restraints
    requires { IfSome sample (λ v. (pos 1 ≤ℤ v) × (v ≤ℤ pos 255)) }
    ensures { result ≡ record { 0 = unsigned_abs (unwrap_or sample (pos 0)) } }
{
    match sample {
        Some(bits) => Restraints(bits as u8),
        None => Restraints(0),
    }
}

// Whether the tick comes before the marks of all sensors beside the two axes. They are compared only where the tick has come up
// to the least that they had.
#[inline(always)]
fn is_before_slow(marks: &Marks, slow: &mut u32, tick: u32) -> bool
    requires { IsBelowSlow slow.old marks.now }
    ensures answer { IsTrue result ↔ IsBelowSlow (tick + 1) marks.now }
    ensures below { IsBelowSlow slow.new marks.now }
{
    if tick < *slow {
        return true;
    }
    *slow = least_slow(marks);
    tick < *slow
}

#[tactic(auto, using(crate::proofs::LagLemmas::lag_along, crate::proofs::LagLemmas::lag_across, crate::proofs::LagLemmas::lag_none))]
// The lowest-numbered sensor whose mark is that tick. The axes may give an item each tick.
fn lagging(marks: &Marks, slow: &mut u32, tick: u32) -> Option<Sensor>
    requires { IsBelowSlow slow.old marks.now }
    ensures found { result ≡ first_at marks.now tick }
    ensures below { IsBelowSlow slow.new marks.now }
{
    if marks.along == tick {
        return Some(Sensor::Along);
    }
    if marks.across == tick {
        return Some(Sensor::Across);
    }
    if is_before_slow(marks, slow, tick) {
        return None;
    }
    first_at(marks, tick)
}

// Whether the sensor may give the item after those that it gave. Each axis, which may give one each tick, has a call of its own:
// there the range is known.
fn check_next(marks: &Marks, sensor: Sensor, item: &Item) -> Result<(), ItemRefused>
    ensures accepted { IsOk result ↔ (refusal_of sensor (mark_in sensor marks.now) item.now ≡ None) }
    ensures refused { IfErr result (λ e. refusal_of sensor (mark_in sensor marks.now) item.now ≡ Some e) }
{
    match sensor {
        Sensor::Along => check(Sensor::Along, marks.along, item),
        Sensor::Across => check(Sensor::Across, marks.across, item),
        _ => check(sensor, *marks.of(sensor), item),
    }
}

impl Merge {
    ghost use Rattle.edr_merge.specs.Answers.{give_refusal_of, next_of, AnswersRow, after_next};
    ghost use Rattle.edr_merge.specs.StandsFor.{MergeStandsFor};
    ghost use Rattle.edr_merge.specs.Still.{IsStillNext, PassesStill};

    /// A merge to which no sensor has given an item, and of which no tick is closed.
    pub fn new(alloc: Global) -> Result<Merge, OutOfMemory>
        ensures { IfOk result (λ m. MergeStandsFor m (record { given = no_items; closed = 0 })) }
    {
        Ok(Merge {
            closed: 0,
            marks: PerSensor::each(0),
            slow: 0,
            rings: Rings::new(alloc)?,
        })
    }

    /// Takes one more item of that sensor.
    ///
    /// ```
    /// let mut merge = Merge::new(alloc)?;
    /// merge.accept(Sensor::Along, Item { moment: 1, value: Some(-4000) })?;
    /// ```
    #[inline(always)]
    pub fn accept(&mut self, sensor: Sensor, item: Item) -> Result<(), MergeRefused>
        ensures ok { OnOk result ((p : Progress) → MergeStandsFor self.old p → MergeStandsFor self.new (after_step p (Give sensor item))) }
        ensures err { OnErr result (self.new ≡ self.old) }

        // An item is taken exactly where the schedule allows it.
        ensures allowed { (p : Progress) → MergeStandsFor self.old p → IsOk result ↔ IsAllowed (Give sensor item) p }
        ensures why { (p : Progress) → MergeStandsFor self.old p → IfErr result (λ e. give_refusal_of sensor item p ≡ Some e) }
    {
        if let Err(refused) = check_next(&self.marks, sensor, &item) {
            return Err(MergeRefused::Item(refused));
        }
        if item.moment > self.closed + LONGEST_GAP {
            return Err(MergeRefused::Ahead {
                closed: self.closed,
            });
        }
        self.marks.set(sensor, item.moment);
        self.rings.keep(sensor, item);
        Ok(())
    }

    /// The last moment of that sensor, 0 before its first item.
    pub fn mark(&self, sensor: Sensor) -> u32
        ensures { (p : Progress) → MergeStandsFor self.now p → result ≡ mark_of (items_of sensor p.given) }
    {
        *self.marks.of(sensor)
    }

    /// Closes the next tick and gives its row, if no sensor can give an item of it any more.
    #[inline(always)]
    pub fn next(&mut self) -> Next
        ensures answer { (p : Progress) → MergeStandsFor self.old p → result ≡ next_of p }
        ensures stands { (p : Progress) → MergeStandsFor self.old p → MergeStandsFor self.new (after_next p result) }

        // A tick is closed exactly where the schedule allows it.
        ensures allowed { (p : Progress) → MergeStandsFor self.old p → AnswersRow result ↔ IsAllowed Close p }
    {
        if let Some(sensor) = lagging(&self.marks, &mut self.slow, self.closed) {
            return Next::Waiting { sensor };
        }
        self.closed += 1;
        Next::Row {
            tick: self.closed,
            along: self.rings.along.take(self.closed),
            across: self.rings.across.take(self.closed),
            fired: restraints(self.rings.restraint.take(self.closed)),
        }
    }

    /// Takes a sample of 0 of the next tick from each axis, and closes the tick, where it needs nothing else. The samples go past
    /// the rings. It says whether it did.
    #[inline(always)]
    pub fn pass_still(&mut self) -> bool
        ensures answer { (p : Progress) → MergeStandsFor self.old p → IsTrue result ↔ IsStillNext p }
        ensures passes { IsTrue result → (p : Progress) → MergeStandsFor self.old p → PassesStill p self.new }
        ensures stays { result ≡ false → self.new ≡ self.old }
    {
        if self.marks.along != self.closed || self.marks.across != self.closed {
            return false;
        }
        if !is_before_slow(&self.marks, &mut self.slow, self.closed)
            || self.rings.restraint.has(self.closed + 1)
        {
            return false;
        }
        self.closed += 1;
        self.marks.along = self.closed;
        self.marks.across = self.closed;
        true
    }
}
