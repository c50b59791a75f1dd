//! What the streaming search keeps of the samples.

ghost use Rattle.std.specs.Prelude.{◌≡◌, ℕ, ◌+◌, ◌-◌, ◌<◌, ◌≤◌, pos, IsTrue, false, unsigned_abs};
ghost use Rattle.edr_items.specs.declared.TheConstants.{GREATEST_ACCELERATION, LATEST_MOMENT};
ghost use Rattle.edr_detect.specs.Standing.{IsSizeOfSwing, HasNoSwing};

use crate::latest::Latest;
use crate::stage::{Change, Stage, Tests};
use edr_definitions::limits::{ACROSS_TICKS, ALONG_TICKS, TRIGGER_TICKS};
use edr_items::Restraints;
use edr_record::{EARLIEST_END, RESET};
use edr_units::{over, quiet, trigger};
use edr_window::Swing;

// The changes since a candidate last left the search, for a time zero; those since the last event, for the
// trigger; and those of the last 20 ticks, for an end.
#[derive(Drop)]
pub struct Windows {
    pub zero_along: Swing<ALONG_TICKS>,
    pub zero_across: Swing<ACROSS_TICKS>,
    pub trigger_along: Swing<TRIGGER_TICKS>,
    pub trigger_across: Swing<TRIGGER_TICKS>,
    pub latest_along: Latest,
    pub latest_across: Latest,
}

// The sum of the greatest size, either way.
fn largest<const K: usize>(sums: &Swing<K>) -> i64
    ensures { IsSizeOfSwing K sums.now (unsigned_abs result) }
{
    let Some(least) = sums.least() else {
        return 0;
    };
    let Some(greatest) = sums.greatest() else {
        return 0;
    };
    if least.unsigned_abs() < greatest.unsigned_abs() {
        greatest
    } else {
        least
    }
}

// No sum differs from 0.
#[inline(always)]
fn is_at_rest<const K: usize>(sums: &Swing<K>) -> bool
    ensures still { result ≡ sums.now.still }
    ensures none { IsTrue result → HasNoSwing K sums.now }
{
    sums.is_still()
}

impl Windows {
    ghost use Rattle.edr_definitions.specs.Signals.{Signals};
    ghost use Rattle.edr_definitions.specs.Selection.{Bounds, is_triggered, is_time_zero, is_end, at_start};
    ghost use Rattle.edr_definitions.specs.Search.{Phase, Searching};
    ghost use Rattle.edr_detect.specs.Stages.{phase_of, is_event};
    ghost use Rattle.edr_detect.specs.Standing.{SwingsStandFor, SwingsTake, WindowsStandFor, WindowsTake, HoldNothing, AreStill, PushedAtMost, SwingsAreStill, BeginsAtRest, EndIs, TestsAre, WindowsRestart};

    pub fn new() -> Windows
        ensures stands { (m : Signals) → BeginsAtRest m → WindowsStandFor m at_start Searching 0 result }
        ensures pushed { PushedAtMost 0 result }
    {
        Windows {
            zero_along: Swing::new(),
            zero_across: Swing::new(),
            trigger_along: Swing::new(),
            trigger_across: Swing::new(),
            latest_along: Latest::new(),
            latest_across: Latest::new(),
        }
    }

    // The changes of the tick t, for the swings.
    fn push_swings(&mut self, along: i32, across: i32)
        requires along_small { unsigned_abs along ≤ GREATEST_ACCELERATION }
        requires across_small { unsigned_abs across ≤ GREATEST_ACCELERATION }
        requires room { PushedAtMost (LATEST_MOMENT - 1) self.old }
        ensures stands { SwingsTake along across self.old self.new }
        ensures pushed { (n : ℕ) → PushedAtMost n self.old → PushedAtMost (n + 1) self.new }
        ensures latest_along { self.new.latest_along ≡ self.old.latest_along }
        ensures latest_across { self.new.latest_across ≡ self.old.latest_across }
    {
        self.zero_along.push(i64::from(along));
        self.zero_across.push(i64::from(across));
        self.trigger_along.push(i64::from(along));
        self.trigger_across.push(i64::from(across));
    }

    // The changes of the tick t. While an event is open no test asks the swings, and its close begins them anew.
    #[inline(always)]
    pub fn push(&mut self, stage: Stage, t: u32, along: i32, across: i32)
        requires along_small { unsigned_abs along ≤ GREATEST_ACCELERATION }
        requires across_small { unsigned_abs across ≤ GREATEST_ACCELERATION }
        requires room { PushedAtMost (LATEST_MOMENT - 1) self.old }
        ensures stands { WindowsTake (phase_of stage) t along across self.old self.new }
        ensures pushed { (n : ℕ) → PushedAtMost n self.old → PushedAtMost (n + 1) self.new }
    {
        self.latest_along.push(t, along);
        self.latest_across.push(t, across);
        if stage.is_event() {
            return;
        }
        self.push_swings(along, across);
    }

    // A further tick at which nothing changes. Only the swings count it, where the last 20 ticks changed nothing either.
    #[inline(always)]
    pub fn rest(&mut self)
        requires room { PushedAtMost (LATEST_MOMENT - 1) self.old }
        requires still { SwingsAreStill self.old }
        ensures stands { HoldNothing self.old → (p : Phase) (t : ℕ) → WindowsTake p t (pos 0) (pos 0) self.old self.new }
        ensures nothing { HoldNothing self.old → HoldNothing self.new }
        ensures pushed { (n : ℕ) → PushedAtMost n self.old → PushedAtMost (n + 1) self.new }
        ensures still { SwingsAreStill self.new }
    {
        self.zero_along.push_still();
        self.zero_across.push_still();
        self.trigger_along.push_still();
        self.trigger_across.push_still();
    }

    // No sum of any swing differs from 0, and no change of the last 20 ticks.
    pub fn are_at_rest(&self) -> bool
        ensures still { IsTrue result → (m : Signals) (b : Bounds) (t : ℕ) → SwingsStandFor m b t self.now → AreStill m b t }
        ensures nothing { IsTrue result → HoldNothing self.now }
        ensures swings { IsTrue result → SwingsAreStill self.now }
    {
        is_at_rest(&self.zero_along)
            && is_at_rest(&self.zero_across)
            && is_at_rest(&self.trigger_along)
            && is_at_rest(&self.trigger_across)
            && self.latest_along.is_zero()
            && self.latest_across.is_zero()
    }

    // A restraint fires, or a change meets the trigger threshold.
    #[tactic(auto, unfolding(edr_definitions::specs::Selection::is_triggered))]
    fn triggers(&self, fired: Restraints) -> bool
        ensures { (m : Signals) (b : Bounds) (t : ℕ) → SwingsStandFor m b t self.now → m.fired t ≡ fired.0 → result ≡ is_triggered m b.since t }
    {
        fired.0 != 0
            || trigger(largest(&self.trigger_along))
            || trigger(largest(&self.trigger_across))
    }

    // A change is over 0.8 km/h, or there is a trigger.
    #[tactic(auto, unfolding(edr_definitions::specs::Selection::is_time_zero))]
    fn begins(&self, triggered: bool) -> bool
        ensures { (m : Signals) (b : Bounds) (t : ℕ) → SwingsStandFor m b t self.now → b.after < t → triggered ≡ is_triggered m b.since t → result ≡ is_time_zero m b t }
    {
        over(largest(&self.zero_along)) || over(largest(&self.zero_across)) || triggered
    }

    // The candidate with time zero `zero` ends at the tick t.
    #[tactic(auto, unfolding(edr_definitions::specs::Selection::is_end))]
    fn ends(&self, zero: u32, t: u32) -> bool
        ensures { (m : Signals) (b : Bounds) (p : Phase) → WindowsStandFor m b p t self.now → result ≡ is_end m zero t }
    {
        let passed = t.saturating_sub(zero);
        passed == u32::from(RESET)
            || (passed >= u32::from(EARLIEST_END)
                && quiet(
                    i64::from(self.latest_along.sum),
                    i64::from(self.latest_across.sum),
                ))
    }

    // The open candidate ends at the tick t, if it hasn't before.
    fn end_stands(&self, stage: Stage, t: u32) -> bool
        ensures { (m : Signals) (b : Bounds) (p : Phase) → WindowsStandFor m b p t self.now → EndIs m stage t result }
    {
        match stage {
            Stage::Open { zero, .. } => self.ends(zero, t),
            Stage::Searching => false,
        }
    }

    // The answers of the four tests at the tick t. While an event is open the first two don't count.
    pub fn tests(&self, stage: Stage, t: u32, fired: Restraints) -> Tests
        ensures { (m : Signals) (b : Bounds) → WindowsStandFor m b (phase_of stage) t self.now → b.after < t → m.fired t ≡ fired.0 → TestsAre m b stage t result }
    {
        let ends = self.end_stands(stage, t);
        let locks = fired.locks();
        if stage.is_event() {
            return Tests {
                zero: false,
                trigger: false,
                locks,
                ends,
            };
        }
        let triggered = self.triggers(fired);
        Tests {
            zero: self.begins(triggered),
            trigger: triggered,
            locks,
            ends,
        }
    }

    // A candidate leaves the search: a time zero comes after it, and after an event the trigger begins anew too.
    pub fn restart(&mut self, change: Change)
        ensures stands { WindowsRestart change self.old self.new }
        ensures pushed { (n : ℕ) → PushedAtMost n self.old → PushedAtMost n self.new }
    {
        if change.closed {
            self.zero_along.restart();
            self.zero_across.restart();
            self.trigger_along.restart();
            self.trigger_across.restart();
        } else if change.dropped {
            self.zero_along.restart();
            self.zero_across.restart();
        }
    }
}
