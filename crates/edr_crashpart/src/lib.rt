//! The crash part of a record while it grows, one tick at a time, in fixed arrays.
#![tactic(auto)]

ghost use Rattle.std.specs.Prelude.{◌≡◌, unsigned_abs, if◌then◌else◌, ◌+◌, ◌<◌, ◌≤◌, []};
ghost use Rattle.std.specs.Option.{option_or};
ghost use Rattle.edr_record.specs.declared.TheConstants.{EARLIEST_END, RESET};
ghost use Rattle.edr_definitions.specs.Search.{tick_if};
ghost use Rattle.edr_definitions.specs.Windows.{squares};
ghost use Rattle.edr_definitions.specs.Selection.{close_of};
ghost use Rattle.edr_definitions.specs.OpenCrash.{begin_crash, next_crash, finish_crash, next_firings, higher_result};
ghost use Rattle.edr_crashpart.specs.Fields.{result_of, next_result};
ghost use Rattle.edr_crashpart.specs.Bounds.{IsInRange};
ghost use Rattle.edr_crashpart.specs.History.{row_of, OpenCrashStandsFor, StandsWith, IsPartWithEnd};

mod axis;

use axis::Axis;
use edr_items::Restraints;
use edr_record::{Crash, LONGEST_WINDOW};
use std::marker::Model;

// The sum of the squares of two changes.
fn sum_of_squares(along: i64, across: i64) -> u64
    requires along { unsigned_abs along ≤ 50_000_000 }
    requires across { unsigned_abs across ≤ 50_000_000 }
    ensures { result ≡ squares along across }
{
    let along = along.unsigned_abs();
    let across = across.unsigned_abs();
    along * along + across * across
}

// The greatest sum of the squares of both changes, and its first time from time zero on.
#[derive(Clone, Copy)]
struct ResultPeak {
    size: u64,
    at: u16,
}

impl ResultPeak {
    // This peak, or the sum where it is greater.
    fn or_higher(self, size: u64, at: u16) -> ResultPeak
        ensures { result_of result ≡ higher_result (result_of self) size at }
    {
        if size > self.size {
            ResultPeak { size, at }
        } else {
            self
        }
    }

    // The peak with one tick more, `at` ticks after time zero.
    fn next(self, along: &Axis, across: &Axis, at: u16) -> ResultPeak
        requires along { unsigned_abs along.now.sum ≤ 50_000_000 }
        requires across { unsigned_abs across.now.sum ≤ 50_000_000 }
        ensures { result_of result ≡ next_result (result_of self) along.now.sum across.now.sum at }
    {
        if at <= LONGEST_WINDOW {
            self.or_higher(sum_of_squares(along.sum, across.sum), at)
        } else {
            self
        }
    }
}

// The first firing of a restraint with one tick more.
fn first_firing(first: Option<u16>, fires: bool, at: u16) -> Option<u16>
    ensures { result ≡ option_or first (tick_if fires at) }
{
    first.or(fires.then_some(at))
}

// The first firings with one tick more, `at` ticks after time zero, bit by bit.
fn noted_firings(firsts: [Option<u16>; 8], fired: Restraints, at: u16) -> [Option<u16>; 8]
    ensures { result ≡ next_firings firsts fired.0 at }
{
    let mut noted = firsts;
    for bit in 0..8u8 {
        let place = usize::from(bit);
        noted[place] = first_firing(noted[place], fired.has(bit), at);
    }
    noted
}

// The same. At most ticks none fires.
#[inline(always)]
fn with_firings(firsts: [Option<u16>; 8], fired: Restraints, at: u16) -> [Option<u16>; 8]
    ensures { result ≡ next_firings firsts fired.0 at }
{
    if fired.0 == 0 {
        return firsts;
    }
    noted_firings(firsts, fired, at)
}

/// The crash part of an event whose end may still be to come. It is given each tick from time zero on, in order, and
/// takes a bounded number of steps for each.
#[derive(Drop)]
pub struct OpenCrash {
    zero: u32,
    // How many ticks there were after time zero.
    elapsed: u16,
    along: Axis,
    across: Axis,
    result: ResultPeak,
    fired: [Option<u16>; 8],
}

impl Model for OpenCrash {
    ghost use Rattle.edr_definitions.specs.OpenCrash.{OpenCrash};

    ghost Value = { OpenCrash };

    ghost use Rattle.edr_crashpart.specs.Fields.{part_of};
    ghost use Rattle.edr_crashpart.specs.Bounds.{IsOpen};

    ghost view = { part_of };

    ghost invariant = { λ p. IsOpen (part_of p) };
}

impl OpenCrash {
    /// The crash part at its time zero, a tick of the cycle, with the restraints that fire at that tick.
    pub fn begin(zero: u32, fired: Restraints) -> OpenCrash
        ensures part { result ≡ begin_crash zero fired.0 }
        ensures stands { OpenCrashStandsFor result zero fired.0 [] }
    {
        OpenCrash {
            zero,
            elapsed: 0,
            along: Axis::begin(),
            across: Axis::begin(),
            result: ResultPeak { size: 0, at: 0 },
            fired: with_firings([None; 8], fired, 0),
        }
    }

    /// One tick more: the samples of both axes in steps of 0.0001 km/h, where there are any, and the restraints that fire.
    pub fn tick(&mut self, along: Option<i32>, across: Option<i32>, fired: Restraints)
        requires few { self.old.elapsed < RESET }
        requires along { IsInRange along }
        requires across { IsInRange across }
        ensures part { self.new ≡ next_crash self.old along across fired.0 }

        // The same of its time zero and all its ticks.
        ensures stands { StandsWith (row_of along across fired.0) self.old self.new }
    {
        let at = self.elapsed + 1;
        self.along.tick(along, at);
        self.across.tick(across, at);
        self.result = self.result.next(&self.along, &self.across, at);
        self.fired = with_firings(self.fired, fired, at);
        self.elapsed = at;
    }

    /// The crash part of the event whose end is that tick of the cycle, once its close has come: the end, or the tick up to
    /// which extremes count if that is later.
    pub fn finish(&self, end: u32) -> Crash
        requires from { self.now.zero + EARLIEST_END ≤ end }
        requires to { end ≤ self.now.zero + RESET }
        requires closed { self.now.zero + self.now.elapsed ≡ close_of self.now.zero end }
        ensures part { result ≡ finish_crash self.now end }

        // It is the crash part of the definition for its time zero and its ticks.
        ensures definition { IsPartWithEnd self.now end result }
    {
        Crash {
            end: (end - self.zero) as u16,
            along: self.along.points,
            across: self.across.points,
            max_along: self.along.extreme(),
            max_across: self.across.extreme(),
            result_at: self.result.at,
            missing_along: self.along.missing,
            missing_across: self.across.missing,
            fired: self.fired,
        }
    }
}
