//! The search for events tick by tick, which looks forward only.

use crate::stage::{Change, NOTHING, Stage};
use crate::windows::Windows;
use edr_items::Restraints;
use std::marker::Model;

/// The selection of events of one cycle, tick by tick. Whatever the number of ticks, it keeps four swings, the
/// changes of the last 20 ticks and a few numbers.
///
/// ```
/// let mut detect = Detect::new();
/// let change = detect.tick(-4_000, 0, Restraints(0));
/// ```
#[derive(Drop)]
pub struct Detect {
    tick: u32,
    stage: Stage,
    windows: Windows,
    // No candidate is open, and no change that still counts differs from 0.
    rests: bool,
}

impl Model for Detect {
    ghost use Rattle.edr_detect.specs.Detected.{CountsTicks, DetectState};

    ghost Value = { DetectState };

    ghost view = { λ d. record { tick = d.tick; stage = d.stage; windows = d.windows; rests = d.rests } };

    ghost invariant = { λ d. CountsTicks (record { tick = d.tick; stage = d.stage; windows = d.windows; rests = d.rests }) };
}

impl Detect {
    ghost use Rattle.std.specs.Prelude.{◌≡◌, ◌+◌, ◌<◌, ◌≤◌, [], IsTrue, unsigned_abs};
    ghost use Rattle.edr_items.specs.declared.TheConstants.{GREATEST_ACCELERATION, LATEST_MOMENT};
    ghost use Rattle.edr_detect.specs.Rows.{row_of, still_row};
    ghost use Rattle.edr_detect.specs.Stages.{nothing};
    ghost use Rattle.edr_detect.specs.Detected.{DetectStandsFor, DetectsNext, TellsNext};

    /// A detector at the start of a cycle, before its first tick.
    pub fn new() -> Detect
        ensures stands { DetectStandsFor result [] }
        ensures tick { result.tick ≡ 0 }
    {
        Detect {
            tick: 0,
            stage: Stage::Searching,
            windows: Windows::new(),
            rests: false,
        }
    }

    /// What stands at the next tick: `along` and `across` are its changes of speed in steps of 0.0001 km/h, 0 for
    /// a missing sample, and `fired` the restraints that fire there.
    #[inline(always)]
    pub fn tick(&mut self, along: i32, across: i32, fired: Restraints) -> Change
        requires along_small { unsigned_abs along ≤ GREATEST_ACCELERATION }
        requires across_small { unsigned_abs across ≤ GREATEST_ACCELERATION }
        requires room { self.old.tick < LATEST_MOMENT }
        ensures stands { DetectsNext (row_of along across fired) self.old self.new }
        ensures answer { TellsNext (row_of along across fired) self.old result }
        ensures tick { self.new.tick ≡ self.old.tick + 1 }
    {
        // At most ticks of a drive nothing moves, nothing fires and no candidate is open.
        if along == 0 && across == 0 && fired.0 == 0 && self.rests {
            self.pass_still();
            return NOTHING;
        }
        self.full_tick(along, across, fired)
    }

    /// Whether no candidate is open, and no change that still counts differs from 0.
    #[inline(always)]
    pub fn is_at_rest(&self) -> bool
        ensures { result ≡ self.now.rests }
    {
        self.rests
    }

    /// The next tick, where the detector is at rest and nothing moves or fires: nothing stands at it.
    #[inline(always)]
    pub fn pass_still(&mut self)
        requires rests { IsTrue self.old.rests }
        requires room { self.old.tick < LATEST_MOMENT }
        ensures stands { DetectsNext still_row self.old self.new }
        ensures answer { TellsNext still_row self.old nothing }
        ensures tick { self.new.tick ≡ self.old.tick + 1 }
    {
        self.tick += 1;
        self.windows.rest();
    }

    // The same, whatever moves. It stands apart, so that a quiet tick doesn't save the registers that it takes.
    #[inline(never)]
    fn full_tick(&mut self, along: i32, across: i32, fired: Restraints) -> Change
        requires along_small { unsigned_abs along ≤ GREATEST_ACCELERATION }
        requires across_small { unsigned_abs across ≤ GREATEST_ACCELERATION }
        requires room { self.old.tick < LATEST_MOMENT }
        ensures stands { DetectsNext (row_of along across fired) self.old self.new }
        ensures answer { TellsNext (row_of along across fired) self.old result }
        ensures tick { self.new.tick ≡ self.old.tick + 1 }
    {
        self.tick += 1;
        self.windows.push(self.stage, self.tick, along, across);
        let tests = self.windows.tests(self.stage, self.tick, fired);
        // The search goes on as it was.
        if self.stage.is_searching() && !tests.zero {
            self.rests = self.windows.are_at_rest();
            return NOTHING;
        }
        let change = self.stage.change_at(self.tick, tests);
        self.stage = self.stage.next(self.tick, tests);
        self.windows.restart(change);
        self.rests = false;
        change
    }
}
