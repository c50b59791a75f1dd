//! The cycles of a generated trace, without its bytes.
ghost use Rattle.std.specs.Prelude.{◌≡◌, ◌+◌, ◌%◌, ◌<◌, ◌==◌, ◌^◌, ◌∷◌, [], IfOk, None, Some, OnOk, pos};
ghost use Rattle.edr_items.specs.PerSlowSensor.{slow_value_of};
ghost use Rattle.edr_spell.specs.Samples.{feeds_given};
ghost use Rattle.edr_gen.specs.Cycles.{GivesSamples, crash_of, crash_samples, restraint_samples, sample, samples_at, slow_samples};
ghost use Rattle.edr_gen.specs.Draws.{plan_from, state_past};
ghost use Rattle.edr_gen.specs.Traces.{cycle_of, samples_of};

use crate::draws::Draws;
use crate::plan::{Plan, SLOW_SAID, TICKS};
use edr_items::{Feeds, Item, SLOW_SENSORS, Sensor};
use edr_spell::CycleInput;
use std::alloc::{AllocError as OutOfMemory, Global};
use std::marker::Model;

// Gives a sample to the feeds. They refuse none of a generated cycle but for want of memory.
fn give(
    feeds: &mut Feeds,
    sensor: Sensor,
    moment: u32,
    value: Option<i32>,
) -> Result<(), OutOfMemory>
    ensures { OnOk result (GivesSamples (sample sensor moment value ∷ []) feeds.old feeds.new) }
{
    match feeds.add(sensor, Item { moment, value }) {
        Ok(()) => Ok(()),
        Err(_) => Err(OutOfMemory),
    }
}

// What a slow sensor says, whenever it says something.
fn slow_said(sensor: Sensor) -> Option<i32>
    ensures { result ≡ slow_value_of sensor SLOW_SAID }
{
    SLOW_SAID.of(sensor).copied()
}

// Gives what the slow sensors say at a tick.
fn give_slow(feeds: &mut Feeds, tick: u32) -> Result<(), OutOfMemory>
    ensures { OnOk result (GivesSamples (slow_samples (tick % 100 == 0) tick) feeds.old feeds.new) }
{
    if tick % 100 == 0 {
        for sensor in SLOW_SENSORS {
            give(feeds, sensor, tick, slow_said(sensor))?;
        }
    }
    Ok(())
}

// Gives what the restraints say at a tick.
fn give_restraint(feeds: &mut Feeds, tick: u32, fires: bool) -> Result<(), OutOfMemory>
    ensures { OnOk result (GivesSamples (restraint_samples fires (tick % 1000 == 0) tick) feeds.old feeds.new) }
{
    if fires {
        return give(feeds, Sensor::Restraint, tick, Some(1));
    }
    if tick % 1_000 == 0 {
        return give(feeds, Sensor::Restraint, tick, None);
    }
    Ok(())
}

// Gives what the acceleration sensors say at a tick.
#[inline(always)]
fn give_axes(feeds: &mut Feeds, tick: u32, along: i32, across: i32) -> Result<(), OutOfMemory>
    ensures { OnOk result (GivesSamples (crash_samples along across tick) feeds.old feeds.new) }
{
    give(feeds, Sensor::Along, tick, Some(along))?;
    give(feeds, Sensor::Across, tick, Some(across))
}

// The same by the plan. Most often nothing acts, and a 0 needs no look at a range: so the two cases stand apart.
#[inline(always)]
fn give_crash(feeds: &mut Feeds, plan: &Plan, tick: u32) -> Result<(), OutOfMemory>
    ensures { OnOk result (GivesSamples (crash_of plan.now.impulses tick) feeds.old feeds.new) }
{
    match plan.acting_at(tick) {
        Some(impulse) => give_axes(feeds, tick, impulse.along, impulse.across),
        None => give_axes(feeds, tick, 0, 0),
    }
}

// Gives what all sensors say at a tick.
#[tactic(auto, unfolding(crate::specs::Cycles::samples_at))]
fn give_tick(feeds: &mut Feeds, plan: &Plan, tick: u32) -> Result<(), OutOfMemory>
    ensures { OnOk result (GivesSamples (samples_at plan.now.impulses tick) feeds.old feeds.new) }
{
    give_crash(feeds, plan, tick)?;
    give_slow(feeds, tick)?;
    give_restraint(feeds, tick, plan.has_firing(tick))
}

// What the sensors give in a planned cycle.
fn feeds_of(alloc: Global, plan: &Plan) -> Result<Feeds, OutOfMemory>
    ensures { IfOk result (λ feeds. feeds ≡ feeds_given (samples_of plan.now)) }
{
    let mut feeds = Feeds::new(alloc);
    for passed in 0..TICKS {
        give_tick(&mut feeds, plan, passed + 1)?;
    }
    Ok(feeds)
}

/// The cycles that a number gives, one after the other. Contracts see the state of its draws.
#[derive(Drop)]
pub struct Generator {
    draws: Draws,
}

impl Model for Generator {
    ghost use Rattle.std.specs.Prelude.{ℕ};

    ghost Value = { ℕ };

    ghost view = { λ g. g.draws.state };
}

impl Generator {
    /// Before the first cycle of the number.
    pub fn new(number: u64) -> Generator
        ensures { result ≡ number }
    {
        Generator {
            draws: Draws { state: number },
        }
    }

    /// The next cycle.
    pub fn next_cycle(&mut self, alloc: Global) -> Result<CycleInput, OutOfMemory>
        ensures cycle { IfOk result (λ cycle. cycle ≡ cycle_of (plan_from self.old)) }
        ensures state { self.new ≡ state_past self.old }
    {
        let plan = self.draws.next_plan();
        let feeds = feeds_of(alloc, &plan)?;
        Ok(CycleInput {
            start_stop: 0,
            feeds,
            stop: plan.stop,
        })
    }
}
