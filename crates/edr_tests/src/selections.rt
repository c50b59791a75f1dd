//! The commands of a cycle by the selection over its whole lists, beside those of a core that is given its items.

use crate::drawn_cycles::drawn_feeds;
use edr_core::{Core, Step};
use edr_gen::Generator;
use edr_items::{Feeds, Item, PerSensor, SENSORS, Sensor};
use edr_record::{Command, Crash, Pre};
use edr_selection::{EventParts, parts_of, select};
use std::alloc::{AllocError as OutOfMemory, Global};
use std::test::Fail;

// The number of the ignition cycle.
const CYCLE: u32 = 3;

// Commands, each with its tick.
type Issues = Vec<(u32, Command)>;

// Puts a command, if there is one, after the others.
fn put(issues: &mut Issues, tick: u32, command: Option<Command>) -> Result<(), OutOfMemory> {
    if let Some(command) = command {
        issues.push((tick, command))?;
    }
    Ok(())
}

// Gives the core the next item of that sensor.
pub(crate) fn give(
    core: &mut Core,
    left: &mut PerSensor<&[Item]>,
    sensor: Sensor,
) -> Result<(), Fail> {
    let list = left.of_mut(sensor);
    let (item, rest) = list.split_first().ok_or("an item that is waited for")?;
    core.accept(sensor, *item)?;
    *list = rest;
    Ok(())
}

// Puts what a tick issues after the rest.
fn put_step(
    issues: &mut Issues,
    tick: u32,
    take: Option<Pre>,
    lock: Option<Pre>,
    done: Option<Crash>,
) -> Result<(), OutOfMemory> {
    put(issues, tick, take.map(|pre| Command::Take { pre }))?;
    put(issues, tick, lock.map(|pre| Command::Lock { pre }))?;
    put(issues, tick, done.map(|crash| Command::Done { crash }))
}

// What a core issues up to the horizon that is given the item that it waits for.
fn issues_by_core(alloc: Global, feeds: &Feeds) -> Result<Issues, Fail> {
    let mut core = Core::open(alloc, CYCLE)?;
    let mut left = PerSensor::from_fn(|sensor| feeds.of(sensor));
    let mut issues = Vec::new(alloc);
    for _ in 0..u32::MAX {
        if core.closed() == feeds.horizon() {
            break;
        }
        match core.step() {
            Step::Waiting { sensor } => give(&mut core, &mut left, sensor)?,
            Step::Closed {
                tick,
                take,
                lock,
                done,
            } => put_step(&mut issues, tick, take, lock, done)?,
        }
    }
    Ok(issues)
}

// Puts what an event issues after the rest.
fn put_parts(issues: &mut Issues, parts: &EventParts) -> Result<(), OutOfMemory> {
    let pre = parts.pre;
    let crash = parts.crash;
    put(issues, parts.taken, Some(Command::Take { pre }))?;
    if let Some(tick) = parts.locked {
        put(issues, tick, Some(Command::Lock { pre }))?;
    }
    put(issues, parts.closed, Some(Command::Done { crash }))
}

// What the selection over the whole lists issues up to the horizon.
fn issues_by_selection(alloc: Global, feeds: &Feeds) -> Result<Issues, OutOfMemory> {
    let mut issues = Vec::new(alloc);
    for event in &select(alloc, feeds)? {
        put_parts(&mut issues, &parts_of(feeds, CYCLE, event))?;
    }
    let horizon = feeds.horizon();
    issues.retain(|issue| issue.0 <= horizon);
    Ok(issues)
}

// How many commands both say, where they say the same.
pub(crate) fn said_by_both(alloc: Global, feeds: &Feeds) -> Result<usize, Fail> {
    let core = issues_by_core(alloc, feeds)?;
    let selection = issues_by_selection(alloc, feeds)?;
    if core.as_slice() == selection.as_slice() {
        Ok(core.len())
    } else {
        Err("the same commands".into())
    }
}

#[test]
fn a_generated_cycle_has_the_same_commands(rt: HostRuntime) -> Result<(), Fail> {
    let cycle = Generator::new(7).next_cycle(rt.alloc())?;
    assert_eq!(rt; said_by_both(rt.alloc(), &cycle.feeds)?, 6);
    Ok(())
}

#[test]
fn drawn_cycles_have_the_same_commands(rt: HostRuntime) -> Result<(), Fail> {
    let mut commands = 0usize;
    for number in 0..300 {
        let feeds = drawn_feeds(rt.alloc(), number)?;
        commands = commands.saturating_add(said_by_both(rt.alloc(), &feeds)?);
    }
    assert_eq!(rt; commands, 4_630);
    Ok(())
}

// The lists of a pretensioner that fires at 2 ms, and an air bag that fires later.
fn fired_twice(alloc: Global, later: u32) -> Result<Feeds, Fail> {
    let mut feeds = Feeds::new(alloc);
    for (moment, bits) in [(2, 64), (later, 1)] {
        let value = Some(bits);
        feeds.add(Sensor::Restraint, Item { moment, value })?;
    }
    for sensor in SENSORS {
        let (moment, value) = (200, None);
        feeds.add(sensor, Item { moment, value })?;
    }
    Ok(feeds)
}

#[test]
fn what_fires_past_a_close_is_another_event(rt: HostRuntime) -> Result<(), Fail> {
    for (later, events) in [(52, 1), (53, 2)] {
        let feeds = fired_twice(rt.alloc(), later)?;
        assert_eq!(rt; select(rt.alloc(), &feeds)?.len(), events);
    }
    Ok(())
}
