//! What is shown last of a cycle by threads, since no clause refuses memory that always runs out.
ghost use Rattle.std.specs.Prelude.{◌≤◌};
ghost use Rattle.std.specs.Arc.{arc_value};
ghost use Rattle.edr_items.specs.SensorLists.{IsLevel};

use crate::dealt_sensors::fired_feeds;
use crate::drives::{level, new_gate};
use crate::runs::formatted;
use edr_cycle::start;
use edr_drive::{LiveEnd, drive_cycle_live};
use edr_items::Feeds;
use std::alloc::Global;
use std::process::Abort;
use std::sync::{Arc, Wait};
use std::test::Fail;
use std::thread::Threads;

// All three commands were shown, of two banks.
fn assert_last(rt: &impl Abort, live: &LiveEnd) {
    assert!(rt; !live.end.failed);
    assert!(rt; !live.cut);
    assert_eq!(rt; live.end.log.acks().len(), 3);
    assert_eq!(rt; (live.last.applied, live.last.banks), (3, 2));
}

// A cycle by this number of workers, beside which a reader reads.
fn check_last<R: Threads + Wait + Abort + Copy + Send + 'static>(
    rt: &R,
    alloc: Global,
    feeds: &Arc<Feeds>,
    workers: u8,
) -> Result<(), Fail>
    requires level { IsLevel (arc_value feeds.now) }
    requires workers { (1 ≤ workers) × (workers ≤ 8) }
{
    let mut memory = formatted(alloc, 0)?;
    let gate = new_gate(alloc)?;
    let started = start(alloc, &mut memory, feeds.horizon())?;
    let live = drive_cycle_live(rt, alloc, started, feeds, workers, &mut memory, &gate)?;
    assert_last(rt, &live);
    Ok(())
}

#[test]
fn each_command_of_a_cycle_is_shown(rt: HostRuntime) -> Result<(), Fail> {
    let alloc = rt.alloc();
    let feeds = level(&rt, alloc, fired_feeds(alloc, 200)?)?;
    check_last(&rt, alloc, &feeds, 1)?;
    check_last(&rt, alloc, &feeds, 8)
}
