//! A cycle over a split core, which asks for the parts of each time zero.
ghost use Rattle.std.specs.Prelude.{◌≤◌, IfOk};
ghost use Rattle.edr_cycle.specs.Remaining.{Remains};

use crate::dealt_sensors::fired_feeds;
use crate::runs::{formatted, kept_event};
use edr_banks::Log;
use edr_core::{Captures, SplitCore};
use edr_cycle::{Books, Parts, Remaining, run_rest, start};
use edr_device::MemNvm;
use edr_items::Feeds;
use std::alloc::Global;
use std::test::Fail;

// A split core of the cycle with this number, and what is left of the feeds before the first of them is given: all.
fn all_left(alloc: Global, feeds: &Feeds, number: u32) -> Result<(SplitCore, Remaining<'_>), Fail>
    requires { 1 ≤ number }
    ensures { IfOk result (λ r. Remains feeds.now r.0.cycle r.0 r.1) }
{
    let core = SplitCore::open(alloc, number)?;
    let captures = Captures::new(alloc)?;
    let rest = Remaining::after(feeds, 0, 0, 0, captures);
    Ok((core, rest))
}

// Runs a whole cycle over a split core, and answers its asks from captures.
fn run_split(alloc: Global, memory: &mut MemNvm, feeds: &Feeds) -> Result<Log, Fail> {
    let started = start(alloc, memory, feeds.horizon())?;
    let (core, rest) = all_left(alloc, feeds, started.number())?;
    let Parts { banks, log, .. } = started.parts();
    let mut books = Books { banks, log };
    run_rest(core, feeds, rest, &mut books, memory)?;
    Ok(books.log.told())
}

#[test]
fn asks_are_answered(rt: HostRuntime) -> Result<(), Fail> {
    let alloc = rt.alloc();
    let mut memory = formatted(alloc, 0)?;
    let feeds = fired_feeds(alloc, 200)?;
    let log = run_split(alloc, &mut memory, &feeds)?;
    assert_eq!(rt; log.acks().len(), 3);
    let (_, record) = kept_event(&rt, alloc, &mut memory)?;
    assert!(rt; record.locked && record.crash.is_some());
    assert_eq!(rt; record.pre.speed().last().copied(), Some(Some(50)));
    assert_eq!(rt; record.pre.throttle().last().copied(), Some(Some(20)));
    assert_eq!(rt; record.pre.brake().last().copied(), Some(Some(false)));
    Ok(())
}
