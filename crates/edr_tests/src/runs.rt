//! Runs of cycles over a memory in memory.
ghost use Rattle.std.specs.Prelude.{◌≤◌, IfOk};
ghost use Rattle.edr_items.specs.SensorLists.{IsLevel};
ghost use Rattle.edr_spell.specs.Spell.{IsCycleInput};

use crate::dealt_sensors::fired_feeds;
use edr_banks::{Ack, Applied, BankView, Banks, Choice, Kind};
use edr_device::MemNvm;
use edr_image::CycleReport;
use edr_items::{Feeds, level_is_none_lagging};
use edr_record::Record;
use edr_replay::replay;
use edr_spell::CycleInput;
use std::alloc::Global;
use std::process::Abort;
use std::test::Fail;

// A formatted memory with two banks, and a pick for its power cuts.
pub(crate) fn formatted(alloc: Global, pick: u64) -> Result<MemNvm, Fail> {
    let image = vec![in alloc; 0u8; 2_144]?;
    let mut memory = MemNvm::new(alloc, image, 100, Vec::new(alloc), Vec::new(alloc), pick)?;
    Banks::format(&mut memory, 2, Choice::Keep)?;
    Ok(memory)
}

pub(crate) fn assert_level(rt: &impl Abort, feeds: &Feeds)
    ensures { IsLevel feeds.now }
{
    level_is_none_lagging();
    assert!(rt; feeds.lagging().is_none());
}

// A cycle whose start is stopped in this call.
pub(crate) fn stopped(rt: &impl Abort, alloc: Global, call: u32) -> CycleInput
    requires { call ≤ 6 }
    ensures { IsCycleInput result }
{
    let feeds = Feeds::new(alloc);
    assert_level(rt, &feeds);
    CycleInput {
        start_stop: call,
        feeds,
        stop: 0,
    }
}

// A cycle with an event that is taken, locked and done, stopped in this call.
pub(crate) fn fired(rt: &impl Abort, alloc: Global, stop: u32) -> Result<CycleInput, Fail>
    ensures { IfOk result IsCycleInput }
{
    let feeds = fired_feeds(alloc, 200)?;
    assert_level(rt, &feeds);
    Ok(CycleInput {
        start_stop: 0,
        feeds,
        stop,
    })
}

// A cycle ran with this number, and acknowledged this.
fn assert_ran(
    rt: &impl Abort,
    report: &CycleReport,
    number: u32,
    stopped: Option<u32>,
    acks: &[Ack],
) {
    match report {
        CycleReport::Ran {
            number: ran,
            stopped: at,
            log,
        } => {
            assert_eq!(rt; *ran, number);
            assert_eq!(rt; *at, stopped);
            assert_eq!(rt; log.acks(), acks);
        }
        CycleReport::StartStopped { .. } => assert!(rt; false),
    }
}

// The event in bank 1, which alone has one.
fn only_event(rt: &impl Abort, banks: &Banks, alloc: Global) -> Result<Record, Fail> {
    let found = banks.retrieve(alloc)?;
    assert_eq!(rt; found.len(), 1);
    assert_eq!(rt; found[0].bank, 1);
    match found[0].view {
        BankView::Event(record) => Ok(record),
        _ => Err("an event".into()),
    }
}

// The count of a memory, and the event in bank 1, which alone has one.
pub(crate) fn kept_event(
    rt: &impl Abort,
    alloc: Global,
    memory: &mut MemNvm,
) -> Result<(u32, Record), Fail> {
    let banks = Banks::open(alloc, memory)?;
    let record = only_event(rt, &banks, alloc)?;
    Ok((banks.count(), record))
}

// A run of a cycle that is stopped in its fifth call, over a memory with this pick.
fn check_stopped(rt: &impl Abort, alloc: Global, pick: u64, acks: &[Ack]) -> Result<(), Fail> {
    let mut memory = formatted(alloc, pick)?;
    let cycles = [fired(rt, alloc, 5)?];
    let reports = replay(alloc, &mut memory, &cycles)?;
    assert_eq!(rt; reports.len(), 1);
    assert_ran(rt, &reports[0], 1, Some(5), acks);
    let (count, record) = kept_event(rt, alloc, &mut memory)?;
    assert_eq!(rt; count, 1);
    assert_eq!(rt; record.locked, pick == 1);
    assert_eq!(rt; record.crash, None);
    Ok(())
}

// The event is taken in four calls, and the fifth opens the gate of its lock.
#[test]
fn stopped_in_a_lock(rt: HostRuntime) -> Result<(), Fail> {
    let alloc = rt.alloc();
    let take = Ack {
        tick: 100,
        kind: Kind::Take,
        applied: Applied::Kept { bank: 1 },
    };
    check_stopped(&rt, alloc, 0, &[take])?;
    check_stopped(&rt, alloc, 1, &[take])
}
