//! What the threads of a cycle have done before their join, since no clause refuses threads that leave all of it to the closing
//! path; and a cycle that ends, since no clause refuses threads that wait for each other for ever.
ghost use Rattle.std.specs.Prelude.{◌≤◌, IfOk, length};
ghost use Rattle.std.specs.Arc.{arc_value};
ghost use Rattle.edr_device.specs.Memory.{memory_image};
ghost use Rattle.edr_items.specs.SensorLists.{IsLevel};
ghost use Rattle.edr_tests.specs.Ready.{IsReadyOver};

use crate::dealt_sensors::{STEADY, fired_feeds, give};
use crate::runs::{assert_level, formatted};
use edr_cycle::{Books, start};
use edr_device::MemNvm;
use edr_drive::beginning::{OpenedCycle, begin, ends_of};
use edr_drive::committer::CommitterDesk;
use edr_drive::drive_cycle;
use edr_drive::threads::{Crew, HandedBack, Undealt, with_workers};
use edr_items::{Feeds, Sensor};
use edr_loops::{Desk, Gate};
use std::alloc::Global;
use std::process::Abort;
use std::sync::atomic::{AtomicU64, Ordering};
use std::sync::{Arc, Wait};
use std::test::Fail;
use std::thread::Threads;

// A gate that lets every item pass. It counts them, and the parts of the time zero 100 that are sent.
#[derive(Drop)]
pub(crate) struct Counting {
    passed: AtomicU64,
    served: AtomicU64,
}

impl Gate for Counting {
    fn pass(&self, _sensor: u8, _nth: u32) {
        self.passed.fetch_add(1, Ordering::SeqCst);
    }

    fn served(&self, _sensor: u8, zero: u32) {
        if zero == 100 {
            self.served.fetch_add(1, Ordering::SeqCst);
        }
    }
}

pub(crate) fn new_gate(alloc: Global) -> Result<Arc<Counting>, Fail> {
    let gate = Counting {
        passed: AtomicU64::new(0),
        served: AtomicU64::new(0),
    };
    Ok(Arc::new(alloc, gate)?)
}

// Feeds that threads share.
fn share(alloc: Global, feeds: Feeds) -> Result<Arc<Feeds>, Fail>
    requires { IsLevel feeds }
    ensures { IfOk result (λ f. IsLevel (arc_value f)) }
{
    Ok(Arc::new(alloc, feeds)?)
}

// The same, of which it is asserted that they are level.
pub(crate) fn level(rt: &impl Abort, alloc: Global, feeds: Feeds) -> Result<Arc<Feeds>, Fail>
    ensures { IfOk result (λ f. IsLevel (arc_value f)) }
{
    assert_level(rt, &feeds);
    share(alloc, feeds)
}

// The axes and the restraints go on for 400 ms past the last items of the slow sensors, by more items than a ring has room for.
fn longer_feeds(alloc: Global) -> Result<Feeds, Fail> {
    let mut feeds = fired_feeds(alloc, 600)?;
    for tick in 601..=1000 {
        give(&mut feeds, tick, &STEADY)?;
        if tick % 100 == 0 {
            give(&mut feeds, tick, &[(Sensor::Restraint, None)])?;
        }
    }
    Ok(feeds)
}

// A cycle by this number of workers ends.
fn check_end<R: Threads + Wait + Abort + Copy + Send + 'static>(
    rt: &R,
    alloc: Global,
    feeds: &Arc<Feeds>,
    workers: u8,
) -> Result<(), Fail>
    requires level { IsLevel (arc_value feeds.now) }
    requires workers { (1 ≤ workers) × (workers ≤ 8) }
{
    let mut memory = formatted(alloc, 0)?;
    let gate = new_gate(alloc)?;
    let started = start(alloc, &mut memory, feeds.horizon())?;
    let end = drive_cycle(rt, alloc, started, feeds, workers, &mut memory, &gate)?;
    assert!(rt; !end.failed);
    Ok(())
}

// A worker that ended at the horizon would leave items for which the recorder waits.
#[test]
fn items_past_the_horizon_hold_nobody_up(rt: HostRuntime) -> Result<(), Fail> {
    let alloc = rt.alloc();
    let feeds = level(&rt, alloc, longer_feeds(alloc)?)?;
    assert_eq!(rt; feeds.horizon(), 600);
    check_end(&rt, alloc, &feeds, 1)?;
    check_end(&rt, alloc, &feeds, 2)
}

// Every item was offered, and each slow sensor sent the part of the only time zero.
fn assert_offered(rt: &impl Abort, gate: &Counting) {
    assert_eq!(rt; gate.passed.load(Ordering::SeqCst), 2060);
    assert_eq!(rt; gate.served.load(Ordering::SeqCst), 5);
}

// Every item was taken, and every tick was closed and posted.
fn assert_recorded(rt: &impl Abort, desk: &Option<Desk>, feeds: &Feeds) {
    let Some(desk) = desk else {
        assert!(rt; false);
        return;
    };
    let ends = ends_of(feeds);
    assert_eq!(rt; desk.last, ends);
    assert_eq!(rt; (desk.core.closed(), desk.posted), (1000, 1000));
}

// Every order was committed.
fn assert_committed(rt: &impl Abort, back: &HandedBack, committer: &mut CommitterDesk<Books>) {
    assert!(rt; committer.inbox.take().is_none());
    assert!(rt; back.committed.is_ok());
    assert_eq!(rt; committer.ledger.log.acks().len(), 3);
}

// What a cycle of feeds that end at this horizon begins with.
fn begun(alloc: Global, memory: &mut MemNvm, horizon: u32) -> Result<OpenedCycle, Fail>
    ensures { IfOk result (IsReadyOver (length (memory_image memory.new))) }
{
    let started = start(alloc, memory, horizon)?;
    let beginning = begin(alloc, started)?;
    Ok(beginning)
}

// The threads of a cycle have done all of its work before their join.
fn check_join<R: Threads + Wait + Abort + Copy + Send + 'static>(
    crew: &Crew<'_, R, Counting>,
    beginning: OpenedCycle,
    memory: &mut MemNvm,
)
    requires { IsReadyOver (length (memory_image memory.old)) beginning }
{
    let mut committer = beginning.committer;
    let recording = beginning.recording;
    let mut desk = Some(recording.desk);
    let undealt = Undealt {
        from: 0,
        senders: recording.senders,
    };
    let back = with_workers(crew, undealt, &mut desk, &mut committer, memory);
    assert_offered(crew.rt, crew.gate);
    assert_recorded(crew.rt, &desk, crew.feeds);
    assert_committed(crew.rt, &back, &mut committer);
}

// A cycle by this number of workers.
fn check_threads<R: Threads + Wait + Abort + Copy + Send + 'static>(
    rt: &R,
    alloc: Global,
    feeds: &Arc<Feeds>,
    workers: u32,
) -> Result<(), Fail> {
    let mut memory = formatted(alloc, 0)?;
    let gate = new_gate(alloc)?;
    let beginning = begun(alloc, &mut memory, feeds.horizon())?;
    let crew = Crew {
        rt,
        workers,
        gate: &gate,
        feeds,
    };
    check_join(&crew, beginning, &mut memory);
    Ok(())
}

#[test]
fn the_threads_do_the_work(rt: HostRuntime) -> Result<(), Fail> {
    let alloc = rt.alloc();
    let feeds = level(&rt, alloc, fired_feeds(alloc, 1000)?)?;
    for workers in [1u32, 3, 8] {
        check_threads(&rt, alloc, &feeds, workers)?;
    }
    Ok(())
}
