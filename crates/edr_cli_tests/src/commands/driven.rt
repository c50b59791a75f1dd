//! Faults of runs by threads beside those of the same runs on one thread; and what no clause tells of a drive: that all eight sensors
//! are served at once where there are eight workers, and that the slow sensors are asked for their parts.

use super::drives::{DEPLOYED, quiet, struck, trace_of};
use super::{KEEP, SIZE, SOUND, Streams, memory_of, new_image, sink_of, source_of, words_of};
use edr_cli::{Status, Words, command, drive};
use edr_device::{MemNvm, MemSink, MemSource};
use edr_drive::Gate;
use std::alloc::{AllocError, Global};
use std::process::Abort;
use std::sync::atomic::{AtomicU64, Ordering};
use std::sync::{Arc, Wait};
use std::test::Fail;
use std::thread;
use std::thread::Threads;

/// A gate that lets every item pass.
#[derive(Drop)]
pub(super) struct AlwaysOpen {}

impl Gate for AlwaysOpen {
    fn pass(&self, _sensor: u8, _nth: u32) {}
}

// What is reported of an image of one byte and of a new one.
const FLEET: &str =
    "image 1: short 1 of 96\nimage 2: count 0, events 0, locked 0, complete 0, damaged 0\nimages: 2\nevents: 0\n";

/// A run: its trace, the bytes of its memory, which calls of its source and which changing calls of its memory fail, and the
/// status that it is to end with.
#[derive(Clone, Copy)]
pub(super) struct Case<'a> {
    trace: &'a [u8],
    image: &'a [u8; SIZE],
    source_fails: &'a [u32],
    memory_fails: &'a [u32],
    status: Status,
}

// What a run comes to: its status, its text, and the bytes of its memory.
#[derive(Drop)]
struct RunOutcome {
    status: Status,
    text: Vec<u8>,
    image: Vec<u8>,
}

// The words of a run by so many workers, or on one thread.
fn words_by(alloc: Global, workers: Option<&str>) -> Result<Words, AllocError> {
    match workers {
        Some(workers) => words_of(alloc, &["drive", workers]),
        None => words_of(alloc, &["replay"]),
    }
}

/// What a run is given beside its words.
#[derive(Drop)]
pub(super) struct Outside {
    source: MemSource,
    pub(super) sink: MemSink,
    memory: MemNvm,
}

/// The outside of a case.
pub(super) fn outside_of(alloc: Global, case: Case<'_>) -> Result<Outside, AllocError> {
    let streams = Streams {
        source_piece: 1_000,
        source_fails: case.source_fails,
        ..SOUND
    };
    let image = case.image;
    let memory = memory_of(alloc, image, case.memory_fails, 0)?;
    let sink = sink_of(alloc, streams)?;
    let source = source_of(alloc, case.trace, streams)?;
    Ok(Outside {
        source,
        sink,
        memory,
    })
}

/// Runs on one thread, and gives the status.
pub(super) fn serve_alone(alloc: Global, words: &Words, outside: &mut Outside) -> Status {
    let Outside {
        source,
        sink,
        memory,
    } = outside;
    command(alloc, words, source, sink, memory)
}

/// Runs by threads at this gate, and gives the status.
pub(super) fn serve_driven<
    R: Threads + Wait + Copy + Send + Sync + 'static,
    G: Gate + Drop + Send + Sync + 'static,
>(rt: &R, alloc: Global, words: &Words, outside: &mut Outside, gate: &Arc<G>) -> Status {
    let Outside {
        source,
        sink,
        memory,
    } = outside;
    drive(rt, alloc, words, source, sink, memory, gate)
}

// What stands in sink and memory after a run.
fn outcome_of(alloc: Global, status: Status, outside: &Outside) -> Result<RunOutcome, AllocError> {
    let text = outside.sink.bytes().to_vec(alloc)?;
    let image = outside.memory.image().to_vec(alloc)?;
    Ok(RunOutcome {
        status,
        text,
        image,
    })
}

// The case by so many workers, or on one thread.
fn run_case<R: Threads + Wait + Copy + Send + Sync + 'static>(
    rt: &R,
    alloc: Global,
    case: Case<'_>,
    workers: Option<&str>,
) -> Result<RunOutcome, AllocError> {
    let words = words_by(alloc, workers)?;
    let mut outside = outside_of(alloc, case)?;
    if workers.is_none() {
        let status = serve_alone(alloc, &words, &mut outside);
        return outcome_of(alloc, status, &outside);
    }
    let gate = Arc::new(alloc, AlwaysOpen {})?;
    let status = serve_driven(rt, alloc, &words, &mut outside, &gate);
    outcome_of(alloc, status, &outside)
}

fn check_same(rt: &impl Abort, driven: &RunOutcome, alone: &RunOutcome) {
    assert_eq!(rt; driven.status, alone.status);
    assert_eq!(rt; driven.text.as_slice(), alone.text.as_slice());
    assert_eq!(rt; driven.image.as_slice(), alone.image.as_slice());
}

// The case comes by 1 worker and by 8 to what it comes to on one thread.
fn check_driven<R: Threads + Wait + Abort + Copy + Send + Sync + 'static>(
    rt: &R,
    alloc: Global,
    case: Case<'_>,
) -> Result<(), Fail> {
    let alone = run_case(rt, alloc, case, None)?;
    assert_eq!(rt; alone.status, case.status);
    for workers in ["1", "8"] {
        let driven = run_case(rt, alloc, case, Some(workers))?;
        check_same(rt, &driven, &alone);
    }
    Ok(())
}

/// A run of this trace over a new image, without faults.
pub(super) fn sound<'a>(trace: &'a [u8], image: &'a [u8; SIZE]) -> Case<'a> {
    Case {
        trace,
        image,
        source_fails: &[],
        memory_fails: &[],
        status: Status::Ok,
    }
}

// A trace, an image, a source and a memory that are at fault.
#[test]
fn faults_by_threads_are_told_as_on_one_thread(rt: HostRuntime) -> Result<(), Fail> {
    let alloc = rt.alloc();
    let trace = trace_of(alloc, &[quiet(300), quiet(300)])?;
    let image = new_image(2, KEEP);
    let zeros = [0; SIZE];
    let case = sound(trace.as_bytes(), &image);
    let faulty = [
        Case {
            trace: b"on,0,\nhorn,1,2\n",
            status: Status::Trace,
            ..case
        },
        Case {
            image: &zeros,
            status: Status::Image,
            ..case
        },
        Case {
            source_fails: &[2],
            status: Status::ReadFault,
            ..case
        },
        Case {
            memory_fails: &[10],
            status: Status::StoreFault,
            ..case
        },
    ];
    for case in faulty {
        check_driven(&rt, alloc, case)?;
    }
    Ok(())
}

// The memory fails in one of the changing calls of a deployment's commands, in the committer, while the other threads run.
#[test]
fn faults_in_the_committer_are_told_as_on_one_thread(rt: HostRuntime) -> Result<(), Fail> {
    let alloc = rt.alloc();
    let trace = trace_of(alloc, &[DEPLOYED])?;
    let image = new_image(2, KEEP);
    for call in 8..=17u32 {
        let case = Case {
            memory_fails: &[call],
            status: Status::StoreFault,
            ..sound(trace.as_bytes(), &image)
        };
        check_driven(&rt, alloc, case)?;
    }
    Ok(())
}

// A gate at which the first items of the first so many sensors wait for each other. It counts which have come, and which of them
// have seen all come.
#[derive(Drop)]
struct Meeting {
    sensors: u8,
    come: AtomicU64,
    met: AtomicU64,
}

impl Meeting {
    fn of(sensors: u8) -> Meeting {
        Meeting {
            sensors,
            come: AtomicU64::new(0),
            met: AtomicU64::new(0),
        }
    }
}

impl Gate for Meeting {
    // An item that has come waits for those of the other sensors, not for ever.
    fn pass(&self, sensor: u8, nth: u32) {
        if sensor > self.sensors || nth != 1 {
            return;
        }
        self.come.fetch_add(1, Ordering::SeqCst);
        for _turn in 0..10_000_000u32 {
            if self.come.load(Ordering::SeqCst) == u64::from(self.sensors) {
                self.met.fetch_add(1, Ordering::SeqCst);
                break;
            }
            thread::yield_now();
        }
    }
}

// A run of a crash by eight workers, at this gate.
fn drive_struck<
    R: Threads + Wait + Abort + Copy + Send + Sync + 'static,
    G: Gate + Drop + Send + Sync + 'static,
>(rt: &R, alloc: Global, gate: &Arc<G>) -> Result<(), Fail> {
    let words = words_of(alloc, &["drive", "8"])?;
    let trace = trace_of(alloc, &[struck(27_000)])?;
    let image = new_image(2, KEEP);
    let mut outside = outside_of(alloc, sound(trace.as_bytes(), &image))?;
    let status = serve_driven(rt, alloc, &words, &mut outside, gate);
    assert_eq!(rt; status, Status::Ok);
    Ok(())
}

// So many sensors are served at once, each by a worker of its own.
fn check_meeting<R: Threads + Wait + Abort + Copy + Send + Sync + 'static>(
    rt: &R,
    alloc: Global,
    sensors: u8,
) -> Result<(), Fail> {
    let gate = Arc::new(alloc, Meeting::of(sensors))?;
    drive_struck(rt, alloc, &gate)?;
    assert_eq!(rt; gate.met.load(Ordering::SeqCst), u64::from(sensors));
    Ok(())
}

#[test]
fn second_sensor_passes(rt: HostRuntime) -> Result<(), Fail> {
    check_meeting(&rt, rt.alloc(), 2)
}

// No clause says how many workers a drive has.
#[test]
fn eight_sensors_pass(rt: HostRuntime) -> Result<(), Fail> {
    check_meeting(&rt, rt.alloc(), 8)
}

// A gate that counts the parts that each sensor has sent of the time zero at 26.003 s, and those of other times zero.
#[derive(Drop)]
struct ServedParts {
    speed: AtomicU64,
    throttle: AtomicU64,
    brake: AtomicU64,
    belt: AtomicU64,
    lamp: AtomicU64,
    others: AtomicU64,
}

impl Gate for ServedParts {
    fn pass(&self, _sensor: u8, _nth: u32) {}

    fn served(&self, sensor: u8, zero: u32) {
        let sent = match (sensor, zero) {
            (3, 26_003) => &self.speed,
            (4, 26_003) => &self.throttle,
            (5, 26_003) => &self.brake,
            (6, 26_003) => &self.belt,
            (7, 26_003) => &self.lamp,
            _ => &self.others,
        };
        sent.fetch_add(1, Ordering::SeqCst);
    }
}

// Each slow sensor is asked for its part once. No clause refuses a drive that reads the parts out of its feeds.
#[test]
fn parts_are_served(rt: HostRuntime) -> Result<(), Fail> {
    let alloc = rt.alloc();
    let gate = ServedParts {
        speed: AtomicU64::new(0),
        throttle: AtomicU64::new(0),
        brake: AtomicU64::new(0),
        belt: AtomicU64::new(0),
        lamp: AtomicU64::new(0),
        others: AtomicU64::new(0),
    };
    let gate = Arc::new(alloc, gate)?;
    drive_struck(&rt, alloc, &gate)?;
    for sent in [
        &gate.speed,
        &gate.throttle,
        &gate.brake,
        &gate.belt,
        &gate.lamp,
    ] {
        assert_eq!(rt; sent.load(Ordering::SeqCst), 1);
    }
    assert_eq!(rt; gate.others.load(Ordering::SeqCst), 0);
    Ok(())
}

// These frames are reported by so many workers.
fn check_fleet<R: Threads + Wait + Abort + Copy + Send + Sync + 'static>(
    rt: &R,
    alloc: Global,
    frames: &[u8],
    workers: &str,
) -> Result<(), Fail> {
    let words = words_of(alloc, &["fleet", workers])?;
    let image = new_image(2, KEEP);
    let mut outside = outside_of(alloc, sound(frames, &image))?;
    let gate = Arc::new(alloc, AlwaysOpen {})?;
    let status = serve_driven(rt, alloc, &words, &mut outside, &gate);
    assert_eq!(rt; str::from_utf8(outside.sink.bytes()), Ok(FLEET));
    assert_eq!(rt; status, Status::Ok);
    Ok(())
}

// The frames of an image that is short and of one that is new.
#[test]
fn a_fleet_is_reported(rt: HostRuntime) -> Result<(), Fail> {
    let alloc = rt.alloc();
    let mut frames = Vec::new(alloc);
    frames.extend_from_slice(&[0, 0, 0, 1, 0, 0, 0, 12, 96])?;
    frames.extend_from_slice(&new_image(2, KEEP))?;
    check_fleet(&rt, alloc, &frames, "1")?;
    check_fleet(&rt, alloc, &frames, "2")
}
