//! Sources, sinks and memories that fail, and a source that gives too much.
ghost use Rattle.std.specs.Prelude.{◌≤◌};
ghost use Rattle.edr_device.specs.Faults.{last_number};

use super::drives::{struck, trace_of};
use super::{
    KEEP, SOUND, Streams, check_report, check_run, check_streams, kept_memory, memory_of,
    new_image, replayed, run_of, unread_memory, words_of,
};
use edr_cli::{Status, command};
use edr_device::{Failed, MemNvm, MemSink, Source};
use std::process::Abort;
use std::test::Fail;

const SHORT_TRACE: &str = "on,0,\nalong,1,0\nacross,1,0\nspeed,1,\ncut,0,\n";

const SHORT_REPORT: &str = "cycle 1: number 1, power off\nignition cycle, download: 1\n";

#[test]
fn pieces_make_no_difference(rt: HostRuntime) -> Result<(), Fail> {
    for piece in [1usize, 2, 7, 1000] {
        let mut streams = SOUND;
        streams.source_piece = piece;
        streams.sink_piece = piece;
        let run = replayed(SHORT_TRACE, SHORT_REPORT);
        check_streams(&rt, run, streams, &mut kept_memory(rt.alloc())?)?;
    }
    Ok(())
}

#[test]
fn a_sink_that_is_full_has_the_first_bytes(rt: HostRuntime) -> Result<(), Fail> {
    let trace = trace_of(rt.alloc(), &[struck(27_000)])?;
    let mut fault = replayed(&trace, "cycle 1: n");
    fault.status = Status::WriteFault;
    let streams = Streams {
        sink_room: 10,
        ..SOUND
    };
    check_streams(&rt, fault, streams, &mut kept_memory(rt.alloc())?)
}

// The first report fails, and the second has no event.
fn check_fault_of_report<R: Abort + AllocGlobal>(rt: &R, memory: &mut MemNvm) -> Result<(), Fail> {
    let fault = run_of(&["report"], Status::StoreFault, "fault: store fault\n");
    check_run(rt, fault, memory)?;
    check_report(rt, "ignition cycle, download: 0\n", memory)
}

#[test]
fn a_barrier_that_fails_is_told_by_a_report(rt: HostRuntime) -> Result<(), Fail> {
    let mut memory = memory_of(rt.alloc(), &new_image(2, KEEP), &[1], 0)?;
    check_fault_of_report(&rt, &mut memory)
}

// The front of the image and each of its two banks is read in a call of its own.
#[test]
fn a_read_that_fails_is_told(rt: HostRuntime) -> Result<(), Fail> {
    for fails in 1..=3u32 {
        check_fault_of_report(&rt, &mut unread_memory(rt.alloc(), fails)?)?;
    }
    Ok(())
}

// A source of so many zero bytes, which does not tell them.
#[derive(Drop)]
struct Zeros {
    left: usize,
    faults: u64,
    ghost faults_within: { faults ≤ last_number },
}

impl Source for Zeros {
    ghost use Rattle.std.specs.Prelude.{None};

    ghost left = { λ z. None };

    ghost faults = { λ z. z.faults };

    ghost faults_fit = { λ z. z.faults_within };

    fn take(&mut self, into: &mut [u8]) -> Result<usize, Failed> {
        let n = self.left.min(into.len());
        into[..n].fill(0);
        self.left -= n;
        Ok(n)
    }
}

// A replay of so many zero bytes over a new image, and what is told of them.
fn check_zeros<R: Abort + AllocGlobal>(
    rt: &R,
    left: usize,
    status: Status,
    line: &str,
) -> Result<(), Fail> {
    let alloc = rt.alloc();
    let mut source = Zeros { left, faults: 0 };
    let words = words_of(alloc, &["replay"])?;
    let mut sink = MemSink::new(alloc, 100, 100, Vec::new(alloc))?;
    let mut memory = kept_memory(alloc)?;
    let told = command(alloc, &words, &mut source, &mut sink, &mut memory);
    assert_eq!(rt; told, status);
    assert_eq!(rt; sink.bytes(), line.as_bytes());
    assert_eq!(rt; memory.image(), new_image(2, KEEP).as_slice());
    Ok(())
}

// As many bytes as a trace may have are read to the fault of their one row.
#[test]
fn a_source_that_gives_the_most_is_read(rt: HostRuntime) -> Result<(), Fail> {
    check_zeros(
        &rt,
        67_108_864,
        Status::Trace,
        "fault: trace row 1: fields 1\n",
    )
}

// One byte more than a trace may have.
#[test]
fn a_source_that_gives_too_much_is_told(rt: HostRuntime) -> Result<(), Fail> {
    check_zeros(&rt, 67_108_865, Status::TooLong, "fault: too long\n")
}
