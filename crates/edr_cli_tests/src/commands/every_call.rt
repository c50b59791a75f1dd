//! Replays of one deployment, in each of which one call of the outside fails.

use super::drives::{DEPLOYED, trace_of};
use super::expected::{COUNTED_ONE, DEPLOYED_CYCLE, NOT_DONE, bag_event, changed, joined};
use super::{
    CommandRun, KEEP, SOUND, Streams, check_report, check_run, check_streams, kept_memory,
    memory_of, new_image, replayed, unread_memory,
};
use edr_cli::Status;
use edr_device::{MemNvm, Nvm};
use std::alloc::{AllocError, Global};
use std::process::Abort;
use std::test::Fail;

// The whole report of the deployment.
fn whole_report(alloc: Global) -> Result<String, AllocError> {
    let event = bag_event(alloc)?;
    joined(alloc, &[DEPLOYED_CYCLE, &event, COUNTED_ONE])
}

// A replay of the trace that ends with this fault.
fn faulty<'a>(trace: &'a str, status: Status, line: &'a str) -> CommandRun<'a> {
    CommandRun {
        status,
        ..replayed(trace, line)
    }
}

// What the memory holds after a fault in this changing call and a power cut. The barrier is call 1; the number is counted
// in 2 to 7; the bank is filled in 8 to 11, locked in 12 and 13, and done in 14 to 17.
fn left(alloc: Global, call: u32) -> Result<String, AllocError> {
    let taken = changed(alloc, &bag_event(alloc)?, &NOT_DONE)?;
    let event = match call {
        0..=11 => String::new(alloc),
        12..=13 => changed(alloc, &taken, &[("deployment event", "no")])?,
        _ => taken,
    };
    let count = if call >= 8 { 1 } else { 0 };
    format!(in alloc; "{event}ignition cycle, download: {count}\n")
}

// Where no call of the replay fails, its report is the whole one.
fn check_whole<R: Abort + AllocGlobal>(
    rt: &R,
    trace: &str,
    streams: Streams<'_>,
    memory: &mut MemNvm,
) -> Result<(), Fail> {
    let report = whole_report(rt.alloc())?;
    check_streams(rt, replayed(trace, &report), streams, memory)
}

// A replay in which this changing call fails is told, and leaves what it is to after a power cut.
fn check_changing_call<R: Abort + AllocGlobal>(rt: &R, trace: &str, call: u32) -> Result<(), Fail> {
    let fault = faulty(trace, Status::StoreFault, "fault: store fault\n");
    let mut memory = memory_of(rt.alloc(), &new_image(2, KEEP), &[call], 0)?;
    check_run(rt, fault, &mut memory)?;
    memory.power_cycle()?;
    check_report(rt, &left(rt.alloc(), call)?, &mut memory)
}

#[test]
fn each_changing_call_fails_once(rt: HostRuntime) -> Result<(), Fail> {
    let trace = trace_of(rt.alloc(), &[DEPLOYED])?;
    for call in 1..=17u32 {
        check_changing_call(&rt, &trace, call)?;
    }
    let mut memory = memory_of(rt.alloc(), &new_image(2, KEEP), &[18], 0)?;
    check_whole(&rt, &trace, SOUND, &mut memory)
}

// The report of the memory that has the whole record.
fn recorded(alloc: Global) -> Result<String, AllocError> {
    let event = bag_event(alloc)?;
    joined(alloc, &[&event, COUNTED_ONE])
}

// A replay in which this read fails is told, and leaves a memory that is reported so.
fn check_read<R: Abort + AllocGlobal>(
    rt: &R,
    trace: &str,
    read: u32,
    report: &str,
) -> Result<(), Fail> {
    let fault = faulty(trace, Status::StoreFault, "fault: store fault\n");
    let mut memory = unread_memory(rt.alloc(), read)?;
    check_run(rt, fault, &mut memory)?;
    check_report(rt, report, &mut memory)
}

// The front of the image and each bank is read before the first cycle, at its start, which looks at the front once more,
// and after it. What fails after the cycle leaves its whole record.
#[test]
fn each_read_fails_once(rt: HostRuntime) -> Result<(), Fail> {
    let trace = trace_of(rt.alloc(), &[DEPLOYED])?;
    for read in 1..=7u32 {
        check_read(&rt, &trace, read, "ignition cycle, download: 0\n")?;
    }
    let whole = recorded(rt.alloc())?;
    for read in 8..=10u32 {
        check_read(&rt, &trace, read, &whole)?;
    }
    check_whole(&rt, &trace, SOUND, &mut unread_memory(rt.alloc(), 11)?)
}

// A source that gives 50,000 bytes in each call, and fails in these.
const fn giving(fails: &[u32]) -> Streams<'_> {
    Streams {
        source_piece: 50_000,
        source_fails: fails,
        ..SOUND
    }
}

// A replay in which this call of the source fails is told, and leaves the memory as it was.
fn check_source<R: Abort + AllocGlobal>(rt: &R, trace: &str, call: u32) -> Result<(), Fail> {
    let fault = faulty(trace, Status::ReadFault, "fault: read fault\n");
    let mut memory = kept_memory(rt.alloc())?;
    check_streams(rt, fault, giving(&[call]), &mut memory)?;
    assert_eq!(rt; memory.image(), new_image(2, KEEP).as_slice());
    Ok(())
}

// The trace has 810,169 bytes, and each call takes 50,000; one more finds its end.
#[test]
fn each_call_of_the_source_fails_once(rt: HostRuntime) -> Result<(), Fail> {
    let trace = trace_of(rt.alloc(), &[DEPLOYED])?;
    for call in 1..=18u32 {
        check_source(&rt, &trace, call)?;
    }
    check_whole(&rt, &trace, giving(&[19]), &mut kept_memory(rt.alloc())?)
}

// A sink that takes 300 bytes in each call, and fails in this one. The memory is reported so.
fn check_sink<R: Abort + AllocGlobal>(
    rt: &R,
    run: CommandRun<'_>,
    call: u32,
    report: &str,
) -> Result<(), Fail> {
    let streams = Streams {
        sink_piece: 300,
        sink_fails: &[call],
        ..SOUND
    };
    let mut memory = kept_memory(rt.alloc())?;
    check_streams(rt, run, streams, &mut memory)?;
    check_report(rt, report, &mut memory)
}

// The report has 2,978 bytes, and each call takes 300. The memory has the whole record, whichever call fails.
#[test]
fn each_call_of_the_sink_fails_once(rt: HostRuntime) -> Result<(), Fail> {
    let trace = trace_of(rt.alloc(), &[DEPLOYED])?;
    let whole = whole_report(rt.alloc())?;
    let report = recorded(rt.alloc())?;
    for call in 1..=10u32 {
        let before = whole.get(..300 * (call as usize - 1)).unwrap_or("");
        check_sink(
            &rt,
            faulty(&trace, Status::WriteFault, before),
            call,
            &report,
        )?;
    }
    check_sink(&rt, replayed(&trace, &whole), 11, &report)
}
