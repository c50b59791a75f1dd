//! Runs by threads beside a reader: the report of the same run on one thread, and then a line for each cycle that ran.

use super::driven::{AlwaysOpen, outside_of, serve_alone, serve_driven, sound};
use super::drives::{DEPLOYED, quiet, struck, trace_of};
use super::{KEEP, new_image, words_of};
use edr_cli::Status;
use std::alloc::{AllocError, Global};
use std::process::Abort;
use std::sync::{Arc, Wait};
use std::test::Fail;
use std::thread::Threads;

// The report of the trace over a new image, by `replay`.
fn replayed(alloc: Global, trace: &[u8]) -> Result<Vec<u8>, AllocError> {
    let image = new_image(2, KEEP);
    let words = words_of(alloc, &["replay"])?;
    let mut outside = outside_of(alloc, sound(trace, &image))?;
    let _ = serve_alone(alloc, &words, &mut outside);
    outside.sink.bytes().to_vec(alloc)
}

// By so many workers the trace is reported so, and with these lines after that.
fn check_lines<R: Threads + Wait + Abort + Copy + Send + Sync + 'static>(
    rt: &R,
    alloc: Global,
    trace: &[u8],
    workers: &str,
    lines: &str,
) -> Result<(), Fail> {
    let mut expected = replayed(alloc, trace)?;
    expected.extend_from_slice(lines.as_bytes())?;
    let image = new_image(2, KEEP);
    let words = words_of(alloc, &["drive", workers, "live"])?;
    let mut outside = outside_of(alloc, sound(trace, &image))?;
    let gate = Arc::new(alloc, AlwaysOpen {})?;
    let status = serve_driven(rt, alloc, &words, &mut outside, &gate);
    assert_eq!(rt;
        str::from_utf8(outside.sink.bytes()),
        str::from_utf8(&expected)
    );
    assert_eq!(rt; status, Status::Ok);
    Ok(())
}

#[test]
fn cycles_have_their_lines(rt: HostRuntime) -> Result<(), Fail> {
    let alloc = rt.alloc();
    let trace = trace_of(alloc, &[struck(27_000), quiet(300)])?;
    let lines = "live: cycle 1, 2 commands, 1 events\nlive: cycle 2, 0 commands, 1 events\n";
    check_lines(&rt, alloc, trace.as_bytes(), "1", lines)?;
    check_lines(&rt, alloc, trace.as_bytes(), "8", lines)
}

// Two locked events leave no bank for a third.
#[test]
fn commands_that_keep_nothing_are_counted(rt: HostRuntime) -> Result<(), Fail> {
    let alloc = rt.alloc();
    let trace = trace_of(alloc, &[DEPLOYED, DEPLOYED, DEPLOYED])?;
    let lines =
        "live: cycle 1, 3 commands, 1 events\nlive: cycle 2, 3 commands, 2 events\nlive: cycle 3, 3 commands, 2 events\n";
    check_lines(&rt, alloc, trace.as_bytes(), "8", lines)
}

// A start that is stopped has no line, and counts among the cycles.
#[test]
fn stopped_starts_have_no_line(rt: HostRuntime) -> Result<(), Fail> {
    let trace = b"on,2,\non,0,\ncut,0,\n";
    check_lines(
        &rt,
        rt.alloc(),
        trace,
        "2",
        "live: cycle 2, 0 commands, 0 events\n",
    )
}
