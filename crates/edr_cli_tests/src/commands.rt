//! Whole runs of the top call, over sources, sinks and memories in memory.
ghost use Rattle.std.specs.Prelude.{◌<◌, ◌^◌, length};

mod audits;
mod cuts;
mod dialogs;
mod driven;
mod drives;
mod every_call;
mod expected;
mod faults;
mod formats;
mod generated;
mod lives;

use edr_cli::{Status, Words, command};
use edr_device::{MemNvm, MemSink, MemSource};
use std::alloc::{AllocError, Global};
use std::process::Abort;
use std::test::Fail;

// A run: what it is given beside the memory, and what it is to answer.
#[derive(Clone, Copy)]
struct CommandRun<'a> {
    words: &'a [&'a str],
    trace: &'a [u8],
    status: Status,
    output: &'a str,
}

// How a source gives its bytes and a sink takes them. A piece of 0 bytes counts as one of 1 byte.
#[derive(Clone, Copy)]
struct Streams<'a> {
    source_piece: usize,
    source_fails: &'a [u32],
    sink_room: usize,
    sink_piece: usize,
    sink_fails: &'a [u32],
}

const SOUND: Streams<'static> = Streams {
    source_piece: 10_000,
    source_fails: &[],
    sink_room: 20_000,
    sink_piece: 20_000,
    sink_fails: &[],
};

// A replay that ends with Ok and this report.
const fn replayed<'a>(trace: &'a str, output: &'a str) -> CommandRun<'a> {
    CommandRun {
        words: &["replay"],
        trace: trace.as_bytes(),
        status: Status::Ok,
        output,
    }
}

// A run without a trace.
const fn run_of<'a>(words: &'a [&'a str], status: Status, output: &'a str) -> CommandRun<'a> {
    CommandRun {
        words,
        trace: b"",
        status,
        output,
    }
}

// How many bytes the memory of most runs has: as many as an image of three banks.
const SIZE: usize = 3_168;

const KEEP: u8 = 0;

const OVERWRITE: u8 = 1;

// A new image, in the bytes of the memory of most runs.
fn new_image(banks: u8, choice: u8) -> [u8; SIZE] {
    let mut image = [0; SIZE];
    image[..10].copy_from_slice(b"EDRIMAGE\x00\x02".as_slice());
    image[10] = banks;
    image[11] = choice;
    image
}

// A memory with these bytes, in which these changing calls fail, and a pick for its power cuts.
fn memory_of(alloc: Global, image: &[u8], fails: &[u32], pick: u64) -> Result<MemNvm, AllocError>
    requires { length image.now < 2 ^ 32 }
{
    let image = image.to_vec(alloc)?;
    let fails = fails.to_vec(alloc)?;
    MemNvm::new(alloc, image, 400, fails, Vec::new(alloc), pick)
}

// A new memory with two banks that keep.
fn kept_memory(alloc: Global) -> Result<MemNvm, AllocError> {
    memory_of(alloc, &new_image(2, KEEP), &[], 0)
}

// A new memory with two banks that keep, in which this read fails.
fn unread_memory(alloc: Global, read: u32) -> Result<MemNvm, AllocError> {
    let image = new_image(2, KEEP).to_vec(alloc)?;
    let reads = [read].to_vec(alloc)?;
    MemNvm::new(alloc, image, 100, Vec::new(alloc), reads, 0)
}

fn words_of(alloc: Global, texts: &[&str]) -> Result<Words, AllocError> {
    let mut words = Words::new(alloc);
    for text in texts {
        words.push(text)?;
    }
    Ok(words)
}

// A source that gives this trace.
fn source_of(alloc: Global, trace: &[u8], streams: Streams<'_>) -> Result<MemSource, AllocError> {
    let fails = streams.source_fails.to_vec(alloc)?;
    let trace = trace.to_vec(alloc)?;
    Ok(MemSource::new(trace, streams.source_piece.max(1), fails))
}

// A sink that has no bytes yet.
fn sink_of(alloc: Global, streams: Streams<'_>) -> Result<MemSink, AllocError> {
    let fails = streams.sink_fails.to_vec(alloc)?;
    MemSink::new(alloc, streams.sink_room, streams.sink_piece.max(1), fails)
}

// A call answers as it is to, over such streams.
fn check_streams<R: Abort + AllocGlobal>(
    rt: &R,
    run: CommandRun<'_>,
    streams: Streams<'_>,
    memory: &mut MemNvm,
) -> Result<(), Fail> {
    let alloc = rt.alloc();
    let words = words_of(alloc, run.words)?;
    let mut source = source_of(alloc, run.trace, streams)?;
    let mut sink = sink_of(alloc, streams)?;
    let status = command(alloc, &words, &mut source, &mut sink, memory);
    assert_eq!(rt; str::from_utf8(sink.bytes()), Ok(run.output));
    assert_eq!(rt; status, run.status);
    Ok(())
}

// A call answers as it is to, over streams without faults.
fn check_run<R: Abort + AllocGlobal>(
    rt: &R,
    run: CommandRun<'_>,
    memory: &mut MemNvm,
) -> Result<(), Fail> {
    check_streams(rt, run, SOUND, memory)
}

// A memory is reported so.
fn check_report<R: Abort + AllocGlobal>(
    rt: &R,
    report: &str,
    memory: &mut MemNvm,
) -> Result<(), Fail> {
    check_run(rt, run_of(&["report"], Status::Ok, report), memory)
}

#[test]
fn each_status_has_its_code(rt: HostRuntime) {
    let codes = [
        (Status::Ok, 0),
        (Status::Usage, 2),
        (Status::Trace, 3),
        (Status::ReadFault, 4),
        (Status::WriteFault, 5),
        (Status::StoreFault, 6),
        (Status::Image, 7),
        (Status::Spent, 8),
        (Status::OutOfMemory, 9),
        (Status::TooLong, 10),
        (Status::OldImage, 11),
        (Status::Dialog, 12),
        (Status::Audit, 13),
        (Status::Fleet, 14),
    ];
    for (status, code) in codes {
        assert_eq!(rt; status.code(), code);
    }
}
