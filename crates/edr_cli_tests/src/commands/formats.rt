//! `format` over memories and sinks that fail.

use super::{KEEP, SIZE, SOUND, check_run, check_streams, memory_of, new_image, run_of};
use edr_cli::Status;
use std::test::Fail;

// The barrier is changing call 1; then come three writes and a sync, and byte 0 with its sync.
#[test]
fn a_memory_that_fails_at_any_call_of_a_format_is_told(rt: HostRuntime) -> Result<(), Fail> {
    for fails in 1..=7u32 {
        let mut memory = memory_of(rt.alloc(), &[0; 2_144], &[fails], 0)?;
        let words = ["format", "2", "keep"];
        let fault = run_of(&words, Status::StoreFault, "fault: store fault\n");
        check_run(&rt, fault, &mut memory)?;
        assert_eq!(rt; memory.image().starts_with(b"E".as_slice()), fails == 7);
    }
    let mut memory = memory_of(rt.alloc(), &[0; 2_144], &[8], 0)?;
    let line = "formatted: 2 banks, keep\n";
    let formatted = run_of(&["format", "2", "keep"], Status::Ok, line);
    check_run(&rt, formatted, &mut memory)
}

#[test]
fn a_sink_that_fails_has_a_part_of_the_line_of_a_format(rt: HostRuntime) -> Result<(), Fail> {
    let mut memory = memory_of(rt.alloc(), &[0; SIZE], &[], 0)?;
    let mut streams = SOUND;
    streams.sink_piece = 10;
    streams.sink_fails = &[2];
    let words = ["format", "2", "keep"];
    let part = run_of(&words, Status::WriteFault, "formatted:");
    check_streams(&rt, part, streams, &mut memory)?;
    assert_eq!(rt; memory.image(), new_image(2, KEEP).as_slice());
    Ok(())
}
