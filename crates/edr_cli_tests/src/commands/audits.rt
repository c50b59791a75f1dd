//! An audit with ample memory: a start that is stopped in call 5, over a new image.

use super::{CommandRun, KEEP, check_run, kept_memory, new_image};
use edr_cli::Status;
use std::alloc::{AllocError, Global};
use std::test::Fail;

const REPORT: &str = "cycle 1: start stopped in call 5\nignition cycle, download: 0\n";

// What is audited, with this report.
fn pieces_with(alloc: Global, report: &str) -> Result<Vec<u8>, AllocError> {
    let mut pieces = b"3168 6\n".to_vec(alloc)?;
    pieces.extend_from_slice(&new_image(2, KEEP))?;
    pieces.extend_from_slice(b"on,5,\n")?;
    pieces.extend_from_slice(report.as_bytes())?;
    Ok(pieces)
}

// An audit of these pieces.
const fn audit_of<'a>(pieces: &'a [u8], status: Status, output: &'a str) -> CommandRun<'a> {
    CommandRun {
        words: &["audit"],
        trace: pieces,
        status,
        output,
    }
}

#[test]
fn an_audit_tells_its_verdict(rt: HostRuntime) -> Result<(), Fail> {
    let alloc = rt.alloc();
    let mut memory = kept_memory(alloc)?;
    let whole = pieces_with(alloc, REPORT)?;
    let agrees = audit_of(&whole, Status::Ok, "audit: agrees\n");
    check_run(&rt, agrees, &mut memory)?;
    let cut = pieces_with(alloc, "")?;
    let differs = audit_of(&cut, Status::Audit, "audit: differs in report at 0\n");
    check_run(&rt, differs, &mut memory)
}
