//! Whole runs over sources and sinks in memory.

use crate::asked::{Asked, HELP, version_line};
use crate::draws::draw;
use crate::faults::PageFault;
use crate::faults::PageStatus::{self, Done, Faulty, WriteFault};
use edr_device::{MemSink, MemSource};
use edr_reading::RowFault::{self, Field, Fields, Unended};
use std::process::Abort;
use std::test::Fail;

// A report without an event.
const EMPTY: &[u8] = b"block,name,value\n0,\"ignition cycle, download\",3\n";

// Draws it over a source that gives 20 bytes at once. Source and sink fail in these calls, and the run ends so, with this
// number. Answers what the sink has then.
fn output_of<R: Abort + AllocGlobal>(
    rt: &R,
    asked: Asked,
    report: &[u8],
    fails: [&[u32]; 2],
    end: (PageStatus, u8),
) -> Result<Vec<u8>, Fail> {
    let alloc = rt.alloc();
    let mut source = MemSource::new(report.to_vec(alloc)?, 20, fails[0].to_vec(alloc)?);
    let mut sink = MemSink::new(alloc, 100_000, 64, fails[1].to_vec(alloc)?)?;
    let status = draw(alloc, asked, &mut source, &mut sink);
    assert_eq!(rt; status, end.0);
    assert_eq!(rt; status.code(), end.1);
    Ok(sink.bytes().to_vec(alloc)?)
}

#[test]
fn a_report_is_drawn_whole_or_in_part(rt: HostRuntime) -> Result<(), Fail> {
    let page = output_of(&rt, Asked::Page, EMPTY, [&[], &[]], (Done, 0))?;
    let part = output_of(&rt, Asked::Page, EMPTY, [&[], &[3]], (WriteFault, 5))?;
    assert_eq!(rt; part.len(), 128);
    assert!(rt; page.starts_with(&part));
    Ok(())
}

#[test]
fn what_is_no_report_is_told(rt: HostRuntime) -> Result<(), Fail> {
    let leading_zero = b"block,name,value\n0,\"ignition cycle, download\",03\n";
    let cases: [(&[u8], u32, RowFault, &str); 5] = [
        (b"", 1, Unended, "unended"),
        (b"ignition cycle, download: 3\n", 1, Fields(2), "fields 2"),
        (
            b"0,\"ignition cycle, download\",3\n",
            1,
            Field(1),
            "field 1",
        ),
        (b"block,name,value\n", 2, Unended, "unended"),
        (leading_zero, 2, Field(3), "field 3"),
    ];
    for (report, row, fault, words) in cases {
        let mut line = String::new(rt.alloc());
        write!(line, "fault: report row {row}: {words}\n")?;
        let end = (Faulty(PageFault::Report { row, fault }), 3);
        let output = output_of(&rt, Asked::Page, report, [&[], &[]], end)?;
        assert!(rt; output.as_slice() == line.as_bytes());
    }
    Ok(())
}

#[test]
fn a_word_is_answered_and_nothing_is_read(rt: HostRuntime) -> Result<(), Fail> {
    let version = version_line();
    let usage = b"fault: usage: edr_picture [--help|--version] < crash.csv > crash.html\n";
    let cases: [(&str, (PageStatus, u8), &[u8]); 3] = [
        ("--help", (Done, 0), HELP),
        ("--version", (Done, 0), &version),
        ("-h", (Faulty(PageFault::Usage), 2), usage),
    ];
    for (word, end, answer) in cases {
        let output = output_of(&rt, Asked::by(word), EMPTY, [&[1], &[]], end)?;
        assert!(rt; output.as_slice() == answer);
    }
    Ok(())
}

#[test]
fn a_source_or_a_sink_that_fails_is_told(rt: HostRuntime) -> Result<(), Fail> {
    let end = (Faulty(PageFault::Read), 4);
    let told = output_of(&rt, Asked::Page, EMPTY, [&[2], &[]], end)?;
    assert!(rt; told.as_slice() == b"fault: read fault\n".as_slice());
    let cut = output_of(&rt, Asked::Page, b"", [&[], &[1]], (WriteFault, 5))?;
    assert!(rt; cut.is_empty());
    Ok(())
}
