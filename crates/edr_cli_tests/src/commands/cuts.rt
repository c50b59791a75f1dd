//! Power cuts in the changing calls of a start and of commands.

use super::drives::{TENSED, push_drive, struck, trace_of};
use super::expected::{NOT_DONE, TENSED_TWICE, changed, joined, struck_event, tensed_event};
use super::{KEEP, OVERWRITE, check_run, memory_of, new_image, replayed};
use std::alloc::{AllocError, Global};
use std::process::Abort;
use std::test::Fail;

// The number of the next CYCLE, where a start was stopped in this call. The fifth call opens the slot of the new count.
fn number_after(call: u32, pick: u64) -> u32 {
    if call >= 5 && pick == 1 { 2 } else { 1 }
}

// The report of a start that was stopped in this call, and of the next cycle with this number.
fn start_report(alloc: Global, call: u32, number: u32) -> Result<String, AllocError> {
    let mut report = format!(in alloc; "cycle 1: start stopped in call {call}\n")?;
    write!(report, "cycle 2: number {number}, power off\n")?;
    write!(report, "ignition cycle, download: {number}\n")?;
    Ok(report)
}

// A start that is stopped in this call, with this pick.
fn check_start<R: Abort + AllocGlobal>(rt: &R, call: u32, pick: u64) -> Result<(), Fail> {
    let alloc = rt.alloc();
    let trace = format!(in alloc; "on,{call},\non,0,\ncut,0,\n")?;
    let report = start_report(alloc, call, number_after(call, pick))?;
    let mut memory = memory_of(alloc, &new_image(2, KEEP), &[], pick)?;
    check_run(rt, replayed(&trace, &report), &mut memory)
}

#[test]
fn a_start_that_is_cut_counts_by_its_pick(rt: HostRuntime) -> Result<(), Fail> {
    for pick in [0u64, 1, 7] {
        for call in 1..=6u32 {
            check_start(&rt, call, pick)?;
        }
    }
    Ok(())
}

// What bank 1 holds after the cut: the record of cycle 1, nothing, or that of cycle 3, not done or complete.
#[derive(Clone, Copy)]
enum Bank {
    First,
    Void,
    Taken,
    Complete,
}

// A power cut in one of the changing calls of cycle 3.
#[derive(Clone, Copy)]
struct Cut {
    call: u32,
    // What bank 1 holds with the picks 0, 1 and 7, the last of which draws bytes that open no gate.
    banks: [Bank; 3],
    // How many commands of the cycle are acknowledged.
    acks: usize,
}

const fn stopped_in(call: u32, banks: [Bank; 3], acks: usize) -> Cut {
    Cut { call, banks, acks }
}

// The bank is erased in the calls 1 and 2, filled in 3 to 6, and done in 7 to 10.
fn cuts() -> [Cut; 12] {
    let erased = [Bank::First, Bank::Void, Bank::Void];
    let filled = [Bank::Void, Bank::Taken, Bank::Void];
    let done = [Bank::Taken, Bank::Complete, Bank::Taken];
    [
        stopped_in(0, [Bank::Complete; 3], 2),
        stopped_in(1, erased, 0),
        stopped_in(2, erased, 0),
        stopped_in(3, [Bank::Void; 3], 0),
        stopped_in(4, [Bank::Void; 3], 0),
        stopped_in(5, filled, 0),
        stopped_in(6, filled, 0),
        stopped_in(7, [Bank::Taken; 3], 1),
        stopped_in(8, [Bank::Taken; 3], 1),
        stopped_in(9, done, 1),
        stopped_in(10, done, 1),
        stopped_in(11, [Bank::Complete; 3], 2),
    ]
}

const ACKS: [&str; 2] = [
    "cycle 3 take at 26020: bank 1\n",
    "cycle 3 done at 26148: bank 1\n",
];

// The lines of cycle 3.
fn cycle_lines(alloc: Global, cut: Cut) -> Result<String, AllocError> {
    let mut lines = match cut.call {
        0 | 11 => String::from_str(alloc, "cycle 3: number 3, power off\n")?,
        call => format!(in alloc; "cycle 3: number 3, stopped in call {call}\n")?,
    };
    for ack in ACKS.iter().take(cut.acks) {
        lines.push_str(ack)?;
    }
    Ok(lines)
}

// The record of cycle 2, which is in bank 2.
fn second_event(alloc: Global, place: &str) -> Result<String, AllocError> {
    let changes = [
        ("event", place),
        ("bank", "2"),
        ("ignition cycle, crash", "2"),
    ];
    tensed_event(alloc, &changes)
}

// The record of cycle 3, complete.
fn third_event(alloc: Global) -> Result<String, AllocError> {
    let changes = [("event", "2"), ("ignition cycle, crash", "3")];
    changed(alloc, &struck_event(alloc)?, &changes)
}

// The records of the cycles 1 and 2.
fn first_two(alloc: Global) -> Result<String, AllocError> {
    let first = tensed_event(alloc, &[])?;
    let second = second_event(alloc, "2")?;
    joined(alloc, &[&first, &second])
}

// The records of cycle 2 and of cycle 3, the last with these changes.
fn last_two(alloc: Global, changes: &[(&str, &str)]) -> Result<String, AllocError> {
    let second = second_event(alloc, "1")?;
    let third = changed(alloc, &third_event(alloc)?, changes)?;
    joined(alloc, &[&second, &third])
}

// All records, by cycle.
fn events(alloc: Global, bank: Bank) -> Result<String, AllocError> {
    match bank {
        Bank::First => first_two(alloc),
        Bank::Void => second_event(alloc, "1"),
        Bank::Taken => last_two(alloc, &NOT_DONE),
        Bank::Complete => last_two(alloc, &[]),
    }
}

// The trace of the drives before, and of one with this cut.
fn cut_trace(alloc: Global, before: &str, cut: Cut) -> Result<String, AllocError> {
    let mut drive = struck(27_000);
    drive.stop = cut.call;
    let mut trace = String::from_str(alloc, before)?;
    push_drive(&mut trace, drive)?;
    Ok(trace)
}

// What is reported of all three drives.
fn cut_report(alloc: Global, cut: Cut, bank: Bank) -> Result<String, AllocError> {
    const LAST: &str = "ignition cycle, download: 3\n";
    let events = events(alloc, bank)?;
    let cycle = cycle_lines(alloc, cut)?;
    joined(alloc, &[TENSED_TWICE, &cycle, &events, LAST])
}

// The trace of three drives, the last with this cut, leaves this in bank 1 with this pick.
fn check_cut<R: Abort + AllocGlobal>(
    rt: &R,
    before: &str,
    cut: Cut,
    pick: u64,
    bank: Bank,
) -> Result<(), Fail> {
    let alloc = rt.alloc();
    let trace = cut_trace(alloc, before, cut)?;
    let report = cut_report(alloc, cut, bank)?;
    let mut memory = memory_of(alloc, &new_image(2, OVERWRITE), &[], pick)?;
    check_run(rt, replayed(&trace, &report), &mut memory)
}

#[test]
fn an_overwrite_that_is_cut_leaves_the_old_record_none_or_the_new(
    rt: HostRuntime,
) -> Result<(), Fail> {
    let before = trace_of(rt.alloc(), &[TENSED, TENSED])?;
    for cut in cuts() {
        let [settled, given, drawn] = cut.banks;
        for (pick, bank) in [(0, settled), (1, given), (7, drawn)] {
            check_cut(&rt, &before, cut, pick, bank)?;
        }
    }
    Ok(())
}
