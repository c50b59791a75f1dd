//! The tables of a page.

ghost use Rattle.std.specs.Prelude.{◌≡◌, ◌++◌, ◌≤◌, ◌<◌, ◌+◌, ◌*◌, OnOk, map, min, ◌/◌};
ghost use Rattle.edr_image.specs.Reports.{report_of};
ghost use Rattle.edr_drawing.specs.{Tables.{block, blocks_of, by_time, change_row, elements_table, mph, number_word, points_table, run_table, slot_at, slot_row, slot_tenths, taken_in, taken_of}, Template.filling_bytes};

use crate::before::SPANS;
use crate::scales::{AXIS_NAMES, CarAxis, NO_SAMPLE, is_silent, of_axis, points_of};
use crate::sheets::PROFILES;
use crate::template::Filling::{Change, Count, Number, Seconds, Text};
use crate::template::{
    Drawn, Filling, MINUS, NONE, SWITCH_WORDS, either, fill, of_profile, of_switch, put,
};
use edr_image::{Ack, Applied, CycleReport};
use edr_record::{Crash, LONG_SLOTS, POINT_STEP, Pre, Profile, Record, SHORT_SLOTS, point_count};
use edr_report::{Lines, print_event, print_run};
use std::alloc::Global;

/// The line of a report before which a second table begins.
pub const SECOND_TABLE: &[u8] = b"delta-V lateral, km/h";

/// The lines of a report whose lists stand in the table by time, and what stands in their place.
pub const LISTS: [&[u8]; 3] = [b"speed, km/h", b"throttle, %", b"service brake"];

pub const IN_TABLE: &[u8] = b"in the table by time";

/// Events of a run are counted up to this number.
pub const MOST_TAKEN: u64 = u64::MAX;

/// The row of a line: its name and its value.
pub const LINE: &[u8] = br#"<tr><th scope="row">{0}</th><td>{1}</td></tr>
"#;

/// The table of the changes of speed, up to its times.
pub const POINTS_START: &[u8] = br#"<table class="num">
<caption>Delta-V, km/h, at each 10 ms after time zero</caption>
<thead><tr><th scope="col">ms</th>"#;

pub const POINT_TIME: &[u8] = br#"<th scope="col">{0}</th>"#;

pub const POINTS_BODY: &[u8] = b"</tr></thead>\n<tbody>\n";

/// The row of an axis, and the cell of a change of speed.
pub const AXIS_ROW: &[u8] = br#"<tr><th scope="row">{0}</th>"#;

pub const CELL: &[u8] = b"<td>{0}</td>";

/// The cell of an axis without any sample, as wide as those of its points.
pub const SILENT_CELL: &[u8] = br#"<td colspan="{0}" class="l">{1}</td>"#;

pub const ROW_END: &[u8] = b"</tr>\n";

pub const TABLE_END: &[u8] = b"</tbody>\n</table>\n";

pub const ELEMENTS_START: &[u8] = br#"<h3>All elements, as the report has them</h3>
<div class="two">
<table aria-label="All elements">
<tbody>
"#;

pub const ELEMENTS_END: &[u8] = b"</tbody>\n</table>\n</div>\n";

pub const NEXT_TABLE: &[u8] = br#"</tbody>
</table>
<table aria-label="All elements, continued">
<tbody>
"#;

/// The table of a run, which says how many events it took, how many were retrieved, and so how many are gone at least.
pub const RUN_START: &[u8] = br#"<table>
<caption>What was acknowledged while the trace was replayed: {0} taken, {1} retrieved, at least {2} gone</caption>
<tbody>
"#;

/// The rows of lines of a report, without the lists that the table by time has.
#[derive(Drop)]
struct Rows(Vec<u8>);

impl Lines for Rows {
    ghost use Rattle.edr_drawing.specs.Tables.{line_row};

    ghost ready = { λ _. Unit {0} };

    ghost bytes = { λ rows. rows.0.items };

    ghost form = { line_row };

    fn line(&mut self, _block: u64, name: &[u8], value: &[u8]) -> Drawn {
        if name == SECOND_TABLE {
            put(&mut self.0, NEXT_TABLE)?;
        }
        let shown = if LISTS.contains(&name) {
            IN_TABLE
        } else {
            value
        };
        fill(&mut self.0, LINE, &[Text(name), Text(shown)])
    }
}

// Appends the row of an axis: a cell for each point, or that it has no sample.
fn put_axis(out: &mut Vec<u8>, crash: &Crash, axis: CarAxis) -> Drawn
    ensures { OnOk result (out.new.items ≡ out.old.items ++ change_row crash.now axis) }
{
    fill(out, AXIS_ROW, &[Text(of_axis(axis, AXIS_NAMES))])?;
    if is_silent(crash, axis) {
        let count = Number(point_count(crash.end) as u32);
        fill(out, SILENT_CELL, &[count, Text(NO_SAMPLE)])?;
    } else {
        let points = points_of(crash, axis);
        for point in points {
            fill(out, CELL, &[Change(*point)])?;
        }
    }
    put(out, ROW_END)
}

/// Appends the table of the changes of speed, if they are there.
#[tactic(auto, unfolding(crate::specs::Tables::points_table))]
pub fn put_points_table(out: &mut Vec<u8>, crash: &Option<Crash>) -> Drawn
    ensures { OnOk result (out.new.items ≡ out.old.items ++ points_table crash.now) }
{
    let Some(crash) = crash else {
        return Ok(());
    };
    put(out, POINTS_START)?;
    for i in 0..point_count(crash.end) as u32 {
        fill(out, POINT_TIME, &[Number(u32::from(POINT_STEP) * i)])?;
    }
    put(out, POINTS_BODY)?;
    put_axis(out, crash, CarAxis::Along)?;
    put_axis(out, crash, CarAxis::Across)?;
    put(out, TABLE_END)
}

/// Appends the tables of all lines of an event.
#[tactic(auto, unfolding(crate::specs::Tables::elements_table))]
pub fn put_elements(
    out: &mut Vec<u8>,
    alloc: Global,
    number: u64,
    bank: u8,
    event: &Record,
) -> Drawn
    ensures { OnOk result (out.new.items ≡ out.old.items ++ elements_table number bank event.now) }
{
    let rows = print_event(alloc, Rows(Vec::new(alloc)), number, bank, event)?;
    put(out, ELEMENTS_START)?;
    out.extend_from_slice(&rows.0)?;
    put(out, ELEMENTS_END)
}

// How many events a cycle took.
fn taken_of(report: &CycleReport) -> u64
    ensures { result ≡ taken_of (report_of report.now) }
{
    let is_take = |ack: &&Ack| matches!(ack.applied, Applied::Kept { .. });
    match report {
        CycleReport::StartStopped { .. } => 0,
        CycleReport::Ran { log, .. } => log.acks().iter().filter(is_take).count() as u64,
    }
}

// How many events a run took; counted as far as a number goes.
fn taken_in(run: &[CycleReport]) -> u64
    ensures { result ≡ min (taken_in (map report_of run.now)) MOST_TAKEN }
{
    let mut count: u64 = 0;
    for report in run {
        count = count.saturating_add(taken_of(report));
    }
    count
}

/// Appends the table of the cycles of a run, if there are any.
#[tactic(auto, unfolding(crate::specs::Tables::run_table))]
pub fn put_run(out: &mut Vec<u8>, alloc: Global, run: &[CycleReport], found: u64) -> Drawn
    ensures { OnOk result (out.new.items ≡ out.old.items ++ run_table (map report_of run.now) found) }
{
    if run.is_empty() {
        return Ok(());
    }
    let rows = print_run(alloc, Rows(Vec::new(alloc)), run)?;
    let taken = taken_in(run);
    let gone = Count(taken.saturating_sub(found));
    fill(out, RUN_START, &[Count(taken), Count(found), gone])?;
    out.extend_from_slice(&rows.0)?;
    put(out, TABLE_END)
}

/// The head, which says whose values these are and of which interval each is.
pub const BY_TIME_START: &[u8] = br#"<div class="time {1}">
<h3>Event {0}, the {2} seconds before time zero: each value is the latest of the 100 ms up to its time; mph are computed</h3>
<div class="blocks">
"#;

pub const BY_TIME_END: &[u8] = b"</div>\n</div>\n";

pub const BLOCK_START: &[u8] = br#"<table class="num" aria-label="Before time zero, by time">
<thead><tr><th scope="col">s</th><th scope="col">km/h</th><th scope="col">mph</th><th scope="col">throttle %</th><th scope="col">brake</th></tr></thead>
<tbody>
"#;

pub const SLOT_ROW: &[u8] =
    br#"<tr><th scope="row">{0}{1}</th><td>{2}</td><td>{3}</td><td>{4}</td><td>{5}</td></tr>
"#;

/// A long profile stands in this many blocks beside each other.
pub const LONG_BLOCKS: u32 = 3;

/// A kilometre and a mile, in millimetres.
pub const KILOMETRE: u64 = 1_000_000;

pub const MILE: u64 = 1_609_344;

// How many blocks stand beside each other, and how many slots each of them has.
fn blocks_of(profile: Profile) -> (u32, u32)
    ensures blocks { result ≡ blocks_of profile }
    ensures few { result.0 ≤ LONG_BLOCKS }
    ensures range { result.1 ≤ LONG_SLOTS }
{
    match profile {
        Profile::Short => (1, SHORT_SLOTS as u32),
        Profile::Long => (LONG_BLOCKS, LONG_SLOTS as u32 / LONG_BLOCKS),
    }
}

// How long before time zero a slot is, in tenths of a second.
fn slot_tenths(profile: Profile, k: u32) -> u32
    requires { k ≤ 1_000 }
    ensures { result ≡ slot_tenths profile k }
{
    match profile {
        Profile::Short => 50_u32.saturating_sub(5 * k),
        Profile::Long => 200_u32.saturating_sub(k),
    }
}

/// A slot of a list.
pub fn slot_at<T: Copy>(slots: &[Option<T>], k: u32) -> Option<T>
    ensures { result ≡ slot_at slots.now k }
{
    slots.get(k as usize).copied().flatten()
}

// Kilometres an hour as miles an hour, rounded.
fn mph(speed: Option<u16>) -> Option<u16>
    ensures { result ≡ mph speed }
{
    speed.map(|kmh| ((u64::from(kmh) * KILOMETRE + MILE / 2) / MILE) as u16)
}

fn number_word(value: Option<u16>) -> Filling<'static>
    ensures { filling_bytes result ≡ number_word value }
{
    value.map_or(Text(NONE), |value| Number(u32::from(value)))
}

// Appends the row of a slot.
#[tactic(auto, unfolding(crate::specs::Tables::slot_row))]
fn put_slot(out: &mut Vec<u8>, pre: &Pre, k: u32) -> Drawn
    requires { k ≤ 1_000 }
    ensures { OnOk result (out.new.items ≡ out.old.items ++ slot_row pre.now k) }
{
    let speed = slot_at(pre.speed(), k);
    let brake = Text(of_switch(slot_at(pre.brake(), k), SWITCH_WORDS));
    let tenths = slot_tenths(pre.profile(), k);
    let (sign, time) = (Text(either(0 < tenths, MINUS)), Seconds(tenths.into()));
    let (kmh, miles) = (number_word(speed), number_word(mph(speed)));
    let throttle = number_word(slot_at(pre.throttle(), k).map(u16::from));
    fill(out, SLOT_ROW, &[sign, time, kmh, miles, throttle, brake])
}

// Appends a block.
#[tactic(auto, using(crate::proofs::ListLemmas::counted_more), unfolding(crate::specs::Tables::block))]
fn put_block(out: &mut Vec<u8>, pre: &Pre, number: u32) -> Drawn
    requires { number < LONG_BLOCKS }
    ensures { OnOk result (out.new.items ≡ out.old.items ++ block pre.now number) }
{
    let (_, count) = blocks_of(pre.profile());
    put(out, BLOCK_START)?;
    for i in 0..count {
        put_slot(out, pre, count * number + i)?;
    }
    put(out, TABLE_END)
}

/// Appends the table of the event with this number.
#[tactic(auto, unfolding(crate::specs::Tables::by_time))]
pub fn put_by_time(out: &mut Vec<u8>, number: u64, pre: &Pre) -> Drawn
    ensures { OnOk result (out.new.items ≡ out.old.items ++ by_time number pre.now) }
{
    let profile = pre.profile();
    let class = Text(of_profile(profile, PROFILES));
    let span = Text(of_profile(profile, SPANS));
    fill(out, BY_TIME_START, &[Count(number), class, span])?;
    for part in 0..blocks_of(profile).0 {
        put_block(out, pre, part)?;
    }
    put(out, BY_TIME_END)
}
