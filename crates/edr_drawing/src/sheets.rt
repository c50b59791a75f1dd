//! The sheets of a page. The first one says what was found; that of an event has its place in its crash, why its record
//! isn't complete, its charts and its tables.

ghost use Rattle.std.specs.Prelude.{◌≡◌, ◌++◌, IfOk, OnOk, flat_map};
ghost use Rattle.edr_drawing.specs.Page.{crash_reasons, damaged_in, damaged_list, events_of, events_table, firsts, firsts_words, greatest_or_none, is_first_of, missing_reason, numbered, numbered_one, place_fact, pre_reasons, reasons, share_reason, sheet, slots_reason};
ghost use Rattle.edr_drawing.specs.Template.{filling_bytes};

use crate::after::draw_after;
use crate::before::draw_before;
use crate::scales::{AXIS_NAMES, CarAxis, greatest, missing_of, of_axis};
use crate::tables::{TABLE_END, put_by_time, put_elements, put_points_table};
use crate::template::Filling::{Count, Number, Seconds, Text};
use crate::template::{Drawn, FIRST, Filling, NONE, either, fill, fill_if, of_profile, put};
use edr_image::{BankView, Found};
use edr_record::{Crash, Key, LONGEST_PAIR, Place, Pre, Record, window_from_end};
use edr_report::{LARGEST_SHOWN_COUNT, number_shown, tenths_of};
use std::alloc::{AllocError as OutOfMemory, Global};

/// An event that was found: its number, that of its bank, and its record.
#[derive(Clone, Copy)]
pub struct FoundEvent<'a> {
    pub number: u64,
    pub bank: u8,
    pub event: &'a Record,
}

/// The events that were found, the first of which has the number 1.
pub fn events_of<'a>(alloc: Global, found: &'a [Found]) -> Result<Vec<FoundEvent<'a>>, OutOfMemory>
    ensures { IfOk result (λ events. numbered events.items ≡ events_of found.now) }
{
    let mut events = Vec::new(alloc);
    for one in found {
        if let BankView::Event(event) = &one.view {
            let (number, bank) = (events.len() as u64 + 1, one.bank);
            events.push(FoundEvent {
                number,
                bank,
                event,
            })?;
        }
    }
    Ok(events)
}

pub const YES_NO: (&[u8], &[u8]) = (b"yes", b"no");

pub const FIRST_SHEET: &[u8] = br#"<section aria-labelledby="r">
<h1 id="r">Event data recorder: retrieved events</h1>
<ul class="facts"><li>Recorded events: <b>{0}</b></li><li>Damaged banks: <b>{1}</b></li><li>Ignition cycle at download: <b>{2}</b></li></ul>
"#;

pub const EVENTS_START: &[u8] = br#"<table>
<caption>Events</caption>
<thead><tr><th scope="col">Event</th><th scope="col">Bank</th><th scope="col">Ignition cycle</th><th scope="col">Time zero</th><th scope="col">Place in crash</th><th scope="col">Locked</th><th scope="col">Max. longitudinal</th><th scope="col">Max. lateral</th><th scope="col">Complete</th></tr></thead>
<tbody>
"#;

pub const EVENT_ROW: &[u8] =
    br##"<tr><th scope="row"><a href="#e{0}">{0}</a></th><td>{1}</td><td>{2}</td><td>{3} ms</td><td>{4}</td><td>{5}</td><td>{6}</td><td>{7}</td><td>{8}</td></tr>
"##;

pub const DAMAGED_START: &[u8] = br#"<h2>Damaged banks</h2>
<div class="note"><p>A damaged bank holds bytes that are no record. Nothing else of it is shown, and no event of this report stands for it.</p>
<ul>
"#;

pub const DAMAGED_BANK: &[u8] =
    br#"<li>Bank {0}: byte {1} holds {2}, with which the bank can hold no record. Its mark of a locked record is {3}.</li>
"#;

pub const LIST_END: &[u8] = b"</ul></div>\n";

pub const SET_OR_NOT: (&[u8], &[u8]) = (b"set", b"not set");

pub const FIRST_FOOT: &[u8] =
    br#"<p class="foot">Made by edr_picture {2} from a report of {0} bytes, SHA-256 <code>{1}</code></p>
</section>
"#;

/// How many damaged banks were found.
pub fn damaged_in(found: &[Found]) -> u64
    ensures { result ≡ damaged_in found.now }
{
    let damaged = |one: &&Found| matches!(one.view, BankView::Damaged { .. });
    found.iter().filter(damaged).count() as u64
}

// The greatest change of an axis, or that there is none.
fn greatest_or_none(crash: &Option<Crash>, axis: CarAxis) -> Filling<'static>
    ensures { filling_bytes result ≡ greatest_or_none crash.now axis }
{
    crash
        .as_ref()
        .map_or(Text(NONE), |crash| greatest(crash, axis))
}

/// Appends the table of events, if there are any.
#[tactic(auto, unfolding(crate::specs::Page::events_table))]
pub fn put_events(out: &mut Vec<u8>, events: &[FoundEvent<'_>]) -> Drawn
    ensures { OnOk result (out.new.items ≡ out.old.items ++ events_table (numbered events.now)) }
{
    if events.is_empty() {
        return Ok(());
    }
    put(out, EVENTS_START)?;
    for FoundEvent {
        number,
        bank,
        event,
    } in events {
        let cells = [
            Count(*number),
            Number(u32::from(*bank)),
            Number(number_shown(event.pre.key.cycle)),
            Number(event.pre.key.zero),
            Filling::Place(event.pre.place),
            Text(either(event.locked, YES_NO)),
            greatest_or_none(&event.crash, CarAxis::Along),
            greatest_or_none(&event.crash, CarAxis::Across),
            Text(either(event.complete(), YES_NO)),
        ];
        fill(out, EVENT_ROW, &cells)?;
    }
    put(out, TABLE_END)
}

/// Appends the list of damaged banks, if there are any.
#[tactic(auto, unfolding(crate::specs::Page::damaged_list))]
pub fn put_damaged(out: &mut Vec<u8>, found: &[Found]) -> Drawn
    ensures { OnOk result (out.new.items ≡ out.old.items ++ damaged_list found.now) }
{
    if damaged_in(found) == 0 {
        return Ok(());
    }
    put(out, DAMAGED_START)?;
    for Found { bank, view } in found {
        if let BankView::Damaged {
            offset,
            found,
            locked,
        } = view
        {
            let (offset, found) = (Number(u32::from(*offset)), Number(u32::from(*found)));
            let (bank, mark) = (Number(u32::from(*bank)), Text(either(*locked, SET_OR_NOT)));
            fill(out, DAMAGED_BANK, &[bank, offset, found, mark])?;
        }
    }
    put(out, LIST_END)
}

pub const PLACE: (&[u8], &[u8]) = (b"<li>Place in crash: <b>", b"</b></li></ul>\n");

/// How long after the first event of its pair a second one began.
pub const SECOND_AFTER: &[u8] = b"second, {0} s after ";

/// An event of the report that may be that first one, after another one and as the first of them.
pub const OR_EVENT: (&[u8], &[u8]) = (b" or {0}", b"event {0}");

pub const ELSEWHERE: &[u8] = b"an event that isn't in this report";

/// Counts of ignition cycles that stopped at the same number need not be the same.
pub const IF_SAME_CYCLE: &[u8] =
    b", if that is of the same ignition cycle: their counts stop at 60000";

// As far as a report tells, this is the first event of the pair whose second one has this key, and began so long after it.
fn is_first_of(second: Key, after: u32, pre: &Pre) -> bool
    ensures { result ≡ is_first_of second after pre.now }
{
    let first = pre.key;
    matches!(pre.place, Place::First)
        && number_shown(first.cycle) == number_shown(second.cycle)
        && first.zero < second.zero
        && second.zero - first.zero <= LONGEST_PAIR
        && tenths_of(second.zero - first.zero) == tenths_of(after)
}

// Appends the events that may be the first one of the pair whose second one has this key, and began so long after it.
fn put_firsts(out: &mut Vec<u8>, events: &[FoundEvent<'_>], key: Key, after: u32) -> Drawn
    ensures { OnOk result (out.new.items ≡ out.old.items ++ firsts_words key.cycle (firsts key after (numbered events.now))) }
{
    let mut is_named = false;
    for one in events {
        if is_first_of(key, after, &one.event.pre) {
            fill(out, either(is_named, OR_EVENT), &[Count(one.number)])?;
            is_named = true;
        }
    }
    if is_named {
        fill_if(out, LARGEST_SHOWN_COUNT <= key.cycle, IF_SAME_CYCLE, &[])
    } else {
        put(out, ELSEWHERE)
    }
}

// Appends the place of an event in its crash, with the events of the report of which it may be the second.
#[tactic(auto, unfolding(crate::specs::Page::place_fact))]
fn put_place_fact(out: &mut Vec<u8>, events: &[FoundEvent<'_>], pre: &Pre) -> Drawn
    ensures { OnOk result (out.new.items ≡ out.old.items ++ place_fact (numbered events.now) pre.now.key pre.now.place) }
{
    put(out, PLACE.0)?;
    match pre.place {
        Place::First => put(out, FIRST)?,
        Place::Second { after } => {
            fill(out, SECOND_AFTER, &[Seconds(tenths_of(after))])?;
            put_firsts(out, events, pre.key, after)?;
        }
    }
    put(out, PLACE.1)
}

pub const REASONS_START: &[u8] = br#"<div class="note why"><b>Not complete:</b>
<ul>
"#;

/// Some slots of these are absent: how many of how many.
pub const SAMPLES_ABSENT: &[u8] = b"<li>{0}: {1} of {2} samples absent</li>\n";

pub const SAMPLED: (&[u8], &[u8], &[u8]) = (b"speed", b"throttle", b"service brake");

pub const SWITCH_ABSENT: &[u8] = b"<li>{0}: absent</li>\n";

pub const SWITCHES: (&[u8], &[u8]) = (b"driver belt", b"warning lamp");

/// Some milliseconds of the window have no sample of an axis: how many of how many.
pub const WINDOW_ABSENT: &[u8] =
    b"<li>{0} acceleration: no sample in {1} of {2} ms, which count as no change of speed</li>\n";

pub const PART_ABSENT: &[u8] =
    b"<li>no part after time zero, as where the power goes off before the event is closed</li>\n";

// Tells how many of so many samples of this are absent, if any is.
fn put_share(
    out: &mut Vec<u8>,
    template: &[u8],
    name: &'static [u8],
    absent: u64,
    count: u64,
) -> Drawn
    ensures { OnOk result (out.new.items ≡ out.old.items ++ share_reason template.now name.now absent count) }
{
    let parts = [Text(name), Count(absent), Count(count)];
    fill_if(out, 0 < absent, template, &parts)
}

// Tells how many slots of this are absent, if any is.
fn put_absent<T>(out: &mut Vec<u8>, name: &'static [u8], slots: &[Option<T>]) -> Drawn
    ensures { OnOk result (out.new.items ≡ out.old.items ++ slots_reason name.now slots.now) }
{
    let absent = slots.iter().filter(|slot| slot.is_none()).count();
    put_share(out, SAMPLES_ABSENT, name, absent as u64, slots.len() as u64)
}

// Tells what is absent of the time before time zero.
#[tactic(auto, unfolding(crate::specs::Page::pre_reasons))]
fn put_pre_reasons(out: &mut Vec<u8>, pre: &Pre) -> Drawn
    ensures { OnOk result (out.new.items ≡ out.old.items ++ pre_reasons pre.now) }
{
    let (belt, lamp) = (pre.belt, pre.lamp);
    put_absent(out, SAMPLED.0, pre.speed())?;
    put_absent(out, SAMPLED.1, pre.throttle())?;
    put_absent(out, SAMPLED.2, pre.brake())?;
    fill_if(out, belt.is_none(), SWITCH_ABSENT, &[Text(SWITCHES.0)])?;
    fill_if(out, lamp.is_none(), SWITCH_ABSENT, &[Text(SWITCHES.1)])
}

// Tells how many milliseconds of the window have no sample of an axis, if any has none.
fn put_missing(out: &mut Vec<u8>, crash: &Crash, axis: CarAxis) -> Drawn
    ensures { OnOk result (out.new.items ≡ out.old.items ++ missing_reason crash.now axis) }
{
    let window = u64::from(window_from_end(crash.end));
    let (missing, name) = (missing_of(crash, axis), of_axis(axis, AXIS_NAMES));
    put_share(out, WINDOW_ABSENT, name, u64::from(missing), window)
}

// Tells what is absent of the time after time zero.
fn put_crash_reasons(out: &mut Vec<u8>, crash: &Option<Crash>) -> Drawn
    ensures { OnOk result (out.new.items ≡ out.old.items ++ crash_reasons crash.now) }
{
    let Some(crash) = crash else {
        return put(out, PART_ABSENT);
    };
    put_missing(out, crash, CarAxis::Along)?;
    put_missing(out, crash, CarAxis::Across)
}

// Tells why a record isn't complete, if it isn't.
#[tactic(auto, unfolding(crate::specs::Page::reasons))]
fn put_reasons(out: &mut Vec<u8>, event: &Record) -> Drawn
    ensures { OnOk result (out.new.items ≡ out.old.items ++ reasons event.now) }
{
    if event.complete() {
        return Ok(());
    }
    put(out, REASONS_START)?;
    put_pre_reasons(out, &event.pre)?;
    put_crash_reasons(out, &event.crash)?;
    put(out, LIST_END)
}

/// The head of a sheet, and the facts of its event up to its place in its crash.
pub const SHEET_HEAD: &[u8] = br#"<section id="e{0}" style="page:e{0}" aria-labelledby="e{0}h">
<div class="head"><h2 id="e{0}h">Event {0}</h2><p>Complete file recorded: <b>{1}</b></p></div>
<ul class="facts"><li>Ignition cycle <b>{2}</b></li><li>Time zero <b>{3} ms</b></li><li>Bank <b>{4}</b></li><li>Locked by an air bag or curtain: <b>{5}</b></li><li>Pre-crash profile: <b>{6}</b></li>"#;

pub const SHEET_FOOT: &[u8] =
    br#"<p class="foot">Event {0} of the report with SHA-256 <code>{1}</code></p>
</section>
"#;

/// The words of the profiles, which are classes too.
pub const PROFILES: (&[u8], &[u8]) = (b"short", b"long");

/// Appends the sheet of one of the events that were found, which names the report by its digest.
#[tactic(auto, unfolding(crate::specs::Page::sheet))]
fn put_sheet(
    out: &mut Vec<u8>,
    alloc: Global,
    events: &[FoundEvent<'_>],
    one: &FoundEvent<'_>,
    digest: &[u8],
) -> Drawn
    ensures { OnOk result (out.new.items ≡ out.old.items ++ sheet (numbered events.now) digest.now (numbered_one one.now)) }
{
    let (number, event, pre) = (one.number, one.event, &one.event.pre);
    let head = [
        Count(number),
        Text(either(event.complete(), YES_NO)),
        Number(number_shown(pre.key.cycle)),
        Number(pre.key.zero),
        Number(u32::from(one.bank)),
        Text(either(event.locked, YES_NO)),
        Text(of_profile(pre.profile(), PROFILES)),
    ];
    fill(out, SHEET_HEAD, &head)?;
    put_place_fact(out, events, pre)?;
    put_reasons(out, event)?;
    draw_before(out, number, pre)?;
    draw_after(out, number, &event.crash)?;
    put_elements(out, alloc, number, one.bank, event)?;
    put_points_table(out, &event.crash)?;
    put_by_time(out, number, pre)?;
    fill(out, SHEET_FOOT, &[Count(number), Text(digest)])
}

/// Appends the sheets of all events that were found.
pub fn put_sheets(
    out: &mut Vec<u8>,
    alloc: Global,
    events: &[FoundEvent<'_>],
    digest: &[u8],
) -> Drawn
    ensures { OnOk result (out.new.items ≡ out.old.items ++ flat_map (sheet (numbered events.now) digest.now) (numbered events.now)) }
{
    for event in events {
        put_sheet(out, alloc, events, event, digest)?;
    }
    Ok(())
}
