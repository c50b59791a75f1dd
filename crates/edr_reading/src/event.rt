//! An event, read line by line: what stood before time zero, and what came after it.

ghost use Rattle.std.specs.{Prelude.{◌≡◌, ◌<◌, [], ⊤, length, map, slice_index_or, IfSome, MatchOption, ◌≤◌}, Bool.MatchBool};
ghost use Rattle.edr_reading.specs.{Answers.Reads, Reading.{HasNoBank, IsNextEvent, event_of, HasNoneFree, AcceptsEventLine, IsBank, AreSlots, AcceptsPreLine, AcceptsCrashLine, AcceptsPartLine}};
ghost use Rattle.edr_record.specs.{Bounds.{IsPre, ArePoints, IsCrash, point_count}, declared.TheConstants.{EARLIEST_END, POINTS, RESET}};
ghost use Rattle.edr_report.specs.Words.{points_words};

use crate::front::{is_word, last_within};
use crate::values::{
    bank_after, count, decision, events, extreme, firing, missing, place_between, profile,
    read_slots, switch, time,
};
use edr_image::Found;
use edr_image::places::MOST_BANKS;
use edr_items::LATEST_MOMENT;
use edr_record::{
    Crash, EARLIEST_END, Extreme, Key, LONG_SLOTS, POINTS, Place, Pre, Profile, RESET, Record,
    SHORT_SLOTS, Slots, point_count, window_from_end,
};
use edr_report::{CrashLine, EventLine, LINES_OF_EVENT, PreLine};

/// How many rows an event has.
pub const EVENT_ROWS: usize = LINES_OF_EVENT.len();

/// What was read of an event. Where nothing was read yet, its values are plain ones.
#[derive(Clone, Copy)]
pub(crate) struct PartEvent {
    pub bank: u8,
    pub record: Record,
}

/// This bank was found.
pub(crate) fn is_among(found: &[Found], bank: u8) -> bool
    ensures { MatchBool result (HasNoBank found.now bank → ⊥) (HasNoBank found.now bank) }
{
    found.iter().any(|one| one.bank == bank)
}

/// The first bank that wasn't found.
pub(crate) fn free_bank(found: &[Found]) -> Option<u8>
    ensures read { IfSome result (λ b. IsBank b × HasNoBank found.now b) }
    ensures none { MatchOption result (HasNoneFree found.now) (λ b. ⊤) }
{
    for bank in 1..MOST_BANKS + 1 {
        if !is_among(found, bank) {
            return Some(bank);
        }
    }
    None
}

/// The line in this place and its name.
pub(crate) fn line_at(
    lines: &[(&'static str, EventLine)],
    place: usize,
) -> (&'static str, EventLine)
    requires { place < length lines.now }
    ensures name { result.0.now ≡ slice_index_or (map (λ l. l.0.now) lines.now) place [] }
    ensures line { result.1 ≡ slice_index_or (map (λ l. l.1) lines.now) place EventLine.Number }
{
    lines[place]
}

/// The event with what this line shows, after the lines before it, if it may show it: none of the banks found is its own.
pub(crate) fn event_line(
    event: &PartEvent,
    block: u32,
    found: &[Found],
    line: EventLine,
    value: &[u8],
) -> Option<PartEvent>
    requires { IsNextEvent found.now (event_of event.now) }
    ensures { AcceptsEventLine block found.now line value.now event.now result }
{
    let PartEvent { bank, record } = *event;
    match line {
        EventLine::Number => {
            last_within(value, b"", block, block)?;
            Some(*event)
        }
        EventLine::Bank => match bank_after(value, b"") {
            Some(bank) if !is_among(found, bank) => Some(PartEvent { bank, record }),
            _ => None,
        },
        EventLine::Before(line) => {
            let (pre, locked) = pre_line(&record.pre, record.locked, line, value)?;
            let record = Record {
                pre,
                locked,
                crash: record.crash,
            };
            Some(PartEvent { bank, record })
        }
        EventLine::After(line) => {
            let crash = part_line(&record.crash, line, value)?;
            let record = Record { crash, ..record };
            Some(PartEvent { bank, record })
        }
        EventLine::Complete => {
            let complete = decision(value)?;
            if complete == record.complete() {
                Some(*event)
            } else {
                None
            }
        }
    }
}

// Slots of this profile, all of them absent.
fn no_slots(profile: Profile) -> Slots
    ensures { AreSlots profile result }
{
    match profile {
        Profile::Short => Slots::Short {
            speed: [None; SHORT_SLOTS],
            throttle: [None; SHORT_SLOTS],
            brake: [None; SHORT_SLOTS],
        },
        Profile::Long => Slots::Long {
            speed: [None; LONG_SLOTS],
            throttle: [None; LONG_SLOTS],
            brake: [None; LONG_SLOTS],
        },
    }
}

/// What stood before time zero as plainly as it can be, as long as nothing was read of it.
pub(crate) fn plain_pre() -> Pre
    ensures { IsPre result }
{
    Pre {
        key: Key { cycle: 1, zero: 1 },
        place: Place::First,
        slots: no_slots(Profile::Short),
        belt: None,
        lamp: None,
    }
}

/// What stood before time zero, and the lock, with what this line shows, after the lines before it, if it may show it.
pub(crate) fn pre_line(pre: &Pre, locked: bool, line: PreLine, value: &[u8]) -> Option<(Pre, bool)>
    requires { IsPre pre.now }
    ensures { AcceptsPreLine line value.now (pre.now, locked) result }
{
    let mut pre = *pre;
    let mut locked = locked;
    match line {
        PreLine::Cycle => pre.key.cycle = count(value, 1)?,
        PreLine::TimeZero => pre.key.zero = time(value, 1, LATEST_MOMENT)?,
        PreLine::Events => pre.place = events(value)?,
        PreLine::Between => pre.place = place_between(pre.place, value)?,
        PreLine::Deployment => locked = decision(value)?,
        PreLine::Profile => pre.slots = no_slots(profile(value)?),
        PreLine::Speed => match &mut pre.slots {
            Slots::Short { speed, .. } => read_slots(value, speed)?,
            Slots::Long { speed, .. } => read_slots(value, speed)?,
        },
        PreLine::Throttle => match &mut pre.slots {
            Slots::Short { throttle, .. } => read_slots(value, throttle)?,
            Slots::Long { throttle, .. } => read_slots(value, throttle)?,
        },
        PreLine::Brake => match &mut pre.slots {
            Slots::Short { brake, .. } => read_slots(value, brake)?,
            Slots::Long { brake, .. } => read_slots(value, brake)?,
        },
        PreLine::Belt => pre.belt = switch(value)?,
        PreLine::Lamp => pre.lamp = switch(value)?,
    }
    Some((pre, locked))
}

// The points of an axis that the end allows.
fn points(bytes: &[u8], end: u16) -> Option<[i16; POINTS]>
    ensures { Reads (points_words end) (ArePoints (point_count end)) bytes.now result }
{
    let mut points = [0; POINTS];
    read_slots(bytes, &mut points[..point_count(end)])?;
    if points[0] == 0 { Some(points) } else { None }
}

// The plain crash part with this end, in which nothing changed.
fn plain_crash(end: u16) -> Crash
    requires { (EARLIEST_END ≤ end) × (end ≤ RESET) }
    ensures bounds { IsCrash result }
    ensures end { result.end ≡ end }
{
    let none = Extreme { kmh: 0, at: 0 };
    Crash {
        end,
        along: [0; POINTS],
        across: [0; POINTS],
        max_along: none,
        max_across: none,
        result_at: 0,
        missing_along: 0,
        missing_across: 0,
        fired: [None; 8],
    }
}

// The crash part with what this line shows, after the lines before it, if it may show it.
fn crash_line(crash: &Crash, line: CrashLine, value: &[u8]) -> Option<Crash>
    requires { IsCrash crash.now }
    ensures { AcceptsCrashLine line value.now crash.now result }
{
    let end = crash.end;
    let window = window_from_end(end);
    let mut read = *crash;
    match line {
        CrashLine::End => {
            read = plain_crash(time(value, EARLIEST_END.into(), RESET.into())? as u16);
        }
        CrashLine::Along => read.along = points(value, end)?,
        CrashLine::Across => read.across = points(value, end)?,
        CrashLine::MaxAlong => read.max_along = extreme(value, window)?,
        CrashLine::MaxAcross => read.max_across = extreme(value, window)?,
        CrashLine::ResultAt => read.result_at = time(value, 0, u32::from(window))? as u16,
        CrashLine::Missing => {
            let (along, across) = missing(value, window)?;
            read.missing_along = along as u16;
            read.missing_across = across as u16;
        }
        CrashLine::Fired(restraint) => {
            read.fired[restraint.place()] = firing(value, end.max(window))?;
        }
    }
    Some(read)
}

/// What came after time zero, or that nothing did, with what this line shows, if it may show it.
pub(crate) fn part_line(
    crash: &Option<Crash>,
    line: CrashLine,
    value: &[u8],
) -> Option<Option<Crash>>
    requires { IfSome crash.now IsCrash }
    ensures { AcceptsPartLine line value.now crash.now result }
{
    let is_end = matches!(line, CrashLine::End);
    match crash {
        Some(crash) if !is_end => Some(Some(crash_line(crash, line, value)?)),
        _ if is_word(value, b"none") => Some(None),
        _ if is_end => Some(Some(crash_line(&plain_crash(EARLIEST_END), line, value)?)),
        _ => None,
    }
}
