//! The lines of an event: which there are, in their order, their names, and what each shows.

ghost use Rattle.std.specs.Prelude.{◌≡◌, ◌<◌, ◌++◌, OnOk, string_bytes};
ghost use Rattle.edr_report.specs.EventWords.{place_of, pre_words, crash_words, event_words};

use crate::values::{
    NONE, Slot, put_count, put_extreme, put_firing, put_milliseconds, put_spaced, put_time_between,
    yes_no,
};
use CrashLine::Fired;
use EventLine::{After, Before};
use edr_record::{Crash, Place, Pre, Profile, Record, point_count};
use std::alloc::AllocError as OutOfMemory;

/// A line of an event.
#[derive(Clone, Copy)]
pub enum EventLine {
    /// The number of its block.
    Number,
    /// The number of its bank.
    Bank,
    /// What stood before time zero.
    Before(PreLine),
    /// What came after it.
    After(CrashLine),
    /// Whether the file is complete.
    Complete,
}

/// A line of what stood before time zero.
#[derive(Clone, Copy)]
pub enum PreLine {
    Cycle,
    TimeZero,
    /// How many events the crash has.
    Events,
    /// The time between them.
    Between,
    /// Whether an air bag or a curtain fired.
    Deployment,
    Profile,
    Speed,
    Throttle,
    Brake,
    Belt,
    Lamp,
}

/// A line of what came after time zero.
#[derive(Clone, Copy)]
pub enum CrashLine {
    End,
    Along,
    Across,
    MaxAlong,
    MaxAcross,
    /// When the resultant was greatest.
    ResultAt,
    /// How many ticks have no sample.
    Missing,
    /// When this restraint fired first.
    Fired(Restraint),
}

/// A restraint, in the order of the bits of [`edr_items::Restraints`].
#[derive(Clone, Copy)]
pub enum Restraint {
    DriverFrontal,
    PassengerFrontal,
    DriverSide,
    PassengerSide,
    DriverCurtain,
    PassengerCurtain,
    DriverPretensioner,
    PassengerPretensioner,
}

impl Restraint {
    /// Its place among the restraints.
    pub fn place(self) -> usize
        ensures place { result ≡ place_of self }
        ensures within { result < 8 }
    {
        self as usize
    }
}

// The line of when a restraint fired first, with its name.
macro_rules! fired {
    ($name:literal, $restraint:ident) => {
        ($name, After(Fired(Restraint::$restraint)))
    };
}

/// The lines of an event, each with its name.
pub const LINES_OF_EVENT: [(&str, EventLine); 29] = [
    ("event", EventLine::Number),
    ("bank", EventLine::Bank),
    ("ignition cycle, crash", Before(PreLine::Cycle)),
    ("time zero", Before(PreLine::TimeZero)),
    ("multi-event, number of events", Before(PreLine::Events)),
    ("time from event 1 to 2", Before(PreLine::Between)),
    ("deployment event", Before(PreLine::Deployment)),
    ("pre-crash profile", Before(PreLine::Profile)),
    ("speed, km/h", Before(PreLine::Speed)),
    ("throttle, %", Before(PreLine::Throttle)),
    ("service brake", Before(PreLine::Brake)),
    ("driver belt", Before(PreLine::Belt)),
    ("frontal air bag warning lamp", Before(PreLine::Lamp)),
    ("end of event", After(CrashLine::End)),
    ("delta-V longitudinal, km/h", After(CrashLine::Along)),
    ("delta-V lateral, km/h", After(CrashLine::Across)),
    ("maximum delta-V longitudinal", After(CrashLine::MaxAlong)),
    ("maximum delta-V lateral", After(CrashLine::MaxAcross)),
    ("time of maximum resultant", After(CrashLine::ResultAt)),
    ("ticks without sample", After(CrashLine::Missing)),
    fired!("driver frontal deployment", DriverFrontal),
    fired!("passenger frontal deployment", PassengerFrontal),
    fired!("driver side deployment", DriverSide),
    fired!("passenger side deployment", PassengerSide),
    fired!("driver curtain deployment", DriverCurtain),
    fired!("passenger curtain deployment", PassengerCurtain),
    fired!("driver pretensioner deployment", DriverPretensioner),
    fired!("passenger pretensioner deployment", PassengerPretensioner),
    ("complete file recorded", EventLine::Complete),
];

/// Appends what a line of an event shows.
pub fn put_value(
    out: &mut String,
    block: u64,
    bank: u8,
    event: &Record,
    line: EventLine,
) -> Result<(), OutOfMemory>
    ensures { OnOk result (string_bytes out.new ≡ string_bytes out.old ++ event_words block bank event.now line) }
{
    match line {
        EventLine::Number => write!(out, "{block}"),
        EventLine::Bank => write!(out, "{bank}"),
        Before(line) => put_before(out, &event.pre, event.locked, line),
        After(line) => match &event.crash {
            Some(crash) => put_after(out, crash, line),
            None => out.push_str(NONE),
        },
        EventLine::Complete => out.push_str(yes_no(event.complete())),
    }
}

// Appends what a line of what stood before time zero shows.
fn put_before(out: &mut String, pre: &Pre, locked: bool, line: PreLine) -> Result<(), OutOfMemory>
    ensures { OnOk result (string_bytes out.new ≡ string_bytes out.old ++ pre_words pre.now locked line) }
{
    match line {
        PreLine::Cycle => put_count(out, pre.key.cycle),
        PreLine::TimeZero => put_milliseconds(out, pre.key.zero),
        PreLine::Events => out.push_str(match pre.place {
            Place::First => "1",
            Place::Second { .. } => "2",
        }),
        PreLine::Between => put_time_between(out, pre.place),
        PreLine::Deployment => out.push_str(yes_no(locked)),
        PreLine::Profile => out.push_str(match pre.profile() {
            Profile::Short => "short",
            Profile::Long => "long",
        }),
        PreLine::Speed => put_spaced(out, pre.speed()),
        PreLine::Throttle => put_spaced(out, pre.throttle()),
        PreLine::Brake => put_spaced(out, pre.brake()),
        PreLine::Belt => pre.belt.put(out),
        PreLine::Lamp => pre.lamp.put(out),
    }
}

// Appends what a line of what came after it shows.
fn put_after(out: &mut String, crash: &Crash, line: CrashLine) -> Result<(), OutOfMemory>
    ensures { OnOk result (string_bytes out.new ≡ string_bytes out.old ++ crash_words crash.now line) }
{
    match line {
        CrashLine::End => put_milliseconds(out, u32::from(crash.end)),
        CrashLine::Along => put_spaced(out, &crash.along[..point_count(crash.end)]),
        CrashLine::Across => put_spaced(out, &crash.across[..point_count(crash.end)]),
        CrashLine::MaxAlong => put_extreme(out, crash.max_along),
        CrashLine::MaxAcross => put_extreme(out, crash.max_across),
        CrashLine::ResultAt => put_milliseconds(out, u32::from(crash.result_at)),
        CrashLine::Missing => write!(
            out,
            "{} longitudinal, {} lateral",
            crash.missing_along, crash.missing_across
        ),
        Fired(restraint) => put_firing(out, crash.fired[restraint.place()]),
    }
}
