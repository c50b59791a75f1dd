//! What a trace is: which bytes spell which ignition cycles, and what is wrong with all other bytes.
//!
//! A trace is read as records of comma-separated fields, without a header, and each record is a row: `on,0,` begins a
//! cycle, `along,17,-4000` is a sample of a sensor at a millisecond of its cycle, `along,17,` says that the sensor was silent
//! up to there, and `cut,0,` ends the cycle. Here stand the types of it, the definitions (`specs/`) and their laws; the
//! reader is a crate above.
#![tactic(auto)]

ghost use Rattle.std.specs.Prelude.{◌≡◌, ◌≤◌, length};
ghost use Rattle.edr_spell.specs.Rows.{spelling_of};

pub mod laws;

use edr_items::{Feeds, Item, Sensor};

/// One ignition cycle, as a trace gives it. A changing call is a call that changes the memory of the records; the power may
/// stop in one. What is said of the fields holds of each cycle that a trace spells
/// ([`laws::spelled_cycles_are_level`]).
#[derive(Drop)]
pub struct CycleInput {
    /// The changing call of the cycle's start in which the power stops, from 1 to 6; 0 where the start is done. A cycle
    /// whose start is stopped has no items, and its `stop` is 0.
    pub start_stop: u32,
    /// What the sensors gave. No sensor lags.
    pub feeds: Feeds,
    /// The changing call of the cycle's commands in which the power stops, counted from 1; 0 where it goes off after
    /// them.
    pub stop: u32,
}

/// The word in a row's first field.
#[derive(Clone, Copy, Debug, PartialEq, Eq)]
pub enum Word {
    /// A cycle begins.
    On,
    /// The cycle ends.
    Cut,
    /// A sensor says something.
    Of(Sensor),
}

/// The words that a row may begin with.
pub const WORDS: [Word; 10] = [
    Word::On,
    Word::Cut,
    Word::Of(Sensor::Along),
    Word::Of(Sensor::Across),
    Word::Of(Sensor::Speed),
    Word::Of(Sensor::Throttle),
    Word::Of(Sensor::Brake),
    Word::Of(Sensor::Belt),
    Word::Of(Sensor::Lamp),
    Word::Of(Sensor::Restraint),
];

impl Word {
    /// How a trace spells it.
    pub fn spelling(&self) -> &'static str
        ensures word { result.now ≡ spelling_of self.now }
        ensures short { length result.now ≤ 9 }
    {
        match self {
            Word::On => "on",
            Word::Cut => "cut",
            Word::Of(Sensor::Along) => "along",
            Word::Of(Sensor::Across) => "across",
            Word::Of(Sensor::Speed) => "speed",
            Word::Of(Sensor::Throttle) => "throttle",
            Word::Of(Sensor::Brake) => "brake",
            Word::Of(Sensor::Belt) => "belt",
            Word::Of(Sensor::Lamp) => "lamp",
            Word::Of(Sensor::Restraint) => "restraint",
        }
    }
}

/// A row of a trace.
#[derive(Clone, Copy, Debug, PartialEq, Eq)]
pub enum Row {
    /// `on,k,`: a cycle begins; where k isn't 0 its start is stopped in changing call k, and it has no more rows.
    On { stop: u32 },
    /// `along,17,-4000`, or `along,17,` without a value.
    Sample { sensor: Sensor, item: Item },
    /// `cut,k,`: the cycle ends; where k isn't 0 the power stops in changing call k of its commands.
    Cut { stop: u32 },
}

/// What is wrong with a row. Of several the first is told, in this order.
#[derive(Clone, Copy, Debug, PartialEq, Eq)]
pub enum TraceFault {
    /// It hasn't three fields.
    Fields { found: u32 },
    /// Its first field is no word that a row may begin with.
    Word,
    /// A number isn't in its one spelling, or is outside what may stand in that field: 2 or 3.
    Number { field: u8 },
    /// `on` inside a cycle, or another row outside one.
    Place,
    /// The moment isn't past the sensor's last one in the cycle, 0 before its first.
    Order { last: u32 },
    /// The moment is past the last one that a cycle may have.
    Moment { limit: u32 },
    /// The value is outside the sensor's range.
    Range { low: i32, high: i32 },
    /// The moment is more than 1,000 past the sensor's last one.
    Gap { last: u32 },
    /// The cycle ends where this sensor lags: its last moment is more than 1,000 before another's. Of several the
    /// lowest-numbered is told.
    Skew { sensor: Sensor },
    /// The trace ends inside a cycle. The row is the missing one.
    Unended,
}

/// The first row of a trace that has a fault, and its fault.
#[derive(Clone, Copy, Debug, PartialEq, Eq)]
pub struct TraceRefused {
    /// Counted from 1. A blank line is no row.
    pub row: u32,
    pub fault: TraceFault,
}
