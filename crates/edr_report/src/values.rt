//! How the values of a report are spelled.

ghost use Rattle.std.specs.Prelude.{◌≡◌, ◌++◌, OnOk, string_bytes, map};
ghost use Rattle.edr_report.specs.Words.{applied_words, stop_words, yes_no, shown_count, time_between, milliseconds, firing_words, spaced_words, extreme_words};

use crate::{number_shown, tenths_of};
use edr_image::Applied;
use edr_record::{Extreme, Place};
use std::alloc::AllocError as OutOfMemory;

/// What stands where there is no value.
pub const NONE: &str = "none";

/// What stands in one slot of a list.
pub trait Slot {
    ghost use Rattle.std.specs.Prelude.{ℕ, List};

    ghost words: { Self → List ℕ };

    /// Appends it.
    fn put(&self, out: &mut String) -> Result<(), OutOfMemory>
        ensures { OnOk result (string_bytes out.new ≡ string_bytes out.old ++ words self.now) };
}

impl Slot for i16 {
    ghost use Rattle.std.specs.Fmt.{signed_decimal};

    ghost words = { signed_decimal };

    fn put(&self, out: &mut String) -> Result<(), OutOfMemory> {
        write!(out, "{self}")
    }
}

impl Slot for u16 {
    ghost use Rattle.std.specs.Prelude.{decimal};

    ghost words = { decimal };

    fn put(&self, out: &mut String) -> Result<(), OutOfMemory> {
        write!(out, "{self}")
    }
}

impl Slot for u8 {
    ghost use Rattle.std.specs.Prelude.{decimal};

    ghost words = { decimal };

    fn put(&self, out: &mut String) -> Result<(), OutOfMemory> {
        write!(out, "{self}")
    }
}

impl Slot for bool {
    ghost use Rattle.edr_report.specs.Words.{on_off};

    ghost words = { on_off };

    fn put(&self, out: &mut String) -> Result<(), OutOfMemory> {
        out.push_str(if *self { "on" } else { "off" })
    }
}

impl<S: Slot> Slot for Option<S> {
    ghost use Rattle.std.specs.Option.{option_map_or};
    ghost use Rattle.edr_report.specs.Words.{none_word};

    ghost words = { λ slot. option_map_or S.words slot none_word };

    fn put(&self, out: &mut String) -> Result<(), OutOfMemory> {
        match self {
            Some(value) => value.put(out),
            None => out.push_str(NONE),
        }
    }
}

/// Appends slots, parted by one space.
pub fn put_spaced<S: Slot>(out: &mut String, slots: &[S]) -> Result<(), OutOfMemory>
    ensures { OnOk result (string_bytes out.new ≡ string_bytes out.old ++ spaced_words (map S.words slots.now)) }
{
    for (i, slot) in slots.iter().enumerate() {
        if i > 0 {
            out.push_str(" ")?;
        }
        slot.put(out)?;
    }
    Ok(())
}

pub fn put_extreme(out: &mut String, extreme: Extreme) -> Result<(), OutOfMemory>
    ensures { OnOk result (string_bytes out.new ≡ string_bytes out.old ++ extreme_words extreme) }
{
    let Extreme { kmh, at } = extreme;
    write!(out, "{kmh} km/h at {at} ms")
}

pub fn put_milliseconds(out: &mut String, time: u32) -> Result<(), OutOfMemory>
    ensures { OnOk result (string_bytes out.new ≡ string_bytes out.old ++ milliseconds time) }
{
    write!(out, "{time} ms")
}

/// Appends when a restraint fired first.
pub fn put_firing(out: &mut String, fired: Option<u16>) -> Result<(), OutOfMemory>
    ensures { OnOk result (string_bytes out.new ≡ string_bytes out.old ++ firing_words fired) }
{
    match fired {
        Some(time) => put_milliseconds(out, u32::from(time)),
        None => out.push_str(NONE),
    }
}

/// Appends the time from the first event to the one in this place.
pub fn put_time_between(out: &mut String, place: Place) -> Result<(), OutOfMemory>
    ensures { OnOk result (string_bytes out.new ≡ string_bytes out.old ++ time_between place) }
{
    match place {
        Place::First => out.push_str(NONE),
        Place::Second { after } => {
            let tenths = tenths_of(after);
            write!(out, "{}.{} s", tenths / 10, tenths % 10)
        }
    }
}

/// Appends a count of ignition cycles, which is shown up to a bound.
pub fn put_count(out: &mut String, count: u32) -> Result<(), OutOfMemory>
    ensures { OnOk result (string_bytes out.new ≡ string_bytes out.old ++ shown_count count) }
{
    write!(out, "{}", number_shown(count))
}

pub fn put_applied(out: &mut String, applied: Applied) -> Result<(), OutOfMemory>
    ensures { OnOk result (string_bytes out.new ≡ string_bytes out.old ++ applied_words applied) }
{
    match applied {
        Applied::Kept { bank } | Applied::Locked { bank } | Applied::Done { bank } => {
            write!(out, "bank {bank}")
        }
        Applied::NotKept => out.push_str("not kept"),
    }
}

/// Appends how a cycle ended.
pub fn put_stop(out: &mut String, stopped: Option<u32>) -> Result<(), OutOfMemory>
    ensures { OnOk result (string_bytes out.new ≡ string_bytes out.old ++ stop_words stopped) }
{
    match stopped {
        Some(call) => write!(out, "stopped in call {call}"),
        None => out.push_str("power off"),
    }
}

pub fn yes_no(b: bool) -> &'static str
    ensures { result.now ≡ yes_no b }
{
    if b { "yes" } else { "no" }
}
