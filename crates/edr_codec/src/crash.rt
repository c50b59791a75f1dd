//! The crash part: 136 bytes, and those of 0 that its form has after them.

ghost use Rattle.std.specs.Prelude.{◌≡◌, ◌+◌, ◌*◌, ◌^◌, ◌<◌, ◌≤◌, ◌++◌, None, Some, IfOk, IfErr, OnOk, All, length, take, max, slice_index, sum_by};
ghost use Rattle.std.specs.List.{flat_map};
ghost use Rattle.edr_record.specs.Bounds.{IsCrash};
ghost use Rattle.edr_image.specs.PartBytes.{crash_fields_by, crash_size, crash_damage, crash_damage_by, crash_at, crash_bytes, crash_bytes_by, extreme_at, extreme_bytes};
ghost use Rattle.edr_codec.specs.Rows.{fields_of, row_size};

use crate::Damaged;
use crate::pieces::{PartValue, put_all, put_zeros, read_all};
use crate::rows::{FieldRow, check_rows};
use edr_image::forms::{CrashForm, VERSION_2};
use edr_image::places::CRASH_SIZE;
use edr_record::{
    Crash, EARLIEST_END, Extreme, GREATEST_CHANGE, POINTS, RESET, point_count, window_from_end,
};

// The fields of a crash part with this end.
fn crash_rows(end: u16, form: &CrashForm) -> [FieldRow; 13]
    ensures fields { flat_map fields_of result ≡ crash_fields_by form.now end }
    ensures sizes { All (λ r. r.size ≤ 4) result }
    ensures room { sum_by row_size result ≡ crash_size form.now }
{
    let count = point_count(end);
    let window = u32::from(window_from_end(end));
    let last = u32::from(end).max(window);
    let rise = (0, GREATEST_CHANGE);
    let fall = (65_536 - GREATEST_CHANGE, 65_535);
    let changes = FieldRow::either(count - 1, 2, rise, fall);
    let change = FieldRow::either(1, 2, rise, fall);
    let past = FieldRow::of(POINTS - count, 2, (0, 0));
    let first = FieldRow::of(1, 2, (0, 0));
    let time = FieldRow::of(1, 2, (0, window));
    [
        FieldRow::of(1, 2, (u32::from(EARLIEST_END), u32::from(RESET))),
        first,
        changes,
        past,
        first,
        changes,
        past,
        change,
        time,
        change,
        FieldRow::of(4, 2, (0, window)),
        FieldRow::either(8, 2, (0, last), (0xffff, 0xffff)),
        FieldRow::of(form.zeros, 1, (0, 0)),
    ]
}

// The extreme whose bytes begin at a place.
fn extreme_from(bytes: &[u8], at: usize) -> Extreme
    requires { at + 4 ≤ length bytes.now }
    ensures { result ≡ extreme_at bytes.now at }
{
    Extreme {
        kmh: i16::read_at(bytes, at),
        at: u16::read_at(bytes, at + 2),
    }
}

// Writes an extreme over the bytes that begin at a place.
fn put_extreme(extreme: Extreme, out: &mut [u8], at: usize)
    requires { at + 4 ≤ length out.old }
    ensures { take (at + 4) out.new ≡ take at out.old ++ extreme_bytes extreme }
{
    extreme.kmh.put_at(out, at);
    extreme.at.put_at(out, at + 2);
}

// Writes the bytes that spell a crash part, whatever stood there before.
#[tactic(auto, unfolding(edr_image::specs::PartBytes::crash_bytes_by))]
fn put_crash_by(crash: &Crash, out: &mut [u8], form: &CrashForm)
    requires { length out.old ≡ crash_size form.now }
    ensures { out.new ≡ crash_bytes_by form.now crash.now }
{
    crash.end.put_at(out, 0);
    put_all(&crash.along, out, 2);
    put_all(&crash.across, out, 54);
    put_extreme(crash.max_along, out, 106);
    put_extreme(crash.max_across, out, 110);
    crash.result_at.put_at(out, 114);
    crash.missing_along.put_at(out, 116);
    crash.missing_across.put_at(out, 118);
    put_all(&crash.fired, out, 120);
    put_zeros(out, 136, form.zeros);
}

// The crash part that bytes say, whose bounds hold.
fn crash_from(bytes: &[u8]) -> Crash
    requires room { 136 ≤ length bytes.now }
    requires bounds { IsCrash (crash_at bytes.now 0) }
    ensures { result ≡ crash_at bytes.now 0 }
{
    Crash {
        end: u16::read_at(bytes, 0),
        along: read_all(bytes, 2),
        across: read_all(bytes, 54),
        max_along: extreme_from(bytes, 106),
        max_across: extreme_from(bytes, 110),
        result_at: u16::read_at(bytes, 114),
        missing_along: u16::read_at(bytes, 116),
        missing_across: u16::read_at(bytes, 118),
        fired: read_all(bytes, 120),
    }
}

// Whether bytes are those of a crash part, and else where they begin none.
#[tactic(auto, unfolding(edr_image::specs::PartBytes::crash_damage_by))]
fn check_crash(bytes: &[u8], form: &CrashForm) -> Result<(), Damaged>
    requires long { length bytes.now ≡ crash_size form.now }
    requires few { length bytes.now < 2 ^ 16 }
    ensures whole { OnOk result (crash_damage_by form.now bytes.now 0 ≡ None) }
    ensures damaged { IfErr result (λ d. crash_damage_by form.now bytes.now 0 ≡ Some d.offset) }
    ensures found { IfErr result (λ d. d.found ≡ slice_index bytes.now d.offset) }
{
    check_rows(bytes, &crash_rows(u16::read_at(bytes, 0), form))
}

/// The crash part that the bytes spell in a form, or the first byte with which they begin none.
pub fn read_crash_by(bytes: &[u8], form: &CrashForm) -> Result<Crash, Damaged>
    requires long { length bytes.now ≡ crash_size form.now }
    requires few { length bytes.now < 2 ^ 16 }
    ensures read { IfOk result (λ c. c ≡ crash_at bytes.now 0) }
    ensures whole { OnOk result (crash_damage_by form.now bytes.now 0 ≡ None) }
    ensures damaged { IfErr result (λ d. crash_damage_by form.now bytes.now 0 ≡ Some d.offset) }
    ensures found { IfErr result (λ d. d.found ≡ slice_index bytes.now d.offset) }
{
    check_crash(bytes, form)?;
    Ok(crash_from(bytes))
}

/// Writes the bytes that spell a crash part, whatever stood there before.
pub fn put_crash(crash: &Crash, out: &mut [u8; CRASH_SIZE])
    ensures { out.new ≡ crash_bytes crash.now }
{
    put_crash_by(crash, out, &VERSION_2.crash);
}

/// The crash part that the bytes spell. Otherwise the answer is the first byte with which they begin none: an end of `00 13`,
/// say, which is 19 ms, is damaged at its second byte.
pub fn read_crash(bytes: &[u8; CRASH_SIZE]) -> Result<Crash, Damaged>
    ensures read { IfOk result (λ c. c ≡ crash_at bytes.now 0) }
    ensures whole { OnOk result (crash_damage bytes.now 0 ≡ None) }
    ensures damaged { IfErr result (λ d. crash_damage bytes.now 0 ≡ Some d.offset) }
    ensures found { IfErr result (λ d. d.found ≡ slice_index bytes.now d.offset) }
{
    read_crash_by(bytes, &VERSION_2.crash)
}
