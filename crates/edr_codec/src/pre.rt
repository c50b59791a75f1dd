//! The pre part: twelve bytes, three lists with room for as many slots as its form says, of which its profile uses the first
//! ones, two switches, and the bytes of 0 that its form has after them.

ghost use Rattle.std.specs.Prelude.{◌≡◌, ◌+◌, ◌^◌, ◌<◌, ◌≤◌, ◌++◌, None, Some, IfOk, IfErr, OnOk, All, length, take, slice_index, sum_by, nat_eq, if◌then◌else◌};
ghost use Rattle.std.specs.List.{flat_map};
ghost use Rattle.edr_record.specs.Bounds.{IsPre, slots_in};
ghost use Rattle.edr_record.specs.Fields.{slots_with};
ghost use Rattle.edr_image.specs.PartBytes.{pre_size, slots_of, profile_byte, profile_from, throttle_at, brake_at, belt_at, lamp_at, end_at, IsPreForm, HasSlots, pre_fields_by, pre_damage, pre_damage_by, pre_at, pre_at_by, pre_bytes, pre_bytes_by, place_bytes, number_at};
ghost use Rattle.edr_codec.specs.Rows.{fields_of, row_size};

use crate::Damaged;
use crate::pieces::{PartValue, put_all, put_bytes, put_zeros, read_all};
use crate::rows::{FieldRow, check_rows};
use byteorder::{BigEndian, ByteOrder};
use edr_image::forms::{PreForm, VERSION_2};
use edr_image::places::PRE_SIZE;
use edr_items::LATEST_MOMENT;
use edr_record::{Key, LONGEST_PAIR, Place, Pre, Profile, Slots};

// Where the speeds begin.
const SPEED: usize = 12;

// How many slots of each list a part with this profile byte uses.
fn slots_of(form: &PreForm, profile: u8) -> usize
    ensures { result ≡ slots_of form.now profile }
{
    if profile == form.short.byte {
        form.short.slots
    } else {
        form.long.slots
    }
}

// The profile of a part with this profile byte.
fn profile_from(form: &PreForm, profile: u8) -> Profile
    ensures { result ≡ profile_from form.now profile }
{
    if profile == form.short.byte {
        Profile::Short
    } else {
        Profile::Long
    }
}

// The profile byte of a part of this profile.
fn profile_byte(form: &PreForm, profile: Profile) -> u8
    ensures { result ≡ profile_byte form.now profile }
{
    match profile {
        Profile::Short => form.short.byte,
        Profile::Long => form.long.byte,
    }
}

// Where the slots of the throttle begin.
fn throttle_at(form: &PreForm) -> usize
    requires { pre_size form.now < 2 ^ 16 }
    ensures { result ≡ throttle_at form.now }
{
    SPEED + 2 * form.room
}

// Where the slots of the brake begin.
fn brake_at(form: &PreForm) -> usize
    requires { pre_size form.now < 2 ^ 16 }
    ensures { result ≡ brake_at form.now }
{
    SPEED + 3 * form.room
}

// Where the belt stands.
fn belt_at(form: &PreForm) -> usize
    requires { pre_size form.now < 2 ^ 16 }
    ensures { result ≡ belt_at form.now }
{
    SPEED + 4 * form.room
}

// Where the lamp stands.
fn lamp_at(form: &PreForm) -> usize
    requires { pre_size form.now < 2 ^ 16 }
    ensures { result ≡ lamp_at form.now }
{
    belt_at(form) + 1
}

// Where the bytes of 0 at the end begin.
fn end_at(form: &PreForm) -> usize
    requires { pre_size form.now < 2 ^ 16 }
    ensures { result ≡ end_at form.now }
{
    belt_at(form) + 2
}

// The fields of a pre part with these place and profile bytes.
fn pre_rows(place: u8, profile: u8, form: &PreForm) -> [FieldRow; 13]
    requires fits { slots_of form.now profile ≤ form.now.room }
    requires few { pre_size form.now < 2 ^ 16 }
    ensures fields { flat_map fields_of result ≡ pre_fields_by form.now place profile }
    ensures sizes { All (λ r. r.size ≤ 4) result }
    ensures room { sum_by row_size result ≡ pre_size form.now }
{
    let slots = slots_of(form, profile);
    let rest = form.room - slots;
    let profiles = (u32::from(form.short.byte), u32::from(form.long.byte));
    let after = if place == 1 {
        (0, 0)
    } else {
        (1, LONGEST_PAIR)
    };
    let past = FieldRow::of(rest, 1, (0, 0));
    [
        FieldRow::of(1, 4, (1, u32::MAX)),
        FieldRow::of(1, 4, (1, LATEST_MOMENT)),
        FieldRow::of(1, 1, (1, 2)),
        FieldRow::of(1, 1, profiles),
        FieldRow::of(1, 2, after),
        FieldRow::either(slots, 2, (0, 300), (0xffff, 0xffff)),
        FieldRow::of(2 * rest, 1, (0, 0)),
        FieldRow::either(slots, 1, (0, 100), (0xff, 0xff)),
        past,
        FieldRow::either(slots, 1, (0, 1), (0xff, 0xff)),
        past,
        FieldRow::either(2, 1, (0, 1), (0xff, 0xff)),
        FieldRow::of(form.zeros, 1, (0, 0)),
    ]
}

// The place that the bytes of a pre part say.
fn place_from(bytes: &[u8]) -> Place
    requires { 12 ≤ length bytes.now }
    ensures { result ≡ (if nat_eq (slice_index bytes.now 8) 1 then Place.First else Place.Second (number_at bytes.now 10 2)) }
{
    match bytes[8] {
        1 => Place::First,
        _ => Place::Second {
            after: u32::from(BigEndian::read_u16(&bytes[10..])),
        },
    }
}

// Writes a place, with a profile byte in it, over the bytes that begin at a place of theirs.
fn put_place(place: Place, profile: u8, out: &mut [u8], at: usize)
    requires { at + 4 ≤ length out.old }
    ensures { take (at + 4) out.new ≡ take at out.old ++ place_bytes profile place }
{
    let bytes = match place {
        Place::First => [1, profile, 0, 0],
        Place::Second { after } => {
            let after = after.to_be_bytes();
            [2, profile, after[2], after[3]]
        }
    };
    put_bytes(out, at, &bytes);
}

// Writes the bytes that spell a pre part, whatever stood there before.
#[tactic(auto, unfolding(edr_image::specs::PartBytes::pre_bytes_by))]
fn put_pre_by(pre: &Pre, out: &mut [u8], form: &PreForm)
    requires fits { slots_in pre.now.profile ≤ form.now.room }
    requires few { pre_size form.now < 2 ^ 16 }
    requires long { length out.old ≡ pre_size form.now }
    ensures { out.new ≡ pre_bytes_by form.now pre.now }
{
    pre.key.cycle.put_at(out, 0);
    pre.key.zero.put_at(out, 4);
    let slots = pre.speed().len();
    let rest = form.room - slots;
    put_place(pre.place, profile_byte(form, pre.profile()), out, 8);
    put_all(pre.speed(), out, SPEED);
    put_zeros(out, SPEED + 2 * slots, 2 * rest);
    put_all(pre.throttle(), out, throttle_at(form));
    put_zeros(out, throttle_at(form) + slots, rest);
    put_all(pre.brake(), out, brake_at(form));
    put_zeros(out, brake_at(form) + slots, rest);
    pre.belt.put_at(out, belt_at(form));
    pre.lamp.put_at(out, lamp_at(form));
    put_zeros(out, end_at(form), form.zeros);
}

// The lists of the pre part that bytes say.
#[tactic(auto, unfolding(edr_image::specs::PartBytes::pre_at_by))]
fn slots_from(bytes: &[u8], form: &PreForm) -> Slots
    requires few { pre_size form.now < 2 ^ 16 }
    requires long { length bytes.now ≡ pre_size form.now }
    requires fits { slots_of form.now (slice_index bytes.now 9) ≤ form.now.room }
    requires slots { let b = slice_index bytes.now 9 in slots_of form.now b ≡ slots_in (profile_from form.now b) }
    ensures { let p = pre_at_by form.now bytes.now 0 in
        result ≡ slots_with p.profile p.speed p.throttle p.brake }
{
    match profile_from(form, bytes[9]) {
        Profile::Short => Slots::Short {
            speed: read_all(bytes, SPEED),
            throttle: read_all(bytes, throttle_at(form)),
            brake: read_all(bytes, brake_at(form)),
        },
        Profile::Long => Slots::Long {
            speed: read_all(bytes, SPEED),
            throttle: read_all(bytes, throttle_at(form)),
            brake: read_all(bytes, brake_at(form)),
        },
    }
}

// The pre part that bytes say, whose bounds hold.
fn pre_from(bytes: &[u8], form: &PreForm) -> Pre
    requires few { pre_size form.now < 2 ^ 16 }
    requires long { length bytes.now ≡ pre_size form.now }
    requires fits { slots_of form.now (slice_index bytes.now 9) ≤ form.now.room }
    requires slots { let b = slice_index bytes.now 9 in slots_of form.now b ≡ slots_in (profile_from form.now b) }
    requires bounds { IsPre (pre_at_by form.now bytes.now 0) }
    ensures { result ≡ pre_at_by form.now bytes.now 0 }
{
    Pre {
        key: Key {
            cycle: u32::read_at(bytes, 0),
            zero: u32::read_at(bytes, 4),
        },
        place: place_from(bytes),
        slots: slots_from(bytes, form),
        belt: PartValue::read_at(bytes, belt_at(form)),
        lamp: PartValue::read_at(bytes, lamp_at(form)),
    }
}

// Whether bytes are those of a pre part, and else where they begin none.
#[tactic(auto, unfolding(edr_image::specs::PartBytes::pre_damage_by))]
fn check_pre(bytes: &[u8], form: &PreForm) -> Result<(), Damaged>
    requires form { IsPreForm form.now }
    requires few { length bytes.now < 2 ^ 16 }
    requires long { length bytes.now ≡ pre_size form.now }
    ensures whole { OnOk result (pre_damage_by form.now bytes.now 0 ≡ None) }
    ensures damaged { IfErr result (λ d. pre_damage_by form.now bytes.now 0 ≡ Some d.offset) }
    ensures found { IfErr result (λ d. d.found ≡ slice_index bytes.now d.offset) }
{
    check_rows(bytes, &pre_rows(bytes[8], bytes[9], form))
}

/// The pre part that the bytes spell in a form, or the first byte with which they begin none.
pub fn read_pre_by(bytes: &[u8], form: &PreForm) -> Result<Pre, Damaged>
    requires form { IsPreForm form.now }
    requires slots { HasSlots form.now }
    requires few { length bytes.now < 2 ^ 16 }
    requires long { length bytes.now ≡ pre_size form.now }
    ensures read { IfOk result (λ p. p ≡ pre_at_by form.now bytes.now 0) }
    ensures whole { OnOk result (pre_damage_by form.now bytes.now 0 ≡ None) }
    ensures damaged { IfErr result (λ d. pre_damage_by form.now bytes.now 0 ≡ Some d.offset) }
    ensures found { IfErr result (λ d. d.found ≡ slice_index bytes.now d.offset) }
{
    check_pre(bytes, form)?;
    Ok(pre_from(bytes, form))
}

/// Writes the bytes that spell a pre part, whatever stood there before.
pub fn put_pre(pre: &Pre, out: &mut [u8; PRE_SIZE])
    ensures { out.new ≡ pre_bytes pre.now }
{
    put_pre_by(pre, out, &VERSION_2.pre);
}

/// The pre part that the bytes spell. Otherwise the answer is the first byte with which they begin none: a speed of `01 2d`, say,
/// which is 301 km/h, is damaged at its second byte.
pub fn read_pre(bytes: &[u8; PRE_SIZE]) -> Result<Pre, Damaged>
    ensures read { IfOk result (λ p. p ≡ pre_at bytes.now 0) }
    ensures whole { OnOk result (pre_damage bytes.now 0 ≡ None) }
    ensures damaged { IfErr result (λ d. pre_damage bytes.now 0 ≡ Some d.offset) }
    ensures found { IfErr result (λ d. d.found ≡ slice_index bytes.now d.offset) }
{
    read_pre_by(bytes, &VERSION_2.pre)
}
