//! The slots of a sensor as a record has them.

ghost use Rattle.std.specs.Prelude.{◌≡◌, unsigned_abs, option_map, All};
ghost use Rattle.edr_record.specs.Bounds.{IsUpTo};
ghost use Rattle.edr_definitions.specs.Parts.{numbers, switch, switches};

use edr_record::LONG_SLOTS;

// A slot in km/h.
fn speed_of(slot: Option<i32>) -> Option<u16>
    requires { IsUpTo 300 (option_map unsigned_abs slot) }
    ensures { result ≡ option_map unsigned_abs slot }
{
    match slot {
        Some(v) => Some(v.unsigned_abs() as u16),
        None => None,
    }
}

// Slots in km/h.
pub fn speeds(slots: &[Option<i32>; LONG_SLOTS]) -> [Option<u16>; LONG_SLOTS]
    requires { All (IsUpTo 300) (numbers slots.now) }
    ensures { result ≡ numbers slots.now }
{
    let mut speeds = [None; LONG_SLOTS];
    for (k, slot) in slots.iter().enumerate() {
        speeds[k] = speed_of(*slot);
    }
    speeds
}

// A slot in per cent.
fn per_cent_of(slot: Option<i32>) -> Option<u8>
    requires { IsUpTo 100 (option_map unsigned_abs slot) }
    ensures { result ≡ option_map unsigned_abs slot }
{
    match slot {
        Some(v) => Some(v.unsigned_abs() as u8),
        None => None,
    }
}

// Slots in per cent.
pub fn per_cents(slots: &[Option<i32>; LONG_SLOTS]) -> [Option<u8>; LONG_SLOTS]
    requires { All (IsUpTo 100) (numbers slots.now) }
    ensures { result ≡ numbers slots.now }
{
    let mut per_cents = [None; LONG_SLOTS];
    for (k, slot) in slots.iter().enumerate() {
        per_cents[k] = per_cent_of(*slot);
    }
    per_cents
}

// Whether a switch is on: it gives 1 then.
pub fn switch_of(slot: Option<i32>) -> Option<bool>
    ensures { result ≡ switch slot }
{
    slot.map(|v| v.unsigned_abs() == 1)
}

// Slots of a switch.
pub fn switches_of(slots: &[Option<i32>; LONG_SLOTS]) -> [Option<bool>; LONG_SLOTS]
    ensures { result ≡ switches slots.now }
{
    let mut switches = [None; LONG_SLOTS];
    for (k, slot) in slots.iter().enumerate() {
        switches[k] = switch_of(*slot);
    }
    switches
}
