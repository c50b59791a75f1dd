//! Items that a sensor may give one after the other.

ghost use Rattle.std.specs.Prelude.{◌≡◌, ◌≤◌, ◌<◌, IsSome, get_or, length, take};
ghost use Rattle.edr_items.specs.declared.Item.{Item};
ghost use Rattle.edr_items.specs.Item.{mark_from, refusal_of};
ghost use Rattle.edr_seats.specs.Accepted.{AreAccepted};

use edr_items::{Item, Sensor, check};

// The last moment of these items, or else that one.
pub fn last_of(items: &[Item], before: u32) -> u32
    ensures { result ≡ mark_from before items.now }
{
    match items.last() {
        Some(item) => item.moment,
        None => before,
    }
}

// How many of the items, from the first on, the sensor may give one after the other and after that moment.
pub fn count_accepted(sensor: Sensor, before: u32, items: &[Item]) -> usize
    ensures count { result ≤ length items.now }
    ensures accepted { AreAccepted sensor before (take result items.now) }
    ensures refused { (d : Item) → result < length items.now → IsSome
        (refusal_of sensor (mark_from before (take result items.now)) (get_or items.now result d)) }
{
    let mut last = before;
    for k in 0..items.len() {
        if check(sensor, last, &items[k]).is_err() {
            return k;
        }
        last = items[k].moment;
    }
    items.len()
}
