//! A sensor's list at a tick.

ghost use Rattle.std.specs.Prelude.{◌≡◌, ◌≤◌};
ghost use Rattle.edr_items.specs.declared.TheConstants.{LATEST_MOMENT};
ghost use Rattle.edr_items.specs.Item.{IsRising};
ghost use Rattle.edr_items.specs.SensorLists.{AreFeeds, horizon_of};
ghost use Rattle.edr_definitions.specs.Signals.{sample_at};
ghost use Rattle.edr_definitions.specs.Windows.{change_at};
ghost use Rattle.edr_selection.specs.Places.{IsPlacePast};

use edr_items::{Feeds, Item, Sensor};

// Each list is one that its sensor may give. `of` says so of one list, so each is looked at.
pub fn are_feeds(feeds: &Feeds)
    ensures { AreFeeds feeds.now }
{
    let _along = feeds.of(Sensor::Along);
    let _across = feeds.of(Sensor::Across);
    let _speed = feeds.of(Sensor::Speed);
    let _throttle = feeds.of(Sensor::Throttle);
    let _brake = feeds.of(Sensor::Brake);
    let _belt = feeds.of(Sensor::Belt);
    let _lamp = feeds.of(Sensor::Lamp);
    let _restraint = feeds.of(Sensor::Restraint);
}

// The least mark of the sensors, which is within a day.
pub fn horizon(feeds: &Feeds) -> u32
    ensures value { result ≡ horizon_of feeds.now }
    ensures within { result ≤ LATEST_MOMENT }
{
    are_feeds(feeds);
    feeds.horizon()
}

// How many of the items have a moment of at most t. A sensor that has given one at each tick from the start has t of them,
// so that place is looked at first.
pub fn place_past(items: &[Item], t: u32) -> usize
    requires { IsRising items.now }
    ensures { IsPlacePast items.now t result }
{
    let dense = t as usize;
    if 0 < dense && dense <= items.len() && items[dense - 1].moment == t {
        return dense;
    }
    items.partition_point(|item| item.moment <= t)
}

// The sample of a tick, if there is one.
pub fn sample(items: &[Item], t: u32) -> Option<i32>
    requires { IsRising items.now }
    ensures { result ≡ sample_at items.now t }
{
    let past = place_past(items, t);
    if 0 < past && items[past - 1].moment == t {
        return items[past - 1].value;
    }
    None
}

// The change of speed in a tick, and 0 without a sample.
pub fn change(items: &[Item], t: u32) -> i32
    requires { IsRising items.now }
    ensures { result ≡ change_at (sample_at items.now) t }
{
    sample(items, t).unwrap_or(0)
}
