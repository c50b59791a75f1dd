//! The cycle that several tests use, and how the sensors are dealt to workers.

use edr_board::Freeze;
use edr_items::{Feeds, Item, Sensor};
use edr_loops::{Senders, make_fast_lanes, make_slow_lanes};
use std::alloc::Global;
use std::process::Abort;
use std::test::Fail;

// What sensors sample in one tick.
pub(crate) fn give(
    feeds: &mut Feeds,
    moment: u32,
    samples: &[(Sensor, Option<i32>)],
) -> Result<(), Fail> {
    for &(sensor, value) in samples {
        feeds.add(sensor, Item { moment, value })?;
    }
    Ok(())
}

// Neither axis changes.
pub(crate) const STEADY: [(Sensor, Option<i32>); 2] = [
    (Sensor::Along, Some(0)),
    (Sensor::Across, Some(0)),
];

// What the slow sensors sample at 50 km/h.
const AT_50: [(Sensor, Option<i32>); 5] = [
    (Sensor::Speed, Some(50)),
    (Sensor::Throttle, Some(20)),
    (Sensor::Brake, Some(0)),
    (Sensor::Belt, Some(1)),
    (Sensor::Lamp, Some(0)),
];

// A car that drives for so long, and whose air bag fires at 100 ms: 1,030 items in half a second.
pub(crate) fn fired_feeds(alloc: Global, ticks: u32) -> Result<Feeds, Fail> {
    let mut feeds = Feeds::new(alloc);
    for tick in 1..=ticks {
        give(&mut feeds, tick, &STEADY)?;
        if tick % 100 == 0 {
            let fired = if tick == 100 { Some(1) } else { None };
            give(&mut feeds, tick, &AT_50)?;
            give(&mut feeds, tick, &[(Sensor::Restraint, fired)])?;
        }
    }
    Ok(feeds)
}

// Which sensors have a place here.
fn are_served(senders: &Senders) -> [bool; 8] {
    let fast = &senders.fast;
    let slow = &senders.slow;
    [
        fast.along.is_some(),
        fast.across.is_some(),
        slow.each.speed.is_some(),
        slow.each.throttle.is_some(),
        slow.each.brake.is_some(),
        slow.each.belt.is_some(),
        slow.each.lamp.is_some(),
        fast.restraint.is_some(),
    ]
}

// Each of this number of workers serves its own sensors.
fn assert_dealt(rt: &impl Abort, mut senders: Senders, workers: u32) {
    for w in 0..workers {
        let served = are_served(&senders.deal(w, workers));
        for place in 0..8u32 {
            assert_eq!(rt; served[place as usize], place % workers == w);
        }
    }
}

#[test]
fn each_worker_serves_its_sensors(rt: HostRuntime) -> Result<(), Fail> {
    let alloc = rt.alloc();
    for workers in 1..=8u32 {
        let keepers = Freeze::open(alloc)?.keepers;
        let senders = Senders {
            fast: make_fast_lanes(alloc)?.senders,
            slow: make_slow_lanes(alloc, keepers)?.senders,
        };
        assert_dealt(&rt, senders, workers);
    }
    Ok(())
}
