//! Cycles that are drawn from a number: pulses at and beside the limits of the definitions, noise, gaps, silences and firings.

use edr_items::{AddRefused, Feeds, Item, SENSORS, Sensor};
use rand::RngExt;
use rand::rngs::SmallRng;
use rand::seq::IndexedRandom;
use rand_core::SeedableRng;
use std::alloc::Global;

// Samples of an axis, in steps of 0.0001 km/h, that over one of the lengths below come to a limit of the definitions, or just
// miss it: over 0.8 km/h within 20, 5 or 1 ticks, at most that by the resultant of both axes, and 8 km/h within 150 ticks.
const CHANGES: [i32; 20] = [
    400, 401, 1_600, 1_601, 4_800, 6_400, 6_401, 7_999, 8_000, 8_001, 533, 534, 4_000, 5_000,
    39_999, 40_000, 79_999, 80_000, 80_001, 100_000,
];

// How many items have one value.
const LENGTHS: [u32; 12] = [1, 1, 2, 5, 6, 19, 20, 21, 100, 149, 150, 520];

// How many ticks lie between two items: mostly one; about the age of a sample that is too old for a slot; the most.
const GAPS: [u32; 12] = [1, 1, 1, 1, 1, 1, 2, 30, 99, 100, 101, 1_000];

// What restraints fire together, a bit for each.
const FIRINGS: [i32; 10] = [1, 2, 4, 8, 16, 32, 64, 128, 192, 255];

// Items of a sensor that follow one another with one value.
#[derive(Clone, Copy)]
struct Stretch {
    value: Option<i32>,
    items: u32,
    gap: u32,
}

// One of these numbers.
fn pick<T: Copy + Default>(rng: &mut SmallRng, numbers: &[T]) -> T {
    numbers.choose(rng).copied().unwrap_or_default()
}

// A stretch of an axis: a pulse in either direction, another change, silence or rest.
fn axis_stretch(rng: &mut SmallRng) -> Stretch {
    let pulse = pick(rng, &CHANGES);
    let value = match rng.random_range(0..6u32) {
        0 => Some(pulse),
        1 => Some(pulse.saturating_neg()),
        2 => Some(rng.random_range(-600..=600)),
        3 => None,
        _ => Some(0),
    };
    Stretch {
        value,
        items: pick(rng, &LENGTHS),
        gap: pick(rng, &GAPS),
    }
}

// A stretch of the restraints: one item, which mostly fires none.
fn restraint_stretch(rng: &mut SmallRng) -> Stretch {
    let value = if rng.random_range(0..3u32) == 0 {
        Some(pick(rng, &FIRINGS))
    } else {
        None
    };
    Stretch {
        value,
        items: 1,
        gap: rng.random_range(1..=600),
    }
}

// A stretch of a slow sensor: one value, or silence.
fn slow_stretch(rng: &mut SmallRng, sensor: Sensor) -> Stretch {
    let value = if rng.random_range(0..4u32) == 0 {
        None
    } else {
        Some(rng.random_range(0..=sensor.highest()))
    };
    Stretch {
        value,
        items: rng.random_range(1..=20),
        gap: pick(rng, &GAPS),
    }
}

// A stretch of that sensor.
fn stretch_of(rng: &mut SmallRng, sensor: Sensor) -> Stretch {
    match sensor {
        Sensor::Along | Sensor::Across => axis_stretch(rng),
        Sensor::Restraint => restraint_stretch(rng),
        _ => slow_stretch(rng, sensor),
    }
}

// Gives a stretch past that moment, and answers its last one.
fn give_stretch(
    feeds: &mut Feeds,
    sensor: Sensor,
    from: u32,
    stretch: Stretch,
) -> Result<u32, AddRefused> {
    let mut moment = from;
    for _ in 0..stretch.items {
        moment = moment.saturating_add(stretch.gap);
        feeds.add(
            sensor,
            Item {
                moment,
                value: stretch.value,
            },
        )?;
    }
    Ok(moment)
}

// Gives stretches of a sensor up to that tick or past it.
fn give_stretches(
    feeds: &mut Feeds,
    sensor: Sensor,
    rng: &mut SmallRng,
    ticks: u32,
) -> Result<(), AddRefused> {
    let mut moment = 0;
    for _ in 0..ticks {
        if moment >= ticks {
            break;
        }
        let stretch = stretch_of(rng, sensor);
        moment = give_stretch(feeds, sensor, moment, stretch)?;
    }
    Ok(())
}

// How long that cycle is at least: 2.5 s, and each fiftieth 25 s, so that slots are looked for all of 20 s back.
fn ticks_of(number: u64) -> u32 {
    if number % 50 == 0 { 25_000 } else { 2_500 }
}

// The lists of the cycle with that number, which are always the same.
pub(crate) fn drawn_feeds(alloc: Global, number: u64) -> Result<Feeds, AddRefused> {
    let mut rng = SmallRng::seed_from_u64(number);
    let mut feeds = Feeds::new(alloc);
    for sensor in SENSORS {
        give_stretches(&mut feeds, sensor, &mut rng, ticks_of(number))?;
    }
    Ok(feeds)
}
