use crate::dealt_sensors::fired_feeds;
use edr_core::{Core, Step};
use edr_items::{Item, Sensor};
use std::alloc::Global;
use std::test::Fail;

// A core that was given the cycle of an air bag that fires at 100 ms, of one sensor after the other.
fn given(alloc: Global, sensors: [u8; 8]) -> Result<Core, Fail> {
    let feeds = fired_feeds(alloc, 200)?;
    let mut core = Core::open(alloc, 1)?;
    for number in sensors {
        let sensor = Sensor::from_number(number).ok_or("a sensor")?;
        for item in feeds.of(sensor) {
            core.accept(sensor, *item)?;
        }
    }
    Ok(core)
}

// What it issues, each with its tick.
fn issued(alloc: Global, mut core: Core) -> Result<Vec<(u32, &'static str)>, Fail> {
    let mut issued = Vec::new(alloc);
    for _ in 0..200 {
        let Step::Closed {
            tick,
            take,
            lock,
            done,
        } = core.step()
        else {
            return Err("a closed tick".into());
        };
        if take.is_some() {
            issued.push((tick, "take"))?;
        }
        if lock.is_some() {
            issued.push((tick, "lock"))?;
        }
        if done.is_some() {
            issued.push((tick, "done"))?;
        }
    }
    Ok(issued)
}

#[test]
fn sensors_come_in_either_order(rt: HostRuntime) -> Result<(), Fail> {
    let commands = [(100, "take"), (100, "lock"), (150, "done")];
    for sensors in [[1, 2, 3, 4, 5, 6, 7, 8], [8, 7, 6, 5, 4, 3, 2, 1]] {
        let core = given(rt.alloc(), sensors)?;
        let issued = issued(rt.alloc(), core)?;
        assert_eq!(rt; issued.as_slice(), commands.as_slice());
    }
    Ok(())
}

// A core of which one tick is closed, at which nothing moved. The sensors beside the axes gave an item of the tick 900, and the
// restraints a firing of the tick 500 before.
fn at_rest(alloc: Global) -> Result<Core, Fail> {
    let mut core = Core::open(alloc, 1)?;
    core.accept(
        Sensor::Restraint,
        Item {
            moment: 500,
            value: Some(1),
        },
    )?;
    for number in 3..=8 {
        let sensor = Sensor::from_number(number).ok_or("a sensor")?;
        core.accept(
            sensor,
            Item {
                moment: 900,
                value: None,
            },
        )?;
    }
    for sensor in [Sensor::Along, Sensor::Across] {
        core.accept(
            sensor,
            Item {
                moment: 1,
                value: Some(0),
            },
        )?;
    }
    Ok(core)
}

#[test]
fn still_ticks_are_passed_up_to_a_firing(rt: HostRuntime) -> Result<(), Fail> {
    let mut core = at_rest(rt.alloc())?;
    // No tick was searched yet.
    assert!(rt; !core.pass_still());
    assert!(rt; matches!(core.step(), Step::Closed { tick: 1, .. }));
    for _ in 2..500 {
        assert!(rt; core.pass_still());
    }
    assert!(rt; !core.pass_still());
    assert_eq!(rt; core.closed(), 499);
    // It took the samples of the axes up to there.
    assert!(rt;
        matches!(
            core.step(),
            Step::Waiting {
                sensor: Sensor::Along
            }
        )
    );
    Ok(())
}
