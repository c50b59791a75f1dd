//! One value of each sensor, or of each slow one.

use edr_items::{PerSensor, PerSlowSensor, Sensor};
use std::test::Fail;

#[test]
fn each_sensor_has_its_own_value(rt: HostRuntime) {
    let mut numbers = PerSensor::from_fn(|sensor: Sensor| -> u8 { sensor.number() });
    numbers.set(Sensor::Belt, 20);
    *numbers.of_mut(Sensor::Lamp) = 37;
    for (sensor, number) in [
        (Sensor::Along, 1),
        (Sensor::Brake, 5),
        (Sensor::Belt, 20),
        (Sensor::Lamp, 37),
        (Sensor::Restraint, 8),
    ] {
        assert_eq!(rt; *numbers.of(sensor), number);
    }
    assert_eq!(rt; *PerSensor::each(3u8).of(Sensor::Across), 3);
}

#[test]
fn all_are_there_once_each_has_one(rt: HostRuntime) -> Result<(), Fail> {
    let mut numbers = PerSlowSensor::try_from_fn(|sensor: Sensor| -> Result<Option<u8>, Sensor> {
        Ok(Some(sensor.number()))
    })?;
    assert_eq!(rt;
        numbers
            .all()
            .ok()
            .and_then(|all| all.of(Sensor::Lamp).copied()),
        Some(7)
    );
    numbers.belt = None;
    assert_eq!(rt; numbers.all().err(), Some(Sensor::Belt));
    assert_eq!(rt;
        PerSlowSensor::each(None::<u8>).all().err(),
        Some(Sensor::Speed)
    );
    Ok(())
}
