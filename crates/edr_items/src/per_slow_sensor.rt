//! One value for each slow sensor.

ghost use Rattle.std.specs.Prelude.{◌≡◌, Some, None, Ok, IfOk, IfErr, MatchOption};
ghost use Rattle.std.specs.Borrow.{sem};
ghost use Rattle.edr_items.specs.Sensor.{slow_sensors};
ghost use Rattle.edr_items.specs.PerSlowSensor.{slow_value_of, with_slow_value, each_slow_value, map_slow_values, EachSlow, FailsFirst, slow_at, first_without};
ghost use Rattle.edr_items.specs.LendsValue.{LendsSlowValue};

use crate::Sensor;

/// One value for each slow sensor.
#[derive(Clone, Copy, Drop)]
pub struct PerSlowSensor<T> {
    pub speed: T,
    pub throttle: T,
    pub brake: T,
    pub belt: T,
    pub lamp: T,
}

impl<T: Copy> PerSlowSensor<T> {
    /// The same value for each slow sensor.
    #[inline(always)]
    pub fn each(value: T) -> PerSlowSensor<T>
        ensures { result ≡ each_slow_value value }
    {
        PerSlowSensor {
            speed: value,
            throttle: value,
            brake: value,
            belt: value,
            lamp: value,
        }
    }
}

impl<T: Copy> PerSlowSensor<Option<T>> {
    #[tactic(auto, unfolding(crate::specs::PerSlowSensor::first_without))]
    /// The values, if each sensor has one; otherwise the first sensor, by its number, that has none.
    pub fn all(&self) -> Result<PerSlowSensor<T>, Sensor>
        ensures all { IfOk result (λ values. self.now ≡ map_slow_values Some values) }
        ensures missing { IfErr result (λ sensor. first_without self.now ≡ Some sensor) }
    {
        Ok(PerSlowSensor {
            speed: self.speed.ok_or(Sensor::Speed)?,
            throttle: self.throttle.ok_or(Sensor::Throttle)?,
            brake: self.brake.ok_or(Sensor::Brake)?,
            belt: self.belt.ok_or(Sensor::Belt)?,
            lamp: self.lamp.ok_or(Sensor::Lamp)?,
        })
    }
}

impl<T: Drop> PerSlowSensor<T> {
    /// The values that a function gives for the sensors, in the order of their numbers, or its first error.
    #[inline(always)]
    pub fn try_from_fn<E, F: Fn(Sensor) -> Result<T, E> + Drop>(f: F) -> Result<PerSlowSensor<T>, E>
        requires { EachSlow (λ sensor. F.pre f sensor) }
        ensures values { IfOk result (λ values. EachSlow (λ sensor. F.post f sensor (Ok (slow_at sensor values)))) }
        ensures error { IfErr result (λ error. FailsFirst (F.post f) error slow_sensors) }
    {
        Ok(PerSlowSensor {
            speed: f(Sensor::Speed)?,
            throttle: f(Sensor::Throttle)?,
            brake: f(Sensor::Brake)?,
            belt: f(Sensor::Belt)?,
            lamp: f(Sensor::Lamp)?,
        })
    }
}

impl<T> PerSlowSensor<T> {
    /// The value of that sensor. The other three have none.
    #[inline(always)]
    pub fn of(&self, sensor: Sensor) -> Option<&T>
        ensures { MatchOption result (slow_value_of sensor self.now ≡ None)
            (λ value. slow_value_of sensor self.now ≡ Some value.now) }
    {
        match sensor {
            Sensor::Speed => Some(&self.speed),
            Sensor::Throttle => Some(&self.throttle),
            Sensor::Brake => Some(&self.brake),
            Sensor::Belt => Some(&self.belt),
            Sensor::Lamp => Some(&self.lamp),
            Sensor::Along | Sensor::Across | Sensor::Restraint => None,
        }
    }

    /// The value of that sensor, to be changed.
    #[inline(always)]
    pub fn of_mut(&mut self, sensor: Sensor) -> Option<&mut T>
        ensures* writes_back { sem 𝓛 (LendsSlowValue T.row self.entry sensor result) }
        ensures value { MatchOption result (slow_value_of sensor self.old ≡ None)
            (λ value. slow_value_of sensor self.old ≡ Some value.now) }
    {
        match sensor {
            Sensor::Speed => Some(&mut self.speed),
            Sensor::Throttle => Some(&mut self.throttle),
            Sensor::Brake => Some(&mut self.brake),
            Sensor::Belt => Some(&mut self.belt),
            Sensor::Lamp => Some(&mut self.lamp),
            Sensor::Along | Sensor::Across | Sensor::Restraint => None,
        }
    }
}
