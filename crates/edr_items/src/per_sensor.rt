//! One value for each sensor.

ghost use Rattle.std.specs.Prelude.{◌≡◌};
ghost use Rattle.std.specs.Borrow.{sem};
ghost use Rattle.edr_items.specs.PerSensor.{value_of, with_value, each_value};
ghost use Rattle.edr_items.specs.LendsValue.{LendsValue};

use crate::Sensor;

/// One value for each sensor.
#[derive(Clone, Copy, Drop)]
pub struct PerSensor<T> {
    pub along: T,
    pub across: T,
    pub speed: T,
    pub throttle: T,
    pub brake: T,
    pub belt: T,
    pub lamp: T,
    pub restraint: T,
}

impl<T: Copy> PerSensor<T> {
    /// The same value for each sensor.
    #[inline(always)]
    pub fn each(value: T) -> PerSensor<T>
        ensures { result ≡ each_value value }
    {
        PerSensor {
            along: value,
            across: value,
            speed: value,
            throttle: value,
            brake: value,
            belt: value,
            lamp: value,
            restraint: value,
        }
    }
}

impl<T> PerSensor<T> {
    /// The value that a function gives for each sensor.
    #[inline(always)]
    pub fn from_fn<F: Fn(Sensor) -> T + Drop>(f: F) -> PerSensor<T>
        requires { (s : Sensor) → F.pre f s }
        ensures { (s : Sensor) → F.post f s (value_of s result) }
    {
        PerSensor {
            along: f(Sensor::Along),
            across: f(Sensor::Across),
            speed: f(Sensor::Speed),
            throttle: f(Sensor::Throttle),
            brake: f(Sensor::Brake),
            belt: f(Sensor::Belt),
            lamp: f(Sensor::Lamp),
            restraint: f(Sensor::Restraint),
        }
    }

    /// The value of that sensor.
    #[inline(always)]
    pub fn of(&self, sensor: Sensor) -> &T
        ensures { result.now ≡ value_of sensor self.now }
    {
        match sensor {
            Sensor::Along => &self.along,
            Sensor::Across => &self.across,
            Sensor::Speed => &self.speed,
            Sensor::Throttle => &self.throttle,
            Sensor::Brake => &self.brake,
            Sensor::Belt => &self.belt,
            Sensor::Lamp => &self.lamp,
            Sensor::Restraint => &self.restraint,
        }
    }

    /// The value of that sensor, to be changed.
    #[inline(always)]
    pub fn of_mut(&mut self, sensor: Sensor) -> &mut T
        ensures* writes_back { sem 𝓛 (LendsValue T.row self.entry sensor result) }
        ensures value { result.now ≡ value_of sensor self.old }
    {
        match sensor {
            Sensor::Along => &mut self.along,
            Sensor::Across => &mut self.across,
            Sensor::Speed => &mut self.speed,
            Sensor::Throttle => &mut self.throttle,
            Sensor::Brake => &mut self.brake,
            Sensor::Belt => &mut self.belt,
            Sensor::Lamp => &mut self.lamp,
            Sensor::Restraint => &mut self.restraint,
        }
    }
}

impl<T: Drop> PerSensor<T> {
    /// Gives that sensor another value.
    #[inline(always)]
    pub fn set(&mut self, sensor: Sensor, value: T)
        ensures { self.new ≡ with_value sensor value self.old }
    {
        match sensor {
            Sensor::Along => self.along = value,
            Sensor::Across => self.across = value,
            Sensor::Speed => self.speed = value,
            Sensor::Throttle => self.throttle = value,
            Sensor::Brake => self.brake = value,
            Sensor::Belt => self.belt = value,
            Sensor::Lamp => self.lamp = value,
            Sensor::Restraint => self.restraint = value,
        }
    }
}
