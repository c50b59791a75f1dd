//! One value for each fast sensor: of these a tick is made, and each item of theirs reaches the recorder.

ghost use Rattle.std.specs.Prelude.{◌≡◌};
ghost use Rattle.edr_loops.specs.PerFastSensor.{each_fast_value, sensor_of, with_fast_value};

use edr_items::Sensor;

/// A sensor of which a tick is made.
#[derive(Clone, Copy, Debug, PartialEq, Eq)]
pub enum FastSensor {
    Along,
    Across,
    Restraint,
}

impl FastSensor {
    /// The same as one of all sensors.
    #[inline(always)]
    pub fn sensor(&self) -> Sensor
        ensures { result ≡ sensor_of self.now }
    {
        match self {
            FastSensor::Along => Sensor::Along,
            FastSensor::Across => Sensor::Across,
            FastSensor::Restraint => Sensor::Restraint,
        }
    }
}

/// One value for each fast sensor.
#[derive(Clone, Copy, Debug, PartialEq, Eq, Drop)]
pub struct PerFastSensor<T> {
    pub along: T,
    pub across: T,
    pub restraint: T,
}

impl<T: Copy> PerFastSensor<T> {
    /// The same value for each fast sensor.
    #[inline(always)]
    pub fn each(value: T) -> PerFastSensor<T>
        ensures { result ≡ each_fast_value value }
    {
        PerFastSensor {
            along: value,
            across: value,
            restraint: value,
        }
    }
}

impl<T: Drop> PerFastSensor<T> {
    /// Gives that sensor another value.
    #[inline(always)]
    pub fn set(&mut self, sensor: FastSensor, value: T)
        ensures { self.new ≡ with_fast_value sensor value self.old }
    {
        match sensor {
            FastSensor::Along => self.along = value,
            FastSensor::Across => self.across = value,
            FastSensor::Restraint => self.restraint = value,
        }
    }
}
