//! The last moments of the sensors.
ghost use Rattle.std.specs.Prelude.{◌≡◌, ◌≤◌, ◌↔◌, ℕ};
ghost use Rattle.edr_merge.specs.Marks.{first_at};
ghost use Rattle.edr_merge.specs.Lag.{IsBelowSlow};

use edr_items::{PerSensor, SENSORS, Sensor};

// The mark of each sensor: its last moment, 0 before its first.
pub type Marks = PerSensor<u32>;

// The least mark of the sensors beside the two axes.
pub fn least_slow(marks: &Marks) -> u32
    ensures { (t : ℕ) → t ≤ result ↔ IsBelowSlow t marks.now }
{
    let pedals = marks.throttle.min(marks.brake);
    let lights = marks.belt.min(marks.lamp);
    marks.speed.min(pedals).min(lights).min(marks.restraint)
}

#[tactic(auto, unfolding(crate::specs::Marks::first_at))]
// The lowest-numbered sensor whose mark is that tick.
pub fn first_at(marks: &Marks, tick: u32) -> Option<Sensor>
    ensures { result ≡ first_at marks.now tick }
{
    for sensor in SENSORS {
        if *marks.of(sensor) == tick {
            return Some(sensor);
        }
    }
    None
}
