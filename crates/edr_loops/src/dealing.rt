//! The sensors of a cycle are dealt to its workers, and what the workers hand back is put together again. It stands apart from the
//! senders in `worker.rt` by subject: there is what a worker does with them, here what is done before it starts and after it ends.

ghost use Rattle.std.specs.Prelude.{◌≡◌};
ghost use Rattle.edr_loops.specs.Hands.{IsDealt, if_served};
ghost use Rattle.edr_loops.specs.Senders.{AreAllDealt, all_of_worker, either_all};
ghost use Rattle.edr_loops.specs.Workers.{AreFastDealt, AreSlowDealt, either_fast, either_slow, fast_of_worker, is_served_by, slow_of_worker};

use crate::per_fast_sensor::PerFastSensor;
use crate::worker::{Senders, SlowSenders};
use edr_items::{PerSlowSensor, Sensor};

// Deals a sender to this hand, or leaves it.
pub(crate) fn deal_one<T>(sender: &mut Option<T>, mine: bool) -> Option<T>
    ensures dealt { IsDealt sender.old result sender.new }
    ensures mine { result ≡ if_served mine sender.old }
{
    if mine { sender.take() } else { None }
}

// Worker w serves the sensors i with (i - 1) mod workers = w.
pub(crate) fn is_served_by(sensor: Sensor, w: u32, workers: u32) -> bool
    ensures { result ≡ is_served_by w workers sensor }
{
    let before = u32::from(sensor.number() - 1);
    before.checked_rem(workers) == Some(w)
}

impl<T: Drop> PerFastSensor<Option<T>> {
    /// Deals the senders of this worker: that of sensor number i is at the worker (i - 1) mod `workers`.
    pub fn deal(&mut self, w: u32, workers: u32) -> PerFastSensor<Option<T>>
        ensures dealt { AreFastDealt self.old result self.new }
        ensures mine { result ≡ fast_of_worker w workers self.old }
    {
        PerFastSensor {
            along: deal_one(&mut self.along, is_served_by(Sensor::Along, w, workers)),
            across: deal_one(&mut self.across, is_served_by(Sensor::Across, w, workers)),
            restraint: deal_one(
                &mut self.restraint,
                is_served_by(Sensor::Restraint, w, workers),
            ),
        }
    }

    /// These senders and the others.
    pub fn and(self, other: PerFastSensor<Option<T>>) -> PerFastSensor<Option<T>>
        ensures { result ≡ either_fast self other }
    {
        PerFastSensor {
            along: self.along.or(other.along),
            across: self.across.or(other.across),
            restraint: self.restraint.or(other.restraint),
        }
    }
}

impl SlowSenders {
    /// Deals the senders of this worker: that of sensor number i is at the worker (i - 1) mod `workers`.
    pub fn deal(&mut self, w: u32, workers: u32) -> SlowSenders
        ensures dealt { AreSlowDealt self.old result self.new }
        ensures mine { result ≡ slow_of_worker w workers self.old }
    {
        let all = &mut self.each;
        let each = PerSlowSensor {
            speed: deal_one(&mut all.speed, is_served_by(Sensor::Speed, w, workers)),
            throttle: deal_one(
                &mut all.throttle,
                is_served_by(Sensor::Throttle, w, workers),
            ),
            brake: deal_one(&mut all.brake, is_served_by(Sensor::Brake, w, workers)),
            belt: deal_one(&mut all.belt, is_served_by(Sensor::Belt, w, workers)),
            lamp: deal_one(&mut all.lamp, is_served_by(Sensor::Lamp, w, workers)),
        };
        SlowSenders { each }
    }

    /// These senders and the others.
    pub fn and(self, other: SlowSenders) -> SlowSenders
        ensures { result ≡ either_slow self other }
    {
        let mine = self.each;
        let others = other.each;
        let each = PerSlowSensor {
            speed: mine.speed.or(others.speed),
            throttle: mine.throttle.or(others.throttle),
            brake: mine.brake.or(others.brake),
            belt: mine.belt.or(others.belt),
            lamp: mine.lamp.or(others.lamp),
        };
        SlowSenders { each }
    }
}

impl Senders {
    /// Deals the senders of this worker, which serves the sensors i with (i - 1) mod `workers` = w.
    pub fn deal(&mut self, w: u32, workers: u32) -> Senders
        ensures dealt { AreAllDealt self.old result self.new }
        ensures mine { result ≡ all_of_worker w workers self.old }
    {
        Senders {
            fast: self.fast.deal(w, workers),
            slow: self.slow.deal(w, workers),
        }
    }

    /// These senders and the others.
    pub fn and(self, other: Senders) -> Senders
        ensures { result ≡ either_all self other }
    {
        Senders {
            fast: self.fast.and(other.fast),
            slow: self.slow.and(other.slow),
        }
    }
}
