//! The recorder's ends of the rings of the fast sensors.

ghost use Rattle.std.specs.Prelude.{◌≡◌, IsNone, true, false};
ghost use Rattle.edr_items.specs.declared.Item.{Item};
ghost use Rattle.edr_merge.specs.Still.{still_item};
ghost use Rattle.edr_loops.specs.FastInlets.{AreNext, AreNotNext, with_both, with_fast};
ghost use Rattle.edr_loops.specs.PerFastSensor.{fast_at};
ghost use Rattle.edr_loops.specs.Lanes.{SameFastInlets, fast_taken};
ghost use Rattle.edr_loops.specs.BufferedInlets.{KnowsNoneUpTo, TakesUpTo};

use crate::buffered_inlet::BufferedInlet;
use crate::per_fast_sensor::{FastSensor, PerFastSensor};
use edr_items::Item;

/// The inlets of these sensors, each with its buffer.
pub type FastInlets = PerFastSensor<BufferedInlet>;

impl PerFastSensor<BufferedInlet> {
    // Takes the next item of that sensor, if there is one and its moment is not past `upto`.
    #[inline(always)]
    pub(crate) fn take_upto(&mut self, sensor: FastSensor, upto: u32) -> Option<Item>
        ensures rings { SameFastInlets self.old self.new }
        ensures taken { TakesUpTo upto (with_fast sensor)
            result (fast_taken self.old) (fast_taken self.new) }
        ensures none { IsNone result → KnowsNoneUpTo upto (fast_at sensor self.new) }
    {
        match sensor {
            FastSensor::Along => self.along.take_upto(upto),
            FastSensor::Across => self.across.take_upto(upto),
            FastSensor::Restraint => self.restraint.take_upto(upto),
        }
    }

    // Whether the next item of each axis is its sample of 0 of that tick.
    #[inline(always)]
    pub(crate) fn are_still(&mut self, tick: u32) -> bool
        ensures rings { SameFastInlets self.old self.new }
        ensures taken { fast_taken self.new ≡ fast_taken self.old }
        ensures next { result ≡ true → AreNext (still_item tick) self.new }
        ensures other { result ≡ false → AreNotNext (still_item tick) self.new }
    {
        self.along.is_still(tick) && self.across.is_still(tick)
    }

    // Takes the next item of each axis; both are known.
    #[inline(always)]
    pub(crate) fn take_both(&mut self)
        requires { (x : Item) × AreNext x self.old }
        ensures rings { SameFastInlets self.old self.new }
        ensures taken { (x : Item) → AreNext x self.old
            → fast_taken self.new ≡ with_both x (fast_taken self.old) }
    {
        self.along.take_known();
        self.across.take_known();
    }
}
