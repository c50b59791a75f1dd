//! The recorder's ends of the rings of parts, by which the slow sensors answer it.

ghost use Rattle.std.specs.Prelude.{◌≡◌, MatchOption, IsNone, IsSome, []};
ghost use Rattle.edr_items.specs.Sensor.{IsSlow};
ghost use Rattle.edr_items.specs.PerSlowSensor.{slow_at};
ghost use Rattle.edr_seats.specs.Rings.{items_known};
ghost use Rattle.edr_loops.specs.PartInlets.{with_part};
ghost use Rattle.edr_loops.specs.Lanes.{SamePartInlets, slow_taken};

use edr_capture::Part;
use edr_items::{PerSlowSensor, Sensor};
use edr_seats::PartInlet;

/// The inlets of the slow sensors.
pub type PartInlets = PerSlowSensor<PartInlet>;

// Takes the oldest part of that sensor, if there is one. The other three sensors give none.
pub(crate) fn take(inlets: &mut PartInlets, sensor: Sensor) -> Option<Part>
    ensures rings { SamePartInlets inlets.old inlets.new }
    ensures taken { MatchOption result (slow_taken inlets.new ≡ slow_taken inlets.old)
        (λ part. slow_taken inlets.new ≡ with_part sensor part (slow_taken inlets.old)) }
    ensures slow { IsSome result → IsSlow sensor }
    ensures none { IsNone result → IsSlow sensor → items_known (slow_at sensor inlets.new) ≡ [] }
{
    inlets.of_mut(sensor)?.take()
}
