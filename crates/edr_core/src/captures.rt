//! The rings of the sensors of which a pre part tells.

ghost use Rattle.std.specs.Prelude.{◌≡◌, ◌+◌, ◌≤◌, IfOk, List, All};
ghost use Rattle.edr_items.specs.declared.TheConstants.{LONGEST_GAP};
ghost use Rattle.edr_items.specs.declared.Item.{Item};
ghost use Rattle.edr_items.specs.Item.{mark_of};
ghost use Rattle.edr_items.specs.Sensor.{IsSlow};
ghost use Rattle.edr_items.specs.SensorLists.{items_of};

use crate::split::SplitCore;
use edr_capture::{Capture, Part};
use edr_items::{Item, PerSlowSensor, SLOW_SENSORS, Sensor};
use std::alloc::{AllocError as OutOfMemory, Global};

/// What the slow sensors gave, as far as a part can look back.
#[derive(Drop)]
pub struct Captures {
    pub kept: PerSlowSensor<Capture>,
}

impl Captures {
    ghost use Rattle.edr_capture.specs.Capture.{CaptureStandsFor};
    ghost use Rattle.edr_capture.specs.SensorPart.{IsOfSensor, part};
    ghost use Rattle.edr_core.specs.Captures.{no_captures, kept_lists, with_kept, IsLater};
    ghost use Rattle.edr_core.specs.SplitHistory.{History};
    ghost use Rattle.edr_core.specs.SplitStandsFor.{SplitCoreStandsFor};
    ghost use Rattle.edr_core.specs.OwnParts.{with_own_parts, AsksFor};

    /// No sensor has given an item yet. All memory is taken here.
    pub fn new(alloc: Global) -> Result<Captures, OutOfMemory>
        ensures { IfOk result (λ c. c ≡ no_captures) }
    {
        Ok(Captures {
            kept: PerSlowSensor::try_from_fn(|_: Sensor| -> Result<Capture, OutOfMemory> {
                Capture::new(alloc)
            })?,
        })
    }

    /// Keeps the item, if a pre part tells of its sensor.
    pub fn push(&mut self, sensor: Sensor, item: Item)
        requires later { IsLater sensor item self.old }
        ensures { self.new ≡ with_kept sensor item self.old }
    {
        if let Some(capture) = self.kept.of_mut(sensor) {
            capture.push(item);
        }
    }

    /// The part of a slow sensor for the time zero `zero`, which none of its samples is more than 1 s past.
    pub fn part(&self, sensor: Sensor, zero: u32) -> Part
        requires slow { IsSlow sensor }
        requires range { All (IsOfSensor sensor) (items_of sensor (kept_lists self.now)) }
        requires near { mark_of (items_of sensor (kept_lists self.now)) ≤ zero + LONGEST_GAP }
        ensures kept { result ≡ part sensor (items_of sensor (kept_lists self.now)) zero }

        // The same of all items of the sensor, though the oldest of them are not kept.
        ensures definition { (given : List Item) → CaptureStandsFor (items_of sensor (kept_lists self.now)) given → result ≡ part sensor given zero }
    {
        match self.kept.of(sensor) {
            Some(capture) => capture.part(sensor, zero),
            None => unreachable!(),
        }
    }

    // Gives the split core the parts that it asks for. It stands apart, since few ticks are a time zero, and the places of the
    // parts are large.
    #[inline(never)]
    pub(crate) fn give_parts(&self, split: &mut SplitCore, zero: u32)
        requires { (h : History) × AsksFor split.old self.now h zero }
        ensures { (h : History) → AsksFor split.old self.now h zero → SplitCoreStandsFor split.new (with_own_parts h) }
    {
        // It takes each: they are of its time zero, and it took none of them.
        for sensor in SLOW_SENSORS {
            let _ = split.part(self.part(sensor, zero));
        }
    }
}
