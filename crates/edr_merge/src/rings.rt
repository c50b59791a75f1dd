//! The samples that wait of the three sensors that a row is made of.
ghost use Rattle.std.specs.Prelude.{◌≡◌, IfOk};

use crate::samples::Samples;
use edr_items::{Item, Sensor};
use std::alloc::{AllocError as OutOfMemory, Global};

#[derive(Drop)]
pub struct Rings {
    pub along: Samples,
    pub across: Samples,
    pub restraint: Samples,
}

impl Rings {
    ghost use Rattle.edr_merge.specs.Rings.{no_samples, with_kept};

    // None wait.
    pub fn new(alloc: Global) -> Result<Rings, OutOfMemory>
        ensures { IfOk result (λ r. r ≡ no_samples) }
    {
        Ok(Rings {
            along: Samples::new(alloc)?,
            across: Samples::new(alloc)?,
            restraint: Samples::new(alloc)?,
        })
    }

    // Keeps a sample until its tick, if rows are made of this sensor's.
    #[inline(always)]
    pub fn keep(&mut self, sensor: Sensor, item: Item)
        ensures { self.new ≡ with_kept sensor item self.old }
    {
        match sensor {
            Sensor::Along => self.along.keep(item),
            Sensor::Across => self.across.keep(item),
            Sensor::Restraint => self.restraint.keep(item),
            _ => {}
        }
    }
}
