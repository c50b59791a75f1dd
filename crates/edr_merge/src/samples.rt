//! The samples of one sensor that wait until their tick is closed.
ghost use Rattle.std.specs.Prelude.{◌≡◌, [], IfOk};
ghost use Rattle.edr_merge.specs.Samples.{with_sample, first_value, past_first, is_first_of};

use circular_buffer::HeapCircularBuffer;
use edr_items::{Item, LONGEST_GAP};
use std::alloc::{AllocError as OutOfMemory, Global};
use std::marker::Model;

// No item is further past the closed tick than this, and no two have one moment: so no more wait.
pub const ROOM: usize = LONGEST_GAP as usize;

// The samples past the closed tick, the oldest first. The oldest stands beside the ring of the others, so that nothing goes
// through the ring while one waits at a time.
#[derive(Drop)]
pub struct Samples {
    oldest: Option<Item>,
    others: HeapCircularBuffer<Item>,
}

impl Model for Samples {
    ghost use Rattle.std.specs.Prelude.{List};
    ghost use Rattle.edr_items.specs.declared.Item.{Item};

    ghost Value = { List Item };

    ghost use Rattle.edr_merge.specs.Oldest.{samples_of, IsInOrder};

    ghost view = { samples_of };

    ghost invariant = { IsInOrder };
}

impl Samples {
    // None wait.
    pub fn new(alloc: Global) -> Result<Samples, OutOfMemory>
        ensures { IfOk result (λ s. s ≡ []) }
    {
        let others = HeapCircularBuffer::with_capacity(alloc, ROOM - 1)?;
        Ok(Samples {
            oldest: None,
            others,
        })
    }

    // Keeps the item until its tick, if it is a sample.
    pub fn keep(&mut self, item: Item)
        ensures { self.new ≡ with_sample item self.old }
    {
        if item.value.is_none() {
            return;
        }
        if self.oldest.is_none() {
            self.oldest = Some(item);
            return;
        }
        // What the ring has no room for is then the oldest.
        if let Some(first) = self.others.push_back(item) {
            self.oldest = Some(first);
        }
    }

    // Takes the sample of that tick out, if the oldest one is of it.
    pub fn take(&mut self, tick: u32) -> Option<i32>
        ensures value { result ≡ first_value tick self.old }
        ensures rest { self.new ≡ past_first tick self.old }
    {
        match self.oldest {
            Some(item) if item.moment == tick => {
                self.oldest = self.others.pop_front();
                item.value
            }
            _ => None,
        }
    }

    // Whether the oldest sample is of that tick.
    #[inline(always)]
    pub fn has(&self, tick: u32) -> bool
        ensures { result ≡ is_first_of tick self.now }
    {
        matches!(self.oldest, Some(item) if item.moment == tick)
    }
}
