//! The recorder's end of a sensor's ring, with a buffer for the items that come out of it together.

ghost use Rattle.std.specs.Prelude.{◌≡◌, ◌-◌, ◌<◌, ◌≤◌, ◌++◌, true, false};
ghost use Rattle.edr_seats.specs.Rings.{items_taken};
ghost use Rattle.edr_loops.specs.Slices.{between, but_last};

use edr_items::Item;
use edr_seats::{Inlet, Seat};

/// How many items a buffer holds.
pub const BUFFER: usize = 64;

/// An inlet, and the items that came out of the ring and that the recorder hasn't taken yet.
///
/// Each store into a ring's words costs as much as many items do, and takes them away from the sensor's thread. So items come out of
/// the ring as many at a time as a buffer holds, and the recorder takes them from there.
#[derive(Drop)]
pub struct BufferedInlet {
    pub inlet: Inlet,
    // Those from `next` up to `end` lie in the buffer.
    items: [Item; BUFFER],
    next: usize,
    end: usize,
    ghost within: { (next ≤ end) × (end ≤ 64) },
    ghost lie: { items_taken inlet
        ≡ but_last (end - next) (items_taken inlet) ++ between next end items },
}

impl BufferedInlet {
    ghost use Rattle.std.specs.Prelude.{[], IfSome, IsNone};
    ghost use Rattle.edr_definitions.specs.Schedule.{BeginsWith};
    ghost use Rattle.edr_seats.specs.Rings.{AreOfOneRing, items_known, items_sent};
    ghost use Rattle.edr_seats.specs.Seat.{SameSeat};
    ghost use Rattle.edr_loops.specs.BufferedInlets.{ComesNext, IsNext, IsNotNext, KnowsNone, KnowsNoneUpTo, SameBuffered, TakesUpTo, taken_of, with_last};
    ghost use Rattle.edr_items.specs.declared.Item.{Item};
    ghost use Rattle.edr_merge.specs.Still.{still_item};

    /// An inlet with an empty buffer.
    pub fn new(inlet: Inlet) -> BufferedInlet
        ensures inlet { result.inlet ≡ inlet }
        ensures taken { taken_of result ≡ items_taken inlet }
    {
        let empty = Item {
            moment: 0,
            value: None,
        };
        BufferedInlet {
            inlet,
            items: [empty; BUFFER],
            next: 0,
            end: 0,
        }
    }

    // Fills the empty buffer with what there is in the ring.
    fn fill(&mut self)
        requires { self.old.next ≡ self.old.end }
        ensures ring { SameBuffered self.old self.new }
        ensures taken { taken_of self.new ≡ taken_of self.old }
        ensures empty { self.new.next ≡ self.new.end → items_known self.new.inlet ≡ [] }
    {
        self.end = self.inlet.take_some(&mut self.items);
        self.next = 0;
    }

    // The next item, if there is one; it stays.
    #[inline(always)]
    fn peek(&mut self) -> Option<Item>
        ensures ring { SameBuffered self.old self.new }
        ensures taken { taken_of self.new ≡ taken_of self.old }
        ensures next { IfSome result (λ x. IsNext x self.new × ComesNext x self.new) }
        ensures none { IsNone result → KnowsNone self.new }
    {
        if self.next == self.end {
            self.fill();
        }
        if self.next == self.end {
            return None;
        }
        Some(self.items[self.next])
    }

    /// Takes the next item, if there is one and its moment is not past `upto`.
    #[inline(always)]
    pub fn take_upto(&mut self, upto: u32) -> Option<Item>
        ensures ring { SameBuffered self.old self.new }
        ensures taken { TakesUpTo upto with_last result (taken_of self.old) (taken_of self.new) }
        ensures none { IsNone result → KnowsNoneUpTo upto self.new }
    {
        let item = self.peek()?;
        if upto < item.moment {
            return None;
        }
        self.take_known();
        Some(item)
    }

    /// Whether the next item is the sensor's sample of 0 of that tick; it stays.
    #[inline(always)]
    pub fn is_still(&mut self, tick: u32) -> bool
        ensures ring { SameBuffered self.old self.new }
        ensures taken { taken_of self.new ≡ taken_of self.old }
        ensures next { result ≡ true → IsNext (still_item tick) self.new }
        ensures other { result ≡ false → IsNotNext (still_item tick) self.new }
    {
        match self.peek() {
            Some(item) => item.moment == tick && item.value == Some(0),
            None => false,
        }
    }

    /// Takes the next item, which lies in the buffer.
    #[inline(always)]
    #[tactic(auto, using(crate::proofs::BufferLemmas::next_taken, crate::proofs::BufferLemmas::next_lie))]
    pub fn take_known(&mut self)
        requires { self.old.next < self.old.end }
        ensures ring { SameBuffered self.old self.new }
        ensures taken { (item : Item) → IsNext item self.old
            → taken_of self.new ≡ with_last item (taken_of self.old) }
    {
        self.next += 1;
    }

    /// Looks at both ends of the ring, where they are in one thread again: what was taken is a beginning of what was sent.
    pub fn beside(&mut self, seat: &mut Seat)
        requires { AreOfOneRing seat.old.sender self.old.inlet }
        ensures ring { SameBuffered self.old self.new }
        ensures taken { taken_of self.new ≡ taken_of self.old }
        ensures seat { SameSeat seat.old seat.new }
        ensures sent { items_sent seat.new.sender ≡ items_sent seat.old.sender }
        ensures begins { BeginsWith (items_sent seat.new.sender) (taken_of self.new) }
    {
        self.inlet.beside(seat);
    }
}
