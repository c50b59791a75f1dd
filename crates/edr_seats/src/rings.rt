//! A ring between two threads: one sends items, of a type that can be copied, and the other receives them.

ghost use Rattle.std.specs.Prelude.{◌≡◌, ◌+◌, ◌≤◌, length};
ghost use Rattle.rtrb.specs.Ring.{known_free, producer_capacity, sent};

use rtrb::{Consumer, Producer, PushError, RingBuffer};
use std::alloc::{AllocError as OutOfMemory, Global};

/// The end of a ring that sends. It can move into a thread.
#[derive(Drop)]
pub struct Sender<T, const ROOM: u32> {
    pub(crate) ring: Producer<T>,
    ghost size: { producer_capacity ring ≡ ROOM },
    ghost free: { ROOM ≤ length (sent ring) + known_free ring },
}

/// The end of a ring that receives. It can move into a thread.
///
/// A receiver knows of an item once a call of it has seen it in the ring. What it knows of falls only by what it takes.
#[derive(Drop)]
pub struct Receiver<T, const ROOM: u32> {
    ring: Consumer<T>,
}

/// Whoever has a sender: the sender itself, or a seat with a rule of its own.
pub trait HasSender<T: Drop, const ROOM: u32> {
    ghost use Rattle.edr_seats.specs.declared.rings.Sender.{Sender};
    ghost use Rattle.edr_seats.specs.Rings.{AreOfOneRing, HaveMet};

    // The sender, and that all else is the same.
    ghost sender: { Self → Sender T ROOM };

    ghost SameElse: { Self → Self → Type 0 };

    /// How many items were sent and not taken. [`Receiver::beside`] answers it.
    fn meet(&mut self, receiver: &mut Receiver<T, ROOM>) -> u32
        requires { AreOfOneRing (sender self.old) receiver.old }
        ensures met { HaveMet (sender self.old) (sender self.new) receiver.old receiver.new result }
        ensures else_same { SameElse self.old self.new };
}

impl<T: Drop, const ROOM: u32> HasSender<T, ROOM> for Sender<T, ROOM> {
    ghost sender = { λ s. s };

    ghost SameElse = { λ a b. Unit {0} };

    fn meet(&mut self, receiver: &mut Receiver<T, ROOM>) -> u32 {
        let free = self.ring.slots_beside(&mut receiver.ring);
        receiver.ring.slots_beside(&mut self.ring);
        ROOM - free as u32
    }
}

impl<T: Drop, const ROOM: u32> Sender<T, ROOM> {
    ghost use Rattle.std.specs.Prelude.{[], ◌∷◌, ◌++◌, IfErr, IfOk, OnErr, OnOk};
    ghost use Rattle.edr_seats.specs.Rings.{IsFreshRing, KnowsNoRoom, SameSender, items_sent, known_taken};

    /// Both ends of an empty ring. It takes all the memory that they ever need.
    pub fn open(alloc: Global) -> Result<(Sender<T, ROOM>, Receiver<T, ROOM>), OutOfMemory>
        ensures { IfOk result (λ ends. IsFreshRing ends.0 ends.1) }
    {
        let (producer, consumer) = RingBuffer::new(alloc, ROOM as usize)?;
        Ok((Sender { ring: producer }, Receiver { ring: consumer }))
    }

    /// Sends an item, or hands it back where no slot is known to be free. It waits for nobody and takes no memory.
    pub fn send(&mut self, item: T) -> Result<(), T>
        ensures ring { SameSender self.old self.new }
        ensures ok { OnOk result (items_sent self.new ≡ items_sent self.old ++ item ∷ []) }
        ensures full { IfErr result (λ back. (back ≡ item)
            × (items_sent self.new ≡ items_sent self.old)) }
        ensures known { known_taken self.old ≤ known_taken self.new }

        // Then as many items as there are slots were sent past the last that the sender knows taken.
        ensures room { OnErr result (KnowsNoRoom self.new) }
    {
        match self.ring.push(item) {
            Ok(()) => Ok(()),
            Err(PushError::Full(back)) => Err(back),
        }
    }
}

impl<T: Copy + Drop, const ROOM: u32> Sender<T, ROOM> {
    ghost use Rattle.std.specs.Prelude.{◌++◌, ◌<◌, take};
    ghost use Rattle.edr_seats.specs.Rings.{KnowsNoRoom, SameSender, items_sent, known_taken};

    /// Sends items from the first on, as many as there is room for, and answers how many. It waits for nobody. The end that receives
    /// sees them all at once.
    pub fn send_some(&mut self, items: &[T]) -> usize
        ensures ring { SameSender self.old self.new }
        ensures count { result ≤ length items.now }
        ensures sent { items_sent self.new ≡ items_sent self.old ++ take result items.now }
        ensures known { known_taken self.old ≤ known_taken self.new }
        ensures room { result < length items.now → KnowsNoRoom self.new }
    {
        self.ring.push_partial_slice(items).0.len()
    }
}

impl<T: Copy + Drop, const ROOM: u32> Receiver<T, ROOM> {
    ghost use Rattle.std.specs.Prelude.{[], ◌∷◌, ◌++◌, ◌<◌, take, drop, IfSome, IsNone};
    ghost use mathlib.Core.List.{IsPrefix};
    ghost use Rattle.edr_seats.specs.Rings.{AreOfOneRing, HadBefore, HadNone, HasTakenItem, HaveMet, SameReceiver, items_known, items_taken};

    /// The item that the next take gives, left in the ring. It waits for nobody.
    pub fn peek(&mut self) -> Option<T>
        ensures ring { SameReceiver self.old self.new }
        ensures same { items_taken self.new ≡ items_taken self.old }
        ensures known { IsPrefix (items_known self.old) (items_known self.new) }
        ensures some { IfSome result (λ item. IsPrefix (item ∷ []) (items_known self.new)) }
        ensures none { IsNone result → items_known self.new ≡ [] }
    {
        if self.ring.is_empty() {
            return None;
        }
        Some(*self.ring.peek_known())
    }

    /// Takes the oldest item. It waits for nobody, and answers None only where it knows of no item.
    pub fn take(&mut self) -> Option<T>
        ensures ring { SameReceiver self.old self.new }
        ensures some { IfSome result (HasTakenItem self.old self.new) }
        ensures known { IfSome result (HadBefore self.old self.new) }
        ensures none { IsNone result → HadNone self.old self.new }
    {
        self.ring.pop().ok()
    }

    /// Takes the oldest items, as many as there are and have room in `into`, and answers how many. It waits for nobody. The end that
    /// sends sees all their slots free at once.
    pub fn take_some(&mut self, into: &mut [T]) -> usize
        ensures ring { SameReceiver self.old self.new }
        ensures count { result ≤ length into.old }
        ensures taken { items_taken self.new ≡ items_taken self.old ++ take result into.new }
        ensures rest { drop result into.new ≡ drop result into.old }
        ensures known { IsPrefix (items_known self.old) (take result into.new ++ items_known self.new) }
        ensures fewer { result < length into.old → items_known self.new ≡ [] }
    {
        self.ring.pop_partial_slice(into)
    }

    /// How many items were sent and not taken, where both ends are in one thread again.
    ///
    /// Each of the next takes, as many as that, gives an item, and the items that were taken before, followed by
    /// these, are exactly what was sent.
    pub fn beside<S: HasSender<T, ROOM>>(&mut self, seat: &mut S) -> u32
        requires { AreOfOneRing (S.sender seat.old) self.old }
        ensures met { HaveMet (S.sender seat.old) (S.sender seat.new) self.old self.new result }
        ensures else_same { S.SameElse seat.old seat.new }
    {
        seat.meet(self)
    }
}
