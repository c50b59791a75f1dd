//! A slow sensor's seat: it keeps the sensor's samples itself, and sends the part of a time zero that is asked for.

ghost use Rattle.std.specs.Prelude.{◌≡◌, ◌+◌, ◌<◌, ◌≤◌, [], ◌∷◌, ◌++◌, Err, OnOk, OnErr, IfErr, None, All, List, true, false};
ghost use Rattle.edr_items.specs.declared.Item.{Item};
ghost use Rattle.edr_items.specs.declared.ItemRefused.{ItemRefused};
ghost use Rattle.edr_board.specs.FreezeSeats.{mark_posted};
ghost use Rattle.edr_items.specs.Sensor.{IsSlow};
ghost use Rattle.edr_items.specs.declared.TheConstants.{LONGEST_GAP};
ghost use Rattle.edr_items.specs.Item.{mark_of};
ghost use Rattle.edr_capture.specs.Capture.{CaptureStandsFor};
ghost use Rattle.edr_capture.specs.SensorPart.{IsOfSensor, part};
ghost use Rattle.edr_seats.specs.Rings.{KnowsNoRoom, SameSender, items_sent, known_taken};
ghost use Rattle.edr_seats.specs.Slow.{NowIsFor, SameButSender, SameSlowSeat, sensor_of_slow, grant_known, refusal_by_slow, ExplainsSlow, HasServed, parts_after};

use crate::PART_SLOTS;
use crate::rings::{HasSender, Receiver, Sender};
use edr_board::Keeper;
use edr_capture::{Capture, Part};
use edr_items::{Item, ItemRefused, Sensor, check};
use std::marker::Model;

/// Why a slow seat doesn't keep an item.
#[derive(Clone, Copy, Debug, PartialEq, Eq)]
pub enum SlowRefused {
    /// The sensor may not give it after the last one that it kept.
    Item(ItemRefused),
    /// Moments are granted up to that one only.
    Ungranted { granted: u32 },
}

/// What a slow seat answers to a look at what is asked.
#[derive(Clone, Copy, Debug, PartialEq, Eq)]
pub enum Served {
    /// No part is asked for that wasn't sent.
    Nothing,
    /// The part of that time zero was sent.
    Sent { zero: u32 },
    /// It was not sent: no slot of the ring is known to be free.
    Full { zero: u32 },
}

/// A slow sensor's end of its ring of parts, with the samples that it keeps. It can move into a thread.
#[derive(Drop)]
pub struct SlowSeat {
    sender: Sender<Part, PART_SLOTS>,
    capture: Capture,
    keeper: Keeper,
    sensor: Sensor,
    // The moment of the last item that was kept, 0 before the first.
    last: u32,
    // The time zero of the last part that was sent, 0 before the first.
    served: u32,
}

impl Model for SlowSeat {
    ghost use Rattle.edr_seats.specs.SlowContents.{SlowContents, slow_contents, IsSlowSeat};

    ghost Value = { SlowContents };

    ghost view = { slow_contents };

    ghost invariant = { IsSlowSeat };
}

/// The recorder's end of a slow sensor's ring of parts.
pub type PartInlet = Receiver<Part, PART_SLOTS>;

impl HasSender<Part, PART_SLOTS> for SlowSeat {
    ghost sender = { λ s. s.sender };

    ghost SameElse = { SameButSender };

    fn meet(&mut self, inlet: &mut PartInlet) -> u32 {
        self.sender.meet(inlet)
    }
}

// Sends the part of that time zero out of what is kept, and answers whether there was room. It stands apart, since the place of a part
// is large, and would be cleared at each look for what is asked.
#[inline(never)]
fn send_part(
    sender: &mut Sender<Part, PART_SLOTS>,
    kept: &Capture,
    sensor: Sensor,
    zero: u32,
) -> bool
    requires slow { IsSlow sensor }
    requires range { All (IsOfSensor sensor) kept.now }
    requires near { mark_of kept.now ≤ zero + LONGEST_GAP }
    ensures ring { SameSender sender.old sender.new }
    ensures sent { result ≡ true → (given : List Item) → CaptureStandsFor kept.now given
        → items_sent sender.new ≡ items_sent sender.old ++ part sensor given zero ∷ [] }
    ensures full { result ≡ false → (items_sent sender.new ≡ items_sent sender.old)
        × KnowsNoRoom sender.new }
    ensures known { known_taken sender.old ≤ known_taken sender.new }
{
    sender.send(kept.part(sensor, zero)).is_ok()
}

impl SlowSeat {
    // The seat of a sensor that has kept nothing, at the end of a ring into which nothing was sent.
    pub(crate) fn new(
        sender: Sender<Part, PART_SLOTS>,
        capture: Capture,
        keeper: Keeper,
        sensor: Sensor,
    ) -> SlowSeat
        requires ring { items_sent sender ≡ [] }
        requires slow { IsSlow sensor }
        requires kept { (capture ≡ []) × (mark_posted keeper ≡ 0) }
        ensures { (result.sender ≡ sender) × (result.kept ≡ []) × (result.keeper ≡ keeper)
            × (result.sensor ≡ sensor) × (result.last ≡ 0) × (result.served ≡ 0) }
    {
        SlowSeat {
            sender,
            capture,
            keeper,
            sensor,
            last: 0,
            served: 0,
        }
    }

    /// Keeps an item, if the sensor may give it and its moment is granted, and then posts its moment as the sensor's mark. It
    /// waits for nobody and takes no memory. A refusal keeps nothing.
    pub fn offer(&mut self, item: Item) -> Result<(), SlowRefused>
        ensures same { SameSlowSeat self.old self.new }
        ensures ok { OnOk result
            (NowIsFor (λ kept. kept ++ item ∷ []) (λ _ parts. parts) self.old self.new) }
        ensures err { OnErr result (NowIsFor (λ kept. kept) (λ _ parts. parts) self.old self.new) }
        ensures accepted { OnOk result (
            (refusal_by_slow self.old item ≡ None) × (item.moment ≤ grant_known self.new)) }
        ensures why { IfErr result (ExplainsSlow (refusal_by_slow self.old item) item self.new) }
        ensures item { (refused : ItemRefused) → result ≡ Err (SlowRefused.Item refused)
            → self.new ≡ self.old }
        ensures later { grant_known self.old ≤ grant_known self.new }
    {
        if let Err(refused) = check(self.sensor, self.last, &item) {
            return Err(SlowRefused::Item(refused));
        }
        let granted = self.keeper.granted();
        if item.moment > granted {
            return Err(SlowRefused::Ungranted { granted });
        }
        self.capture.push(item);
        self.last = item.moment;
        self.keeper.post_mark(item.moment);
        Ok(())
    }

    /// Sends the part of the time zero that is asked for, if one is that wasn't sent. It waits for nobody and takes no memory.
    pub fn serve(&mut self) -> Served
        ensures same { SameSlowSeat self.old self.new }
        ensures answer { HasServed self.old self.new result }
        ensures stands { NowIsFor (λ kept. kept)
            (λ kept parts. parts_after (sensor_of_slow self.old) kept parts result)
            self.old self.new }
        ensures known { known_taken self.old.sender ≤ known_taken self.new.sender }
        ensures granted { grant_known self.new ≡ grant_known self.old }
    {
        let Some(zero) = self.keeper.asked() else {
            return Served::Nothing;
        };
        if zero == self.served {
            return Served::Nothing;
        }
        if !send_part(&mut self.sender, &self.capture, self.sensor, zero) {
            return Served::Full { zero };
        }
        self.served = zero;
        Served::Sent { zero }
    }
}
