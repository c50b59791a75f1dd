//! A slow sensor's sender at a worker: it keeps the sensor's items, and sends the parts that are asked for.

ghost use Rattle.std.specs.Prelude.{◌≡◌, IfSome, List};
ghost use Rattle.edr_items.specs.declared.Item.{Item};
ghost use Rattle.edr_items.specs.SensorLists.{items_of};
ghost use Rattle.edr_seats.specs.Slow.{grant_known};
ghost use Rattle.edr_loops.specs.Hands.{CameHere, GoesHere};
ghost use Rattle.edr_loops.specs.SlowSenders.{CameOfKept, CameOfPart, CameOfSlow, IsKeeping, KeepsMore, KeepsOn};

use crate::fast_sender::{Gate, GatePasses, Offered};
use edr_items::{Feeds, Item, Sensor};
use edr_seats::{SLOTS, Served, SlowRefused, SlowSeat};

/// A slow sensor's seat, with how many items of its feed it has kept.
#[derive(Drop)]
pub struct SlowSender {
    pub seat: SlowSeat,
    pub next: usize,
    pub passage: GatePasses,
}

impl SlowSender {
    // Offers the next item to the seat that keeps it; it passes the gate before its first offer.
    fn offer_next<G: Gate>(&mut self, sensor: Sensor, items: &[Item], gate: &G) -> Offered
        requires { IsKeeping sensor items.now self.old }
        ensures goes { KeepsOn sensor items.now self.old self.new }
        ensures came { CameOfKept sensor items.now self.old self.new result }
        ensures on { KeepsMore self.old self.new }
    {
        if self.next >= items.len() {
            return Offered::Over;
        }
        self.passage.pass_to(sensor, self.next + 1, gate);
        match self.seat.offer(items[self.next]) {
            Ok(()) => {
                self.next += 1;
                Offered::Sent
            }
            Err(SlowRefused::Ungranted { .. }) => Offered::Full,
            // Feeds are feeds, so no item of them is refused.
            Err(SlowRefused::Item(_)) => Offered::Over,
        }
    }

    // Sends the part that is asked for, if one is that wasn't sent, and tells the gate.
    fn send_part<G: Gate>(&mut self, sensor: Sensor, gate: &G) -> Offered
        ensures goes { (xs : List Item)
            → IsKeeping sensor xs self.old → KeepsOn sensor xs self.old self.new }
        ensures came { (xs : List Item)
            → IsKeeping sensor xs self.old → CameOfPart self.old self.new result }
        ensures next { self.new.next ≡ self.old.next }
        ensures granted { grant_known self.new.seat ≡ grant_known self.old.seat }
    {
        match self.seat.serve() {
            Served::Nothing => Offered::Over,
            Served::Full { .. } => Offered::Full,
            Served::Sent { zero } => {
                gate.served(sensor.number(), zero);
                Offered::Sent
            }
        }
    }

    // Offers items up to one that isn't kept, at most as many as the ring of a fast sensor has room for beside one.
    fn offer_more<G: Gate>(&mut self, sensor: Sensor, items: &[Item], gate: &G)
        requires { IsKeeping sensor items.now self.old }
        ensures goes { KeepsOn sensor items.now self.old self.new }
        ensures on { KeepsMore self.old self.new }
    {
        for _ in 1..SLOTS {
            if self.offer_next(sensor, items, gate) != Offered::Sent {
                break;
            }
        }
    }

    // Offers items up to one that isn't granted, at most as many as the ring of a fast sensor has room for.
    fn offer_some<G: Gate>(&mut self, sensor: Sensor, items: &[Item], gate: &G) -> Offered
        requires { IsKeeping sensor items.now self.old }
        ensures goes { KeepsOn sensor items.now self.old self.new }
        ensures came { CameOfKept sensor items.now self.old self.new result }
        ensures on { KeepsMore self.old self.new }
    {
        let offered = self.offer_next(sensor, items, gate);
        if offered == Offered::Sent {
            self.offer_more(sensor, items, gate);
        }
        offered
    }

    /// Offers items up to one that isn't granted, at most as many as the ring of a fast sensor has room for, and then looks
    /// whether the sensor's part is asked for.
    pub fn serve<G: Gate>(&mut self, sensor: Sensor, items: &[Item], gate: &G) -> Offered
        requires { IsKeeping sensor items.now self.old }
        ensures goes { KeepsOn sensor items.now self.old self.new }
        ensures came { CameOfSlow sensor items.now self.old self.new result }
    {
        let kept = self.offer_some(sensor, items, gate);
        let part = self.send_part(sensor, gate);
        kept.and(part)
    }
}

// The same of a sensor that may be at another worker.
pub fn serve_slow<G: Gate>(
    sender: &mut Option<SlowSender>,
    sensor: Sensor,
    feeds: &Feeds,
    gate: &G,
) -> Offered
    requires { IfSome sender.old (IsKeeping sensor (items_of sensor feeds.now)) }
    ensures goes { GoesHere (KeepsOn sensor (items_of sensor feeds.now)) sender.old sender.new }
    ensures came { CameHere (CameOfSlow sensor (items_of sensor feeds.now))
        sender.old sender.new result }
{
    match sender {
        Some(sender) => sender.serve(sensor, feeds.of(sensor), gate),
        None => Offered::Over,
    }
}
