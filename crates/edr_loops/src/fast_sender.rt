//! A fast sensor's sender at a worker.

ghost use Rattle.std.specs.Prelude.{◌≡◌, ◌≤◌, IfSome, max, min};
ghost use Rattle.edr_items.specs.SensorLists.{items_of};
ghost use Rattle.edr_loops.specs.FastSenders.{CameOfItems, HasSent, SendsOn, came_of_both};
ghost use Rattle.edr_loops.specs.Hands.{CameHere, GoesHere};

use edr_items::{Feeds, Item, Sensor};
use edr_seats::{OfferRefused, SLOTS, Seat};

/// What a worker calls before an item's first offer.
pub trait Gate {
    /// Lets pass the item that is the nth of the sensor with that number; both count from 1.
    fn pass(&self, sensor: u8, nth: u32);

    /// Is told that the slow sensor with that number has sent its part of this time zero.
    fn served(&self, _sensor: u8, _zero: u32) {}
}

/// What came of offers.
#[derive(Clone, Copy, Debug, PartialEq, Eq)]
pub enum Offered {
    /// An item was sent, and there may be more.
    Sent,
    /// None was sent: the ring was full, or the next one isn't granted.
    Full,
    /// Nothing was left to offer.
    Over,
}

impl Offered {
    // What came of these and of others.
    pub(crate) fn and(self, other: Offered) -> Offered
        ensures { result ≡ came_of_both self other }
    {
        match (self, other) {
            (Offered::Sent, _) | (_, Offered::Sent) => Offered::Sent,
            (Offered::Full, _) | (_, Offered::Full) => Offered::Full,
            (Offered::Over, Offered::Over) => Offered::Over,
        }
    }
}

/// How many items of a sensor have passed the gate: one after the other, each once.
#[derive(Clone, Copy, Debug, PartialEq, Eq)]
pub struct GatePasses {
    passed: u32,
}

impl GatePasses {
    // Before the first item.
    pub(crate) const fn new() -> GatePasses
        ensures { result.passed ≡ 0 }
    {
        GatePasses { passed: 0 }
    }

    // Lets items pass up to the one of that number, as far as they haven't passed yet.
    pub(crate) fn pass_to<G: Gate>(&mut self, sensor: Sensor, upto: usize, gate: &G)
        ensures { self.new.passed ≡ max self.old.passed (min upto 4_294_967_295) }
    {
        let upto = u32::try_from(upto).unwrap_or(u32::MAX);
        for nth in self.passed..upto {
            gate.pass(sensor.number(), nth + 1);
        }
        self.passed = self.passed.max(upto);
    }
}

/// A sensor's seat, with how many items of its feed it has sent.
#[derive(Drop)]
pub struct FastSender {
    pub seat: Seat,
    pub next: usize,
    pub passage: GatePasses,
}

impl FastSender {
    // Offers the next item, which passes the gate before its first offer.
    fn offer_next<G: Gate>(&mut self, sensor: Sensor, items: &[Item], gate: &G) -> Offered
        requires { HasSent items.now self.old }
        ensures goes { SendsOn items.now self.old self.new }
        ensures came { CameOfItems sensor items.now self.old self.new result }
    {
        if self.next >= items.len() {
            return Offered::Over;
        }
        self.passage.pass_to(sensor, self.next + 1, gate);
        match self.seat.offer(items[self.next]) {
            Ok(()) => {
                self.next += 1;
                Offered::Sent
            }
            Err(OfferRefused::Full { .. }) => Offered::Full,
            // Feeds are feeds, so no item of them is refused.
            Err(OfferRefused::Item(_)) => Offered::Over,
        }
    }

    // Offers items together, up to one for which there is no room, and at most as many as a ring has room for beside one.
    fn offer_more<G: Gate>(&mut self, sensor: Sensor, items: &[Item], gate: &G)
        requires { HasSent items.now self.old }
        ensures goes { SendsOn items.now self.old self.new }
        ensures on { self.old.next ≤ self.new.next }
    {
        let end = self
            .next
            .saturating_add(SLOTS as usize - 1)
            .min(items.len());
        if end <= self.next {
            return;
        }
        self.passage.pass_to(sensor, end, gate);
        self.next += self.seat.offer_some(&items[self.next..end]);
    }

    /// Offers items up to one for which there is no room, and at most as many as a ring has room for.
    pub fn serve<G: Gate>(&mut self, sensor: Sensor, items: &[Item], gate: &G) -> Offered
        requires { HasSent items.now self.old }
        ensures goes { SendsOn items.now self.old self.new }
        ensures came { CameOfItems sensor items.now self.old self.new result }
    {
        let offered = self.offer_next(sensor, items, gate);
        if offered == Offered::Sent {
            self.offer_more(sensor, items, gate);
        }
        offered
    }
}

// The same of a sensor that may be at another worker.
pub fn serve_some<G: Gate>(
    sender: &mut Option<FastSender>,
    sensor: Sensor,
    feeds: &Feeds,
    gate: &G,
) -> Offered
    requires { IfSome sender.old (HasSent (items_of sensor feeds.now)) }
    ensures goes { GoesHere (SendsOn (items_of sensor feeds.now)) sender.old sender.new }
    ensures came { CameHere (CameOfItems sensor (items_of sensor feeds.now))
        sender.old sender.new result }
{
    match sender {
        Some(sender) => sender.serve(sensor, feeds.of(sensor), gate),
        None => Offered::Over,
    }
}
