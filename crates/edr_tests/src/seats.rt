//! The ring between a sensor and the recorder, by two threads.
ghost use Rattle.std.specs.Prelude.{◌≡◌, ◌+◌, [], ◌∷◌, ◌++◌, length, IfSome};
ghost use Rattle.std.specs.Arc.{arc_value};
ghost use Rattle.edr_seats.specs.Rings.{AreOfOneRing, SameReceiver, items_sent, items_taken};
ghost use Rattle.edr_seats.specs.Seat.{SameSeat};

use edr_items::{Item, Sensor};
use edr_seats::{Inlet, Lane, Seat, ring};
use std::snapshot::Snapshot;
use std::sync::{Arc, Wait};
use std::test::Fail;
use std::thread;
use std::thread::{Promise, Threads};

fn sample(moment: u32, value: i32) -> Item {
    Item {
        moment,
        value: Some(value),
    }
}

// Takes what is left in a ring whose ends are in one thread again. Then all that was sent is taken.
fn take_rest(inlet: &mut Inlet, seat: &mut Seat)
    requires { AreOfOneRing seat.old.sender inlet.old }
    ensures sent { items_sent seat.new.sender ≡ items_sent seat.old.sender }
    ensures all { items_taken inlet.new ≡ items_sent seat.new.sender }
{
    let left = inlet.beside(seat);
    for _ in 0..left {
        let _ = inlet.take();
    }
}

type Feed = Arc<Vec<Item>>;

// Offers the item until it is sent.
fn send<R: Wait>(rt: &R, seat: &mut Seat, item: Item)
    ensures ring { SameSeat seat.old seat.new }
    ensures sent { items_sent seat.new.sender ≡ items_sent seat.old.sender ++ item ∷ [] }
{
    for _ in rt.forever() {
        if seat.offer(item).is_ok() {
            return;
        }
        thread::yield_now();
    }
    unreachable!()
}

// Sends all of a feed from a fresh seat.
fn send_all<R: Wait>(rt: &R, seat: Seat, items: &[Item]) -> Seat
    requires { items_sent seat.sender ≡ [] }
    ensures ring { SameSeat seat result }
    ensures sent { items_sent result.sender ≡ items.now }
{
    let mut seat = seat;
    for i in 0..items.len() {
        send(rt, &mut seat, items[i]);
    }
    seat
}

// Takes an item as soon as there is one.
fn next<R: Wait>(rt: &R, inlet: &mut Inlet) -> Item
    ensures ring { SameReceiver inlet.old inlet.new }
    ensures taken { items_taken inlet.new ≡ items_taken inlet.old ++ result ∷ [] }
{
    for _ in rt.forever() {
        if let Some(item) = inlet.take() {
            return item;
        }
        thread::yield_now();
    }
    unreachable!()
}

// Takes as many items as there are in `items`, and counts those that are the same.
fn take_all<R: Wait>(rt: &R, inlet: &mut Inlet, items: &[Item]) -> usize
    ensures ring { SameReceiver inlet.old inlet.new }
    ensures taken { length (items_taken inlet.new) ≡ length (items_taken inlet.old) + length items.now }
{
    let mut same = 0;
    for i in 0..items.len() {
        if next(rt, inlet) == items[i] {
            same += 1;
        }
    }
    same
}

// What a sensor's thread promises: it hands back its own seat, which has sent the whole feed.
#[derive(Drop)]
struct AllSent {
    seat: Snapshot<Seat>,
    feed: Snapshot<Feed>,
}

impl Promise<Seat> for AllSent {
    ghost use Rattle.std.specs.Prelude.{◌≡◌};
    ghost use Rattle.std.specs.Arc.{arc_value};
    ghost use Rattle.edr_seats.specs.Rings.{items_sent};
    ghost use Rattle.edr_seats.specs.Seat.{SameSeat};

    ghost kept_by = { λ p seat. SameSeat p.seat.value seat × (items_sent seat.sender ≡ (arc_value p.feed.value).items) };
}

// Sends a feed from a thread of its own, takes it here, and counts the items that came as they were sent. None where
// no thread could be started.
fn pass_through<R: Threads + Wait + Copy + Send + 'static>(
    rt: &R,
    lane: Lane,
    feed: Feed,
) -> Option<(Inlet, usize)>
    requires ring { AreOfOneRing lane.seat.sender lane.inlet }
    requires fresh { (items_sent lane.seat.sender ≡ []) × (items_taken lane.inlet ≡ []) }
    ensures all { IfSome result (λ r. items_taken r.0 ≡ (arc_value feed).items) }
{
    let Lane { seat, mut inlet } = lane;
    let inner = *rt;
    let sent = Arc::try_clone(&feed).ok()?;
    let promise = AllSent {
        seat: Snapshot::of(&seat),
        feed: Snapshot::of(&sent),
    };
    let child = thread::spawn_with(
        rt,
        promise,
        move || -> Seat
            requires { items_sent seat.sender ≡ [] }
            ensures ring { SameSeat seat result }
            ensures sent { items_sent result.sender ≡ (arc_value sent).items }
        {
            let seat = seat;
            send_all(&inner, seat, &sent)
        },
    )
    .ok()?;
    let same = take_all(rt, &mut inlet, &feed);
    let mut seat = child.join(rt);
    take_rest(&mut inlet, &mut seat);
    Some((inlet, same))
}

#[test]
fn a_feed_goes_through_two_threads_whole_and_in_order(rt: HostRuntime) -> Result<(), Fail> {
    let count = 100_000u32;
    let mut items = Vec::with_capacity(rt.alloc(), count as usize)?;
    for moment in 1..count + 1 {
        items.push(sample(moment, moment as i32 % 1_999 - 999))?;
    }
    let feed = Arc::new(rt.alloc(), items)?;
    let lane = ring(rt.alloc(), Sensor::Along)?;
    let (mut inlet, same) = pass_through(&rt, lane, feed).ok_or("no thread was started")?;
    assert_eq!(rt; same, count as usize);
    assert_eq!(rt; inlet.take(), None);
    Ok(())
}
