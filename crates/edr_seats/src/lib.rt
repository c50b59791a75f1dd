//! The rings of the threads, and the seats of the sensors at them. The end of a ring that sends is a [`Sender`], the
//! other a [`Receiver`]. Each may move into a thread of its own, and no call of either waits for the other.
//!
//! A sensor offers its items from its [`Seat`], and the recorder takes them from the [`Inlet`]. A slow sensor may keep
//! its samples itself: its [`SlowSeat`] sends only the part of a time zero that is asked for, and the recorder takes it
//! from the [`PartInlet`].
//!
//! What a ring stands for are two lists, the items that were sent and the items that were taken. Each end knows its
//! own list whole, and of the other's only what it has seen so far; [`Receiver::beside`] joins the two.
#![tactic(auto)]

ghost use Rattle.std.specs.Prelude.{◌≡◌, IfOk};
ghost use Rattle.edr_seats.specs.Rings.{IsFreshRing};
ghost use Rattle.edr_seats.specs.Seat.{sensor_of};
ghost use Rattle.edr_items.specs.Sensor.{IsSlow};
ghost use Rattle.edr_board.specs.FreezeSeats.{IsKeeperOf, mark_posted};
ghost use Rattle.edr_seats.specs.Slow.{IsFreshSeat};

mod accepted;
mod rings;
mod seat;
mod slow_seat;

pub use crate::rings::{HasSender, Receiver, Sender};
pub use crate::seat::{Inlet, OfferRefused, Seat};
pub use crate::slow_seat::{PartInlet, Served, SlowRefused, SlowSeat};
use edr_board::Keeper;
use edr_capture::Capture;
use edr_items::Sensor;
use std::alloc::{AllocError as OutOfMemory, Global};

/// How many items a ring has room for.
pub const SLOTS: u32 = 256;

/// The two ends of one sensor's ring.
#[derive(Drop)]
pub struct Lane {
    /// The sensor's end.
    pub seat: Seat,
    /// The recorder's end.
    pub inlet: Inlet,
}

/// An empty ring for the items of that sensor. It takes all the memory that its ends ever need.
///
/// ```
/// let Lane { seat, inlet } = ring(alloc, Sensor::Speed)?;
/// ```
pub fn ring(alloc: Global, sensor: Sensor) -> Result<Lane, OutOfMemory>
    ensures ring { IfOk result (λ lane. IsFreshRing lane.seat.sender lane.inlet) }
    ensures sensor { IfOk result (λ lane. sensor_of lane.seat ≡ sensor) }
{
    let (sender, inlet) = Sender::open(alloc)?;
    Ok(Lane {
        seat: Seat::new(sender, sensor),
        inlet,
    })
}

/// How many parts a ring of parts has room for.
pub const PART_SLOTS: u32 = 4;

/// The two ends of a slow sensor's ring of parts.
#[derive(Drop)]
pub struct SlowLane {
    /// The sensor's end.
    pub seat: SlowSeat,
    /// The recorder's end.
    pub inlet: PartInlet,
}

/// A slow sensor that has kept no item, and an empty ring for its parts. It takes all the memory that its ends ever need.
///
/// # Errors
/// Where memory runs out the keeper is dropped.
pub fn slow(alloc: Global, sensor: Sensor, keeper: Keeper) -> Result<SlowLane, OutOfMemory>
    requires slow { IsSlow sensor }
    requires keeper { IsKeeperOf sensor keeper × (mark_posted keeper ≡ 0) }
    ensures ring { IfOk result (λ lane. IsFreshRing lane.seat.sender lane.inlet) }
    ensures seat { IfOk result (λ lane. IsFreshSeat sensor keeper lane.seat) }
{
    let capture = Capture::new(alloc)?;
    let (sender, inlet) = Sender::open(alloc)?;
    Ok(SlowLane {
        seat: SlowSeat::new(sender, capture, keeper, sensor),
        inlet,
    })
}
