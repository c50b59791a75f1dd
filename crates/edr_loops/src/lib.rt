//! The loops of the threads of a recorder, and what crosses between them.
#![tactic(auto)]

mod buffered_inlet;
mod dealing;
mod fast_inlets;
mod fast_sender;
mod lanes;
mod orders;
mod part_inlets;
mod per_fast_sensor;
mod recorder;
mod recorder_turns;
mod slow_sender;
mod threads;
mod unsent_orders;
mod worker;

pub use crate::buffered_inlet::BufferedInlet;
pub use crate::fast_inlets::FastInlets;
pub use crate::fast_sender::{FastSender, Gate, GatePasses, Offered};
pub use crate::lanes::{
    FastLanes, SlowLanes, make_fast_lanes, make_slow_lanes, settle_fast, settle_parts,
};
pub use crate::orders::{Inbox, Order, Orders, Outbox};
pub use crate::part_inlets::PartInlets;
pub use crate::per_fast_sensor::{FastSensor, PerFastSensor};
pub use crate::recorder::Desk;
pub use crate::slow_sender::SlowSender;
pub use crate::threads::{RecorderPromise, WorkerPromise, start_recorder, start_worker};
pub use crate::unsent_orders::UnsentOrders;
pub use crate::worker::{FastSenders, Senders, SlowSenders, Stand};
