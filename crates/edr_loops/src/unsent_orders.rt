//! The commands of one tick that were issued and not yet sent.

ghost use Rattle.std.specs.Prelude.{◌≡◌, ◌↔◌, [], true, false, map, None};
ghost use Rattle.edr_definitions.specs.Commands.{issue_at};
ghost use Rattle.edr_core.specs.Answers.{commands_put};
ghost use Rattle.edr_seats.specs.Rings.{KnowsNoRoom, SameSender};
ghost use Rattle.edr_loops.specs.UnsentOrders.{issues_held, issues_out, issues_out_one};

use crate::orders::{Order, Outbox};
use edr_core::Issued;
use edr_record::Command;

/// At most three orders, of one tick, in their order.
#[derive(Clone, Copy, Drop)]
pub struct UnsentOrders {
    pub take: Option<Order>,
    pub lock: Option<Order>,
    pub done: Option<Order>,
}

// Sends the order that there is. It stands apart, since few turns have one, and its places are large.
#[inline(never)]
fn send_first(outbox: &mut Outbox, order: &mut Option<Order>) -> bool
    ensures ring { SameSender outbox.old outbox.new }
    ensures same { issues_out_one outbox.new order.new ≡ issues_out_one outbox.old order.old }
    ensures all { (result ≡ true) ↔ (order.new ≡ None) }
    ensures full { result ≡ false → KnowsNoRoom outbox.new }
{
    let Some(first) = order.take() else {
        return true;
    };
    match outbox.send(first) {
        Ok(()) => true,
        Err(back) => {
            *order = Some(back);
            false
        }
    }
}

// Sends an order if there is one. It answers whether none is left.
#[inline(always)]
fn send_one(outbox: &mut Outbox, order: &mut Option<Order>) -> bool
    ensures ring { SameSender outbox.old outbox.new }
    ensures same { issues_out_one outbox.new order.new ≡ issues_out_one outbox.old order.old }
    ensures all { (result ≡ true) ↔ (order.new ≡ None) }
    ensures full { result ≡ false → KnowsNoRoom outbox.new }
{
    if order.is_none() {
        return true;
    }
    send_first(outbox, order)
}

impl UnsentOrders {
    /// None.
    pub fn none() -> UnsentOrders
        ensures { issues_held result ≡ [] }
    {
        UnsentOrders {
            take: None,
            lock: None,
            done: None,
        }
    }

    /// Those that a closed tick issues.
    pub fn of_tick(tick: u32, issues: bool, issued: &Issued) -> UnsentOrders
        ensures { issues_held result ≡ map (issue_at tick) (commands_put issues issued.now) }
    {
        if !issues {
            return UnsentOrders::none();
        }
        UnsentOrders {
            take: issued.take.map(|pre| Order {
                tick,
                command: Command::Take { pre },
            }),
            lock: issued.lock.map(|pre| Order {
                tick,
                command: Command::Lock { pre },
            }),
            done: issued.done.map(|crash| Order {
                tick,
                command: Command::Done { crash },
            }),
        }
    }

    /// Whether there is none.
    pub fn is_none(&self) -> bool
        ensures { (result ≡ true) ↔ (issues_held self.now ≡ []) }
    {
        self.take.is_none() && self.lock.is_none() && self.done.is_none()
    }

    /// Sends them as far as there is room. It answers whether none is left.
    pub fn send(&mut self, outbox: &mut Outbox) -> bool
        ensures ring { SameSender outbox.old outbox.new }
        ensures same { issues_out outbox.new self.new ≡ issues_out outbox.old self.old }
        ensures all { (result ≡ true) ↔ (issues_held self.new ≡ []) }

        // One is left only where as many as there are slots were sent past the last that the outbox knows taken.
        ensures full { result ≡ false → KnowsNoRoom outbox.new }
    {
        if !send_one(outbox, &mut self.take) {
            return false;
        }
        if !send_one(outbox, &mut self.lock) {
            return false;
        }
        send_one(outbox, &mut self.done)
    }
}
