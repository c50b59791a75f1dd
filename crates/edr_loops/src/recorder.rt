//! The recorder's desk: what its thread owns, and its steps. It asks the slow sensors for their parts of a time zero.

ghost use Rattle.std.specs.Prelude.{◌≡◌, ◌≢◌, ◌↔◌, ◌≤◌, ◌+◌, ℕ, [], true, false, map};
ghost use Rattle.edr_items.specs.Sensor.{IsSlow};
ghost use Rattle.edr_definitions.specs.Commands.{issue_at};
ghost use Rattle.edr_definitions.specs.Schedule.{Give, IsAllowed};
ghost use Rattle.edr_board.specs.FreezeSeats.{open_zero};
ghost use Rattle.edr_board.specs.Seats.{closed_posted, gate_posted};
ghost use Rattle.edr_core.specs.Answers.{commands_put};
ghost use Rattle.edr_core.specs.SplitHistory.{History, after_item};
ghost use Rattle.edr_core.specs.SplitStandsFor.{SplitCoreStandsFor};
ghost use Rattle.edr_loops.specs.UnsentOrders.{issues_held};
ghost use Rattle.edr_loops.specs.Recorders.{RecordsOn, RecordsOnHolding, IsFreshDesk, HasPosted, IsRecording, IsAskerSettled, DeskStands};

use crate::fast_inlets::FastInlets;
use crate::orders::Outbox;
use crate::part_inlets::{self, PartInlets};
use crate::per_fast_sensor::{FastSensor, PerFastSensor};
use crate::unsent_orders::UnsentOrders;
use edr_board::{Asker, Bell, FIRST_GRANT, RecorderSeat, Watch};
use edr_capture::Part;
use edr_core::{Issued, SplitClosing, SplitCore};
use edr_items::{Item, LATEST_MOMENT, LONGEST_GAP, Sensor};

/// What the recorder's thread owns, and hands back at its join.
#[derive(Drop)]
pub struct Desk {
    pub core: SplitCore,
    pub fast: FastInlets,
    pub last: PerFastSensor<u32>,
    pub parts: PartInlets,
    pub asker: Asker,
    pub seat: RecorderSeat,
    pub watch: Watch,
    pub outbox: Outbox,
    pub held: UnsentOrders,
    // The closed tick that was posted last, the last grant, and whether parts are asked for.
    pub posted: u32,
    pub granted: u32,
    pub asking: bool,
}

// Holds what a tick issues. Few ticks issue something, and the places that this takes are large: it stands apart, so that the other
// ticks don't clear them.
#[inline(never)]
fn hold(held: &mut UnsentOrders, tick: u32, issued: &Issued)
    ensures { issues_held held.new ≡ map (issue_at tick) (commands_put true issued.now) }
{
    *held = UnsentOrders::of_tick(tick, true, issued);
}

// The same where a tick issues something at all.
#[inline(always)]
fn hold_issued(held: &mut UnsentOrders, tick: u32, issues: bool, issued: &Issued)
    requires { issues_held held.old ≡ [] }
    ensures { issues_held held.new ≡ map (issue_at tick) (commands_put issues issued.now) }
{
    if issues {
        hold(held, tick, issued);
    }
}

// Closes the ask, if one is open.
fn settle(asker: &mut Asker, asking: &mut bool)
    requires open { asking.old ≡ true → open_zero asker.old ≢ 0 }
    requires none { asking.old ≡ false → open_zero asker.old ≡ 0 }
    ensures asking { asking.new ≡ false }
    ensures settled { IsAskerSettled asker.old asker.new }
{
    if *asking {
        asker.settle();
        *asking = false;
    }
}

// Whether the part is one of that slow sensor.
fn is_of(part: &Part, sensor: Sensor) -> bool
    ensures { (result ≡ true) ↔ (IsSlow sensor × (part.now.sensor ≡ sensor)) }
{
    part.sensor == sensor && sensor.is_slow()
}

// Gives an item to the core. It answers whether it was taken, as one that the schedule allows is.
#[inline(always)]
fn give(core: &mut SplitCore, sensor: Sensor, item: Item) -> bool
    ensures taken { result ≡ true → (h : History) → SplitCoreStandsFor core.old h
        → IsAllowed (Give sensor item) h.past × SplitCoreStandsFor core.new (after_item sensor item h) }
    ensures refused { result ≡ false → (core.new ≡ core.old) × ((h : History)
        → SplitCoreStandsFor core.old h → IsAllowed (Give sensor item) h.past → ⊥) }
{
    core.accept(sensor, item).is_ok()
}

impl Desk {
    /// A desk before the first item: nothing was posted by its seats, taken out of its rings or sent.
    pub fn new(
        core: SplitCore,
        fast: FastInlets,
        parts: PartInlets,
        asker: Asker,
        seat: RecorderSeat,
        watch: Watch,
        outbox: Outbox,
    ) -> Desk
        ensures core { result.core ≡ core }
        ensures rings { (result.fast ≡ fast) × (result.parts ≡ parts) × (result.outbox ≡ outbox) }
        ensures seats { (result.asker ≡ asker) × (result.seat ≡ seat) × (result.watch ≡ watch) }
        ensures stands { (n horizon : ℕ)
            → IsFreshDesk n core asker fast parts outbox → DeskStands n horizon result }
        ensures posted { closed_posted seat ≡ 0 → gate_posted seat ≤ 1 → HasPosted result }
    {
        Desk {
            core,
            fast,
            last: PerFastSensor::each(0),
            parts,
            asker,
            seat,
            watch,
            outbox,
            held: UnsentOrders::none(),
            posted: 0,
            granted: FIRST_GRANT,
            asking: false,
        }
    }

    // Takes the next item of that sensor, if it is no further ahead of the closed tick than a gap may be.
    #[inline(always)]
    pub(crate) fn take_next(&mut self, sensor: FastSensor) -> bool
        requires { IsRecording self.old }
        ensures { RecordsOnHolding 0 self.old self.new }
    {
        let upto = self.core.closed().saturating_add(LONGEST_GAP);
        let Some(item) = self.fast.take_upto(sensor, upto) else {
            return false;
        };
        self.last.set(sensor, item.moment);
        give(&mut self.core, sensor.sensor(), item);
        true
    }

    // The same of a sensor whose last item has this moment, where it has none past the closed tick. Past the horizon all are taken.
    pub(crate) fn take_due(&mut self, sensor: FastSensor, last: u32, horizon: u32) -> bool
        requires { IsRecording self.old }
        ensures { RecordsOnHolding 0 self.old self.new }
    {
        let closed = self.core.closed();
        if closed < last && closed < horizon {
            return false;
        }
        self.take_next(sensor)
    }

    // Passes the next tick, where each axis gives a sample of 0 of it next, and the core needs nothing else. At most ticks of a drive
    // nothing moves.
    #[inline(always)]
    pub(crate) fn pass_next(&mut self, horizon: u32) -> bool
        requires { IsRecording self.old }
        ensures { RecordsOnHolding horizon self.old self.new }
    {
        let closed = self.core.closed();
        if closed >= horizon {
            return false;
        }
        if !self.fast.are_still(closed + 1) {
            return false;
        }
        if !self.core.pass_still() {
            return false;
        }
        self.fast.take_both();
        self.last.along = closed + 1;
        self.last.across = closed + 1;
        true
    }

    // Reads the mark of a slow sensor, and gives it to the core where it has risen. Of the other three nothing is read.
    pub(crate) fn load_mark(&mut self, sensor: Sensor) -> bool
        requires { IsRecording self.old }
        ensures { RecordsOnHolding 0 self.old self.new }
    {
        if !sensor.is_slow() {
            return false;
        }
        let mark = self.asker.mark(sensor);
        let item = Item {
            moment: mark,
            value: None,
        };
        give(&mut self.core, sensor, item)
    }

    // Wakes the workers of slow sensors each time that another gap is granted. A wake costs the recorder more than it takes to close
    // that many quiet ticks, so it wakes them no oftener.
    fn tell_grant(&self, upto: u32) {
        if self.granted / LONGEST_GAP < upto / LONGEST_GAP {
            self.watch.ring(Bell::Grants);
        }
    }

    // Grants what the slow sensors may keep, where that has risen: as far ahead of the closed tick as a gap may be, up to a day.
    pub(crate) fn grant(&mut self)
        requires { IsRecording self.old }
        ensures { RecordsOnHolding 0 self.old self.new }
    {
        let upto = self
            .core
            .closed()
            .saturating_add(LONGEST_GAP)
            .min(LATEST_MOMENT);
        if self.granted < upto {
            self.asker.grant(upto);
            self.tell_grant(upto);
            self.granted = upto;
        }
    }

    // Takes a part of that sensor, if there is one. One that isn't of its ring's sensor, or isn't asked for, is left aside.
    pub(crate) fn take_part(&mut self, sensor: Sensor) -> bool
        requires { IsRecording self.old }
        ensures { RecordsOnHolding 0 self.old self.new }
    {
        let Some(own) = part_inlets::take(&mut self.parts, sensor) else {
            return false;
        };
        if is_of(&own, sensor) {
            // One that isn't asked for, or that the core took before, is refused and changes nothing.
            let _ = self.core.part(own);
        }
        true
    }

    // Closes the next tick, if no sensor can give an item of it any more, and holds what it issues. A time zero is asked for first,
    // and closed once its parts are there. `issued` is a place to put aside what a tick issues: it is large, and most ticks issue
    // nothing.
    fn close_next(&mut self, issued: &mut Issued) -> bool
        requires stands { IsRecording self.old }
        requires none { issues_held self.old.held ≡ [] }
        ensures { RecordsOn (self.old.core.closed + 1) self.old self.new }
    {
        match self.core.close(issued) {
            SplitClosing::Waiting { .. } => false,
            SplitClosing::Parts { .. } => false,
            SplitClosing::Ask { zero } => {
                self.asker.ask(zero);
                self.asking = true;
                true
            }
            SplitClosing::Closed { tick, issues } => {
                settle(&mut self.asker, &mut self.asking);
                hold_issued(&mut self.held, tick, issues, issued);
                true
            }
        }
    }

    // The same below the horizon alone, and where nothing is held.
    pub(crate) fn close_below(&mut self, horizon: u32, issued: &mut Issued) -> bool
        requires { IsRecording self.old }
        ensures { RecordsOn horizon self.old self.new }
    {
        if self.held.is_none() && self.core.closed() < horizon {
            self.close_next(issued)
        } else {
            false
        }
    }
}
