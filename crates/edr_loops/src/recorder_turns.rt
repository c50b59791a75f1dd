//! The turns of the desk of `recorder.rt`: what one step does for one sensor is done for all, again and again. It stands apart, since
//! each turn is made of the steps there.

ghost use Rattle.std.specs.Prelude.{◌≡◌, [], true};
ghost use Rattle.edr_loops.specs.Rounds.{rounds_on};
ghost use Rattle.edr_loops.specs.UnsentOrders.{issues_held};
ghost use Rattle.edr_loops.specs.Recorders.{RecordsOn, RecordsOnHolding, HasEnded, HasPosted, IsDone, IsRecording, Later, LaterUpTo};

use crate::per_fast_sensor::{FastSensor, PerFastSensor};
use crate::recorder::Desk;
use edr_board::{Bell, GateWord};
use edr_core::Issued;
use edr_items::{LATEST_MOMENT, LONGEST_GAP, SENSORS};
use edr_seats::SLOTS;
use std::sync::Wait;

impl Desk {
    // Reads the marks of the slow sensors.
    fn load_marks(&mut self) -> bool
        requires { IsRecording self.old }
        ensures { RecordsOnHolding 0 self.old self.new }
    {
        let mut moved = false;
        for sensor in SENSORS {
            moved |= self.load_mark(sensor);
        }
        moved
    }

    // Takes a part of each slow sensor, while parts are asked for.
    fn take_parts(&mut self) -> bool
        requires { IsRecording self.old }
        ensures { RecordsOnHolding 0 self.old self.new }
    {
        if !self.asking {
            return false;
        }
        let mut moved = false;
        for sensor in SENSORS {
            moved |= self.take_part(sensor);
        }
        moved
    }

    // One step: a tick at rest is passed; or else the items are taken for which the next tick waits, and it is closed.
    #[inline(always)]
    fn step(&mut self, horizon: u32, issued: &mut Issued) -> bool
        requires { IsRecording self.old }
        ensures { RecordsOn horizon self.old self.new }
    {
        if self.pass_next(horizon) {
            return true;
        }
        let along = self.take_due(FastSensor::Along, self.last.along, horizon);
        let across = self.take_due(FastSensor::Across, self.last.across, horizon);
        let restraint = self.take_due(FastSensor::Restraint, self.last.restraint, horizon);
        let closed = self.close_below(horizon, issued);
        along | across | restraint | closed
    }

    // Goes on by steps, up to a tick that issues something, or that waits for a sensor or a part, or the horizon.
    fn step_on(&mut self, horizon: u32, issued: &mut Issued) -> bool
        requires { IsRecording self.old }
        ensures { RecordsOn horizon self.old self.new }
    {
        let mut moved = false;
        for _ in 0..SLOTS {
            if !self.step(horizon, issued) {
                break;
            }
            moved = true;
        }
        moved
    }

    // Sends what is held, as far as there is room, and answers whether none is left.
    fn send_held(&mut self) -> bool
        requires { IsRecording self.old }
        ensures on { RecordsOn 0 self.old self.new }
        ensures all { result ≡ true → issues_held self.new.held ≡ [] }
    {
        self.held.send(&mut self.outbox)
    }

    // Posts the closed tick, if it has risen. All that was issued up to it is sent by then.
    fn post_closed(&mut self)
        requires stands { IsRecording self.old }
        requires posted { HasPosted self.old }
        requires sent { issues_held self.old.held ≡ [] }
        ensures later { Later self.old self.new }
        ensures stands { IsRecording self.new }
        ensures posted { HasPosted self.new }
        ensures held { self.new.held ≡ self.old.held }
    {
        let closed = self.core.closed();
        if self.posted < closed {
            self.seat.post_closed(closed);
            self.posted = closed;
        }
    }

    // Wakes the committer where there is news for it: orders were sent, or the horizon is posted.
    fn wake(&self, sent: bool, horizon: u32) {
        if sent || self.posted >= horizon {
            self.seat.wake();
        }
    }

    // Wakes workers that wait for room, where items were taken.
    fn tell_room(&self, taken: bool) {
        if taken {
            self.watch.ring(Bell::Room);
        }
    }

    // Takes marks, parts and items, and closes ticks.
    fn advance(&mut self, horizon: u32, issued: &mut Issued) -> bool
        requires { IsRecording self.old }
        ensures { RecordsOn horizon self.old self.new }
    {
        self.grant();
        let marks = self.load_marks();
        let parts = self.take_parts();
        let steps = self.step_on(horizon, issued);
        self.tell_room(steps);
        marks | parts | steps
    }

    // One turn: what is held is sent before its tick is posted as closed; then the desk advances. It answers whether anything was done.
    fn turn(&mut self, horizon: u32, issued: &mut Issued) -> bool
        requires stands { IsRecording self.old }
        requires posted { HasPosted self.old }
        ensures later { LaterUpTo horizon self.old self.new }
        ensures stands { IsRecording self.new }
        ensures posted { HasPosted self.new }
    {
        let sends = !self.held.is_none();
        if !self.send_held() {
            return false;
        }
        self.post_closed();
        self.wake(sends, horizon);
        let moved = self.advance(horizon, issued);
        sends | moved
    }

    // Whether all is done: each item of the fast sensors is taken, the horizon is closed, and what the slow sensors may still keep past it
    // is granted.
    fn is_done(&self, horizon: u32, ends: PerFastSensor<u32>) -> bool
        requires stands { IsRecording self.now }
        requires posted { HasPosted self.now }
        ensures { result ≡ true → IsDone horizon ends self.now }
    {
        let upto = horizon.saturating_add(LONGEST_GAP).min(LATEST_MOMENT);
        self.posted >= horizon && self.granted >= upto && self.last == ends
    }

    // Wakes all workers.
    fn tell_workers(&self) {
        self.watch.ring(Bell::Room);
        self.watch.ring(Bell::Grants);
    }

    // What the recorder does after a turn. After one that did nothing it rests; but first it wakes all workers, so it never sleeps while one
    // of them sleeps over something that it did. `rounds` is how many turns in a row did nothing before this one, and it answers how many
    // have by now.
    fn tell_or_rest<R: Wait>(&self, rt: &R, moved: bool, rounds: u32) -> u32
        ensures { result ≡ rounds_on Bell.Recorder moved rounds }
    {
        if moved {
            return 0;
        }
        if rounds == 0 {
            self.tell_workers();
        }
        self.watch.rest(rt, Bell::Recorder, rounds)
    }

    // Turns until all is done, or the committer has stopped.
    fn work<R: Wait>(&mut self, rt: &R, horizon: u32, ends: PerFastSensor<u32>)
        requires stands { IsRecording self.old }
        requires posted { HasPosted self.old }
        ensures later { LaterUpTo horizon self.old self.new }
        ensures ends { HasEnded horizon ends self.new }
    {
        let mut issued = Issued::none();
        let mut rounds = 0;
        for _ in rt.forever() {
            let moved = self.turn(horizon, &mut issued);
            if self.is_done(horizon, ends) {
                return;
            }
            if self.watch.read().stopped {
                return;
            }
            rounds = self.tell_or_rest(rt, moved, rounds);
        }
        unreachable!()
    }

    /// The recorder's loop. Where the committer has stopped, the gate is posted 2 and nothing is done. `ends` are the last moments of
    /// the feeds of the fast sensors, and the loop ends once it has taken every item of these and closed the horizon.
    pub fn record<R: Wait>(self, rt: &R, horizon: u32, ends: PerFastSensor<u32>) -> Desk
        requires stands { IsRecording self }
        requires posted { HasPosted self }
        ensures later { LaterUpTo horizon self result }
        ensures ends { HasEnded horizon ends result }
    {
        let mut desk = self;
        if desk.watch.read().stopped {
            desk.seat.post(GateWord::End);
            return desk;
        }
        desk.seat.post(GateWord::Open);
        desk.work(rt, horizon, ends);
        desk.tell_workers();
        desk
    }
}
