//! A worker's stand: the sensors that it serves, of which the slow ones keep their own items, and its loop.

ghost use Rattle.std.specs.Prelude.{◌≡◌, ◌≤◌, ◌⊎◌, true};
ghost use Rattle.edr_board.specs.Seats.{board_of_watch};
ghost use Rattle.edr_loops.specs.FastSenders.{came_of_both};
ghost use Rattle.edr_loops.specs.Rounds.{bell_after, is_sent, rounds_on};
ghost use Rattle.edr_loops.specs.Workers.{AreFastBegun, AreSlowSenders, FastGoOn, HaveNoneLeft, SlowKeepOn, WorkerHasEnded, has_no_sender};
ghost use Rattle.edr_loops.specs.Senders.{HaveBegun, HaveGoneOn};

use crate::fast_sender::{FastSender, Gate, Offered, serve_some};
use crate::per_fast_sensor::PerFastSensor;
use crate::slow_sender::{SlowSender, serve_slow};
use edr_board::{Bell, GateWord, Watch};
use edr_items::{Feeds, PerSlowSensor, SENSORS, Sensor};
use std::sync::Wait;

/// The senders of some of the fast sensors, whose items go through rings.
pub type FastSenders = PerFastSensor<Option<FastSender>>;

/// The senders of some of the slow sensors, which keep their items and send parts alone.
#[derive(Drop)]
pub struct SlowSenders {
    pub each: PerSlowSensor<Option<SlowSender>>,
}

/// The senders of some of the sensors: a worker's, or those that aren't dealt yet.
#[derive(Drop)]
pub struct Senders {
    pub fast: FastSenders,
    pub slow: SlowSenders,
}

/// What a worker owns, and hands back at its join.
#[derive(Drop)]
pub struct Stand {
    pub senders: Senders,
    pub watch: Watch,
}

impl PerFastSensor<Option<FastSender>> {
    // One round over the sensors. It answers what came of their offers.
    fn round<G: Gate>(&mut self, feeds: &Feeds, gate: &G) -> Offered
        requires { AreFastBegun feeds.now self.old }
        ensures on { FastGoOn feeds.now self.old self.new }
        ensures over { result ≡ Offered.Over → HaveNoneLeft feeds.now self.new }
    {
        let along = serve_some(&mut self.along, Sensor::Along, feeds, gate);
        let across = serve_some(&mut self.across, Sensor::Across, feeds, gate);
        let restraint = serve_some(&mut self.restraint, Sensor::Restraint, feeds, gate);
        along.and(across).and(restraint)
    }
}

impl SlowSenders {
    // Whether no slow sensor is served here.
    fn is_empty(&self) -> bool
        ensures { result ≡ has_no_sender self.now }
    {
        for sensor in SENSORS {
            if let Some(Some(_)) = self.each.of(sensor) {
                return false;
            }
        }
        true
    }

    // Serves one sensor, if it is served here.
    #[inline(always)]
    fn serve<G: Gate>(&mut self, sensor: Sensor, feeds: &Feeds, gate: &G) -> Offered
        requires { AreSlowSenders feeds.now self.old }
        ensures { SlowKeepOn feeds.now self.old self.new }
    {
        match self.each.of_mut(sensor) {
            Some(sender) => serve_slow(sender, sensor, feeds, gate),
            None => Offered::Over,
        }
    }

    // One round over the sensors. It answers what came of their offers, and of the parts that are asked for.
    fn round<G: Gate>(&mut self, feeds: &Feeds, gate: &G) -> Offered
        requires { AreSlowSenders feeds.now self.old }
        ensures { SlowKeepOn feeds.now self.old self.new }
    {
        let mut offered = Offered::Over;
        for sensor in SENSORS {
            let came = self.serve(sensor, feeds, gate);
            offered = offered.and(came);
        }
        offered
    }
}

impl Stand {
    // Whether the worker's own work is done, once its fast sensors have given this. A slow sensor may be asked for a part until
    // the horizon is closed.
    fn is_done(&self, fast: Offered, closed: u32, horizon: u32) -> bool
        ensures over { result ≡ true → fast ≡ Offered.Over }
        ensures slow { result ≡ true → (has_no_sender self.now.senders.slow ≡ true) ⊎ (horizon ≤ closed) }
    {
        fast == Offered::Over && (self.senders.slow.is_empty() || horizon <= closed)
    }

    // What a worker does after a round: it rings where something was sent or kept, and rests otherwise. `rounds` is how many rounds in a
    // row found nothing before this one, and it answers how many have by now.
    fn ring_or_rest<R: Wait>(&self, rt: &R, fast: Offered, slow: Offered, rounds: u32) -> u32
        ensures { result ≡ rounds_on (bell_after fast) (is_sent (came_of_both fast slow)) rounds }
    {
        if fast.and(slow) == Offered::Sent {
            self.watch.ring(Bell::Recorder);
            return 0;
        }
        let bell = if fast == Offered::Over {
            Bell::Grants
        } else {
            Bell::Room
        };
        self.watch.rest(rt, bell, rounds)
    }

    // Rounds, until the worker's own work is done, or the board says that the work goes on without it.
    fn work<R: Wait, G: Gate>(&mut self, rt: &R, feeds: &Feeds, gate: &G)
        requires { HaveBegun feeds.now self.old.senders }
        ensures on { HaveGoneOn feeds.now self.old.senders self.new.senders }
        ensures board { board_of_watch self.new.watch ≡ board_of_watch self.old.watch }
        ensures ends { WorkerHasEnded feeds.now self.new }
    {
        let horizon = feeds.horizon();
        let mut rounds = 0;
        for _ in rt.forever() {
            let fast = self.senders.fast.round(feeds, gate);
            let slow = self.senders.slow.round(feeds, gate);
            let status = self.watch.read();
            if status.stopped
                || GateWord::End.is(status.gate)
                || self.is_done(fast, status.closed, horizon)
            {
                return;
            }
            rounds = self.ring_or_rest(rt, fast, slow, rounds);
        }
        unreachable!()
    }

    /// Serves its sensors once the gate isn't 0. Without slow sensors it goes on until all items are offered; with some of them
    /// also until the horizon is closed, since their parts may be asked for up to there. It ends earlier where the board says
    /// that the work goes on without it.
    pub fn serve<R: Wait, G: Gate>(self, rt: &R, feeds: &Feeds, gate: &G) -> Stand
        requires { HaveBegun feeds.now self.senders }
        ensures on { HaveGoneOn feeds.now self.senders result.senders }
        ensures board { board_of_watch result.watch ≡ board_of_watch self.watch }
        ensures ends { WorkerHasEnded feeds.now result }
    {
        let mut stand = self;
        if !GateWord::End.is(stand.watch.wait_gate(rt)) {
            stand.work(rt, feeds, gate);
        }
        stand
    }
}
