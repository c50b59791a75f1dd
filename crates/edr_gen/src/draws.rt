//! The draws of a number.
ghost use Rattle.std.specs.Prelude.{◌≡◌, ◌+◌, ◌*◌, ◌%◌, ◌≤◌, ◌<◌, ℕ};
ghost use Rattle.edr_device.specs.Draw.{next_state};
ghost use Rattle.edr_gen.specs.Draws.{state_after, draw, impulse_from, stop_by, plan_from, state_past};

use crate::plan::{Impulse, Plan};
use arrayvec::ArrayVec;

/// Numbers that are drawn one after the other. The state is at first the number that they are drawn from.
#[derive(Clone, Copy)]
pub(crate) struct Draws {
    pub(crate) state: u64,
}

fn next_state(state: u64) -> u64
    ensures { result ≡ next_state state }
{
    state
        .wrapping_mul(6364136223846793005)
        .wrapping_add(1442695040888963407)
}

impl Draws {
    // A draw below the limit.
    #[tactic(auto, unfolding(crate::specs::Draws::draw))]
    fn below(&mut self, limit: u32) -> u32
        requires { 1 ≤ limit }
        ensures state { (x k : ℕ) → self.old.state ≡ state_after x k → self.new.state ≡ state_after x (k + 1) }
        ensures value { (x k : ℕ) → self.old.state ≡ state_after x k → result ≡ draw x (k + 1) % limit }
        ensures within { result < limit }
    {
        self.state = next_state(self.state);
        (self.state >> 33) as u32 % limit
    }

    // The impulse in that place of a cycle, counted from 0.
    fn impulse(&mut self, place: u32) -> Impulse
        requires { place < 3 }
        ensures state { (x k : ℕ) → self.old.state ≡ state_after x k → self.new.state ≡ state_after x (k + 5) }
        ensures value { (x k : ℕ) → self.old.state ≡ state_after x k → result ≡ impulse_from place x k }
    {
        let start = 6_000 + 4_000 * place + self.below(1_000);
        let len = 20 + self.below(80);
        let along = 0 - (1_000 + self.below(4_000)) as i32;
        let across = self.below(2_000) as i32;
        let fires = self.below(4) == 0;
        Impulse {
            start,
            len,
            along,
            across,
            fires,
        }
    }

    // The changing call in which the power stops, 0 for none.
    fn stop(&mut self) -> u32
        ensures state { (x k : ℕ) → self.old.state ≡ state_after x k → self.new.state ≡ state_after x (k + 2) }
        ensures value { (x k : ℕ) → self.old.state ≡ state_after x k → result ≡ stop_by (draw x (k + 1)) (draw x (k + 2)) }
    {
        let eighth = self.below(8);
        let call = 1 + self.below(20);
        if eighth == 0 { call } else { 0 }
    }

    /// The plan of the next cycle.
    #[tactic(auto, unfolding(crate::specs::Draws::plan_from, crate::specs::Draws::state_past))]
    pub(crate) fn next_plan(&mut self) -> Plan
        ensures value { result ≡ plan_from self.old.state }
        ensures state { self.new.state ≡ state_past self.old.state }
    {
        let count = 1 + self.below(3);
        let mut impulses = ArrayVec::new();
        for place in 0..count {
            impulses.push(self.impulse(place));
        }
        let stop = self.stop();
        Plan { impulses, stop }
    }
}
