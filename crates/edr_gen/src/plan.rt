//! What a generated cycle is made of.
ghost use Rattle.std.specs.Prelude.{◌≡◌};
ghost use Rattle.edr_gen.specs.Cycles.{acts_at, fires_at, acting_at, has_firing, along_of, across_of};

use arrayvec::ArrayVec;
use edr_items::PerSlowSensor;
use std::marker::Model;

/// How many ticks of 1 ms a generated cycle has.
pub const TICKS: u32 = 18_000;

/// What each slow sensor says at every 100th tick.
pub(crate) const SLOW_SAID: PerSlowSensor<i32> = PerSlowSensor {
    speed: 60,
    throttle: 20,
    brake: 0,
    belt: 1,
    lamp: 0,
};

/// How long after the start of an impulse an air bag fires, in ticks.
const FIRING: u32 = 30;

/// What strikes the car for some ticks. Samples are in steps of 0.0001 km/h.
#[derive(Clone, Copy, Debug, Default, PartialEq, Eq)]
pub(crate) struct Impulse {
    /// It acts from the tick after this one on.
    pub(crate) start: u32,
    /// For that many ticks.
    pub(crate) len: u32,
    pub(crate) along: i32,
    pub(crate) across: i32,
    /// Whether the driver's frontal air bag fires.
    pub(crate) fires: bool,
}

impl Impulse {
    fn acts_at(&self, tick: u32) -> bool
        ensures { result ≡ acts_at tick self.now }
    {
        self.start < tick && u64::from(tick) <= u64::from(self.start) + u64::from(self.len)
    }

    fn fires_at(&self, tick: u32) -> bool
        ensures { result ≡ fires_at tick self.now }
    {
        self.fires && u64::from(tick) == u64::from(self.start) + u64::from(FIRING)
    }
}

/// A cycle in numbers: one to three impulses, and where the power stops.
#[derive(Drop)]
pub(crate) struct Plan {
    pub(crate) impulses: ArrayVec<Impulse, 3>,
    // The changing call of the cycle's commands in which the power stops, 0 for none.
    pub(crate) stop: u32,
}

impl Model for Plan {
    ghost use Rattle.edr_gen.specs.Draws.{Planned};

    ghost Value = { Planned };

    ghost view = { λ p. record { impulses = p.impulses.items; stop = p.stop } };
}

impl Plan {
    /// The impulse that acts at the tick, if one does.
    #[tactic(auto, unfolding(crate::specs::Cycles::acting_at))]
    pub(crate) fn acting_at(&self, tick: u32) -> Option<Impulse>
        ensures { result ≡ acting_at self.now.impulses tick }
    {
        for impulse in self.impulses.as_slice() {
            if impulse.acts_at(tick) {
                return Some(*impulse);
            }
        }
        None
    }

    /// Whether an air bag fires at the tick.
    #[tactic(auto, unfolding(crate::specs::Cycles::has_firing))]
    pub(crate) fn has_firing(&self, tick: u32) -> bool
        ensures { result ≡ has_firing self.now.impulses tick }
    {
        for impulse in self.impulses.as_slice() {
            if impulse.fires_at(tick) {
                return true;
            }
        }
        false
    }
}

/// The sample of the longitudinal sensor where this impulse acts, or none.
pub(crate) fn along_of(acting: Option<Impulse>) -> i32
    ensures { result ≡ along_of acting }
{
    match acting {
        Some(impulse) => impulse.along,
        None => 0,
    }
}

/// The same of the lateral sensor.
pub(crate) fn across_of(acting: Option<Impulse>) -> i32
    ensures { result ≡ across_of acting }
{
    match acting {
        Some(impulse) => impulse.across,
        None => 0,
    }
}
