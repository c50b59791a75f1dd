//! The stages of the streaming search, and what stands at a tick.

ghost use Rattle.std.specs.Prelude.{◌≡◌, ◌↔◌, IsTrue};
ghost use Rattle.std.specs.Option.{option_or};
ghost use Rattle.edr_definitions.specs.Selection.{Bounds, close_of};
ghost use Rattle.edr_definitions.specs.Change.{stepped_change};
ghost use Rattle.edr_definitions.specs.Search.{Searching, past_end, tick_if};
ghost use Rattle.edr_detect.specs.Stages.{phase_of, is_event, told_of, stepped_search};

use edr_record::{RESET, window_from_end};

/// What stands at a tick. Several things may stand at one.
#[derive(Clone, Copy, Debug, PartialEq, Eq)]
pub struct Change {
    /// A time zero.
    pub zero: bool,
    /// A candidate's confirmation: it is an event from here on.
    pub confirmed: bool,
    /// An event's first locking deployment, from its time zero to its close.
    pub locked: bool,
    /// The end of a candidate, whether it is an event or not.
    pub ended: bool,
    /// The end of a candidate that was not confirmed.
    pub dropped: bool,
    /// The close of an event.
    pub closed: bool,
}

// Nothing stands.
pub const NOTHING: Change = Change {
    zero: false,
    confirmed: false,
    locked: false,
    ended: false,
    dropped: false,
    closed: false,
};

// Whether a candidate is open, and how far it has come: the ticks of its time zero, confirmation, first
// locking deployment and end.
#[derive(Clone, Copy, Debug)]
pub enum Stage {
    Searching,
    Open {
        zero: u32,
        confirmed: Option<u32>,
        locked: Option<u32>,
        end: Option<u32>,
    },
}

// The answers of the four tests at a tick. `zero` counts where no candidate is open, and `ends` where one is.
#[derive(Clone, Copy)]
pub struct Tests {
    pub zero: bool,
    pub trigger: bool,
    pub locks: bool,
    pub ends: bool,
}

// The close of an event.
fn close_tick(zero: u32, end: u32) -> u64
    ensures { result ≡ close_of zero end }
{
    let lasted = end.saturating_sub(zero).min(u32::from(RESET)) as u16;
    u64::from(end).max(u64::from(zero) + u64::from(window_from_end(lasted)))
}

// The tick that was found so far, or this one.
fn first(found: Option<u32>, now: bool, t: u32) -> Option<u32>
    ensures { result ≡ option_or found (tick_if now t) }
{
    match found {
        Some(earlier) => Some(earlier),
        None => now.then_some(t),
    }
}

// Past the tick t, of a candidate that ended at `end`.
fn past(t: u32, zero: u32, confirmed: Option<u32>, locked: Option<u32>, end: u32) -> Stage
    ensures { (b : Bounds) → phase_of result ≡ (past_end t b zero confirmed locked end).phase }
{
    if confirmed.is_none() || u64::from(t) == close_tick(zero, end) {
        return Stage::Searching;
    }
    Stage::Open {
        zero,
        confirmed,
        locked,
        end: Some(end),
    }
}

impl Stage {
    /// No candidate is open, so that a tick is looked at for a time zero.
    pub fn is_searching(self) -> bool
        ensures { IsTrue result ↔ (phase_of self ≡ Searching) }
    {
        matches!(self, Stage::Searching)
    }

    /// A candidate is open that is confirmed, so that its trigger need not be looked for any more.
    pub fn is_event(self) -> bool
        ensures { result ≡ is_event (phase_of self) }
    {
        matches!(
            self,
            Stage::Open {
                confirmed: Some(_),
                ..
            }
        )
    }

    /// The stage with which the search goes on past the tick t, in ms of the cycle.
    pub fn next(self, t: u32, tests: Tests) -> Stage
        ensures { (b : Bounds) → phase_of result ≡ (stepped_search t tests b (phase_of self)).phase }
    {
        match self {
            Stage::Searching => {
                if tests.zero {
                    Stage::Open {
                        zero: t,
                        confirmed: first(None, tests.trigger, t),
                        locked: first(None, tests.locks, t),
                        end: None,
                    }
                } else {
                    Stage::Searching
                }
            }
            Stage::Open {
                zero,
                confirmed,
                locked,
                end: None,
            } => {
                let confirmed = first(confirmed, tests.trigger, t);
                let locked = first(locked, tests.locks, t);
                if tests.ends {
                    past(t, zero, confirmed, locked, t)
                } else {
                    Stage::Open {
                        zero,
                        confirmed,
                        locked,
                        end: None,
                    }
                }
            }
            Stage::Open {
                zero,
                confirmed,
                locked,
                end: Some(end),
            } => past(t, zero, confirmed, first(locked, tests.locks, t), end),
        }
    }

    /// What there is to tell of the tick t, in ms of the cycle, from the stage before it.
    pub fn change_at(self, t: u32, tests: Tests) -> Change
        ensures { told_of result ≡ stepped_change t tests.zero tests.trigger tests.locks tests.ends (phase_of self) }
    {
        match self {
            Stage::Searching => Change {
                zero: tests.zero,
                confirmed: tests.zero && tests.trigger,
                locked: tests.zero && tests.locks,
                ended: false,
                dropped: false,
                closed: false,
            },
            Stage::Open {
                zero,
                confirmed,
                locked,
                end: None,
            } => {
                let is_event = confirmed.is_some() || tests.trigger;
                Change {
                    zero: false,
                    confirmed: confirmed.is_none() && tests.trigger,
                    locked: locked.is_none() && tests.locks,
                    ended: tests.ends,
                    dropped: !is_event && tests.ends,
                    closed: is_event && tests.ends && close_tick(zero, t) == u64::from(t),
                }
            }
            Stage::Open {
                zero,
                locked,
                end: Some(end),
                ..
            } => Change {
                zero: false,
                confirmed: false,
                locked: locked.is_none() && tests.locks,
                ended: false,
                dropped: false,
                closed: close_tick(zero, end) == u64::from(t),
            },
        }
    }
}
