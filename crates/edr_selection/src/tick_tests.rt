//! The tests at a tick.

ghost use Rattle.std.specs.Prelude.{◌≡◌, ◌+◌, ◌^◌, ◌<◌};
ghost use Rattle.edr_record.specs.declared.TheConstants.{RESET};
ghost use Rattle.edr_definitions.specs.Signals.{signals_of};
ghost use Rattle.edr_definitions.specs.Windows.{is_quiet};
ghost use Rattle.edr_definitions.specs.Selection.{is_triggered, is_time_zero, is_end};
ghost use Rattle.edr_definitions.specs.Commands.{is_locking};
ghost use Rattle.edr_selection.specs.Found.{bounds_of};

use crate::changes::{changes_between, swing_of};
use crate::listed::change;
use edr_definitions::limits::{
    ACROSS_TICKS, ALONG_TICKS, OVER, QUIET_SQUARES, QUIET_TICKS, TRIGGER, TRIGGER_TICKS,
};
use edr_items::{Feeds, Sensor};
use edr_record::{EARLIEST_END, RESET};

// Where the search stands: a time zero comes after the tick `after`, and no change that counts for the trigger begins before
// the tick `since`.
#[derive(Clone, Copy)]
pub struct Bounds {
    pub after: u32,
    pub since: u32,
}

// The bits of the restraints that fire at t.
pub fn fired(feeds: &Feeds, t: u32) -> u32
    ensures { result ≡ (signals_of feeds.now).fired t }
{
    change(feeds.of(Sensor::Restraint), t).unsigned_abs()
}

// A restraint that locks the record fires at t: any but the two pretensioners.
pub fn locks(feeds: &Feeds, t: u32) -> bool
    ensures { result ≡ is_locking (signals_of feeds.now) t }
{
    fired(feeds, t) % 64 != 0
}

// A restraint fires at t, or a change up to t meets the trigger threshold.
#[tactic(auto, unfolding(edr_definitions::specs::Selection::is_triggered))]
pub fn triggers(feeds: &Feeds, since: u32, t: u32) -> bool
    ensures { result ≡ is_triggered (signals_of feeds.now) since t }
{
    fired(feeds, t) != 0
        || swing_of(feeds.of(Sensor::Along), TRIGGER_TICKS as u32, since, t) >= TRIGGER
        || swing_of(feeds.of(Sensor::Across), TRIGGER_TICKS as u32, since, t) >= TRIGGER
}

// t is a time zero, if no earlier tick is.
#[tactic(auto, unfolding(edr_definitions::specs::Selection::is_time_zero))]
pub fn begins(feeds: &Feeds, from: Bounds, t: u32) -> bool
    ensures { result ≡ is_time_zero (signals_of feeds.now) (bounds_of from) t }
{
    t > from.after
        && (swing_of(feeds.of(Sensor::Along), ALONG_TICKS as u32, from.after, t) > OVER
            || swing_of(feeds.of(Sensor::Across), ACROSS_TICKS as u32, from.after, t) > OVER
            || triggers(feeds, from.since, t))
}

// The two changes are together at most 0.8 km/h.
fn is_still(along: i64, across: i64) -> bool
    ensures { result ≡ is_quiet along across }
{
    let along = u128::from(along.unsigned_abs());
    let across = u128::from(across.unsigned_abs());
    along * along + across * across <= QUIET_SQUARES
}

// t is the end of the candidate with that time zero, if no earlier tick is.
#[tactic(auto, unfolding(edr_definitions::specs::Selection::is_end))]
pub fn ends(feeds: &Feeds, zero: u32, t: u32) -> bool
    requires { zero + RESET < 2 ^ 32 }
    ensures { result ≡ is_end (signals_of feeds.now) zero t }
{
    let since = t.saturating_sub(QUIET_TICKS as u32);
    t == zero + u32::from(RESET)
        || (t >= zero + u32::from(EARLIEST_END)
            && is_still(
                changes_between(feeds.of(Sensor::Along), since, t).whole,
                changes_between(feeds.of(Sensor::Across), since, t).whole,
            ))
}
