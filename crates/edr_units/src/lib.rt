//! The thresholds of the recorder, and whole km/h, of changes of speed in steps of 0.0001 km/h.
#![tactic(auto)]

ghost use Rattle.std.specs.Prelude.{◌≡◌, unsigned_abs};
ghost use Rattle.edr_definitions.specs.Windows.{is_over, meets_trigger, is_quiet};
ghost use Rattle.edr_definitions.specs.Parts.{kmh_of};

use edr_definitions::limits::{OVER, QUIET_SQUARES, STEPS_OF_KMH, TRIGGER};

/// Whether a change of speed, either way, is over 0.8 km/h.
pub fn over(change: i64) -> bool
    ensures { result ≡ is_over (unsigned_abs change) }
{
    change.unsigned_abs() > OVER
}

/// Whether a change of speed, either way, meets the trigger threshold.
pub fn trigger(change: i64) -> bool
    ensures { result ≡ meets_trigger (unsigned_abs change) }
{
    change.unsigned_abs() >= TRIGGER
}

/// Whether the resultant of a longitudinal and a lateral change of speed is at most 0.8 km/h.
pub fn quiet(along: i64, across: i64) -> bool
    ensures { result ≡ is_quiet along across }
{
    let along = u128::from(along.unsigned_abs());
    let across = u128::from(across.unsigned_abs());
    along * along + across * across <= QUIET_SQUARES
}

/// A change of speed in whole km/h, rounded half away from zero.
pub fn kmh(change: i64) -> i64
    ensures { result ≡ kmh_of change }
{
    let size = ((change.unsigned_abs() + STEPS_OF_KMH / 2) / STEPS_OF_KMH) as i64;
    if change < 0 { -size } else { size }
}
