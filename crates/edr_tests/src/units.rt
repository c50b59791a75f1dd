//! The thresholds, and whole km/h.

use edr_units::{kmh, over, quiet, trigger};

// At the thresholds, a step to either side, in both directions.
#[test]
fn thresholds_hold_at_their_edges(rt: HostRuntime) {
    for (change, is_over, triggers) in [
        (0, false, false),
        (8_000, false, false),
        (-8_000, false, false),
        (8_001, true, false),
        (-8_001, true, false),
        (79_999, true, false),
        (-79_999, true, false),
        (80_000, true, true),
        (-80_000, true, true),
        (-1_000_000_000, true, true),
    ] {
        assert_eq!(rt; over(change), is_over, "at {change}");
        assert_eq!(rt; trigger(change), triggers, "at {change}");
    }
}

// The sums of the squares are 64,000,000, one more, and more than a u32 holds.
#[test]
fn quiet_is_a_resultant_of_at_most_8000(rt: HostRuntime) {
    for (along, across, is_quiet) in [
        (8_000, 0, true),
        (0, -8_000, true),
        (-4_800, 6_400, true),
        (8_000, 1, false),
        (-1, 8_000, false),
        (4_800, -6_401, false),
        (1_000_000_000, -1_000_000_000, false),
    ] {
        assert_eq!(rt; quiet(along, across), is_quiet, "at {along}, {across}");
    }
}

#[test]
fn kmh_rounds_half_away_from_zero(rt: HostRuntime) {
    for (change, whole) in [
        (0, 0),
        (4_999, 0),
        (5_000, 1),
        (14_999, 1),
        (15_000, 2),
        (-4_999, 0),
        (-5_000, -1),
        (-14_999, -1),
        (-15_000, -2),
        (1_000_000_000, 100_000),
        (-1_000_000_000, -100_000),
    ] {
        assert_eq!(rt; kmh(change), whole, "at {change}");
    }
}
