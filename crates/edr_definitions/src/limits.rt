//! The limits of the definitions. Changes of speed are in steps of 0.0001 km/h.

/// How many steps are 1 km/h.
pub const STEPS_OF_KMH: u64 = 10_000;

/// A greater change of speed begins an event: 0.8 km/h.
pub const OVER: u64 = 8_000;

/// A change of speed of at least this size makes a candidate an event: 8 km/h, the trigger threshold.
pub const TRIGGER: u64 = 80_000;

/// The greatest sum of the squares of two changes of speed that are quiet: their resultant is at most 0.8 km/h.
pub const QUIET_SQUARES: u128 = 64_000_000;

/// Within this many ticks a change along of more than [`OVER`] begins an event.
pub const ALONG_TICKS: usize = 20;

/// Within this many ticks a change across of more than [`OVER`] begins one.
pub const ACROSS_TICKS: usize = 5;

/// Within this many ticks a change of at least [`TRIGGER`] makes a candidate an event.
pub const TRIGGER_TICKS: usize = 150;

/// Over this many ticks the changes are quiet that end an event.
pub const QUIET_TICKS: usize = 20;

/// How much older than the tick of its slot a sample may be, in ticks.
pub const LONGEST_AGE: u32 = 100;
