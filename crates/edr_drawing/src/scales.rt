//! What a crash part has of an axis of the car, and where values stand in a chart.

ghost use Rattle.std.specs.{Prelude.{◌≡◌, ◌≤◌, ◌<◌, ◌+◌, ◌*◌, ◌-◌, All, length, max, unsigned_abs}, List.list_all};
ghost use Rattle.edr_record.specs.declared.TheConstants.{LONG_SLOTS, POINTS};
ghost use Rattle.edr_drawing.specs.{Template.filling_bytes, Scales.{extreme_of, greatest_words, is_silent, missing_of, of_axis, points_of, slot_x, least_step, reach_of, IsScale, furthest, reach, is_early, span_of, scale_of, change_y, time_x}};

use crate::template::Filling;
use edr_record::{Crash, Extreme, POINTS, Profile, point_count, window_from_end};

/// What stands in the place of what an axis without any sample would show.
pub const NO_SAMPLE: &[u8] = b"no sample";

/// The names of the axes, and the digits that their classes end with.
pub const AXIS_NAMES: (&[u8], &[u8]) = (b"longitudinal", b"lateral");

pub const AXIS_DIGITS: (u32, u32) = (1, 2);

/// An axis of a car.
#[derive(Clone, Copy)]
pub enum CarAxis {
    Along,
    Across,
}

/// The first of two for the axis along the car, the second for that across it.
pub fn of_axis<T: Copy>(axis: CarAxis, pair: (T, T)) -> T
    ensures { result ≡ of_axis axis pair.0 pair.1 }
{
    match axis {
        CarAxis::Along => pair.0,
        CarAxis::Across => pair.1,
    }
}

/// The points of an axis that the end of the event allows.
pub fn points_of(crash: &Crash, axis: CarAxis) -> &[i16]
    ensures points { result.now ≡ points_of crash.now axis }
    ensures count { length result.now ≤ POINTS }
{
    let count = point_count(crash.end);
    match axis {
        CarAxis::Along => &crash.along[..count],
        CarAxis::Across => &crash.across[..count],
    }
}

/// The greatest change of speed of an axis.
pub fn extreme_of(crash: &Crash, axis: CarAxis) -> Extreme
    ensures { result ≡ extreme_of crash.now axis }
{
    of_axis(axis, (crash.max_along, crash.max_across))
}

/// How many milliseconds of its window have no sample of an axis.
pub fn missing_of(crash: &Crash, axis: CarAxis) -> u16
    ensures { result ≡ missing_of crash.now axis }
{
    of_axis(axis, (crash.missing_along, crash.missing_across))
}

/// Whether an axis has no sample at all.
pub fn is_silent(crash: &Crash, axis: CarAxis) -> bool
    ensures { result ≡ is_silent crash.now axis }
{
    window_from_end(crash.end) <= missing_of(crash, axis)
}

/// The greatest change of an axis with its time, or that there is no sample.
pub fn greatest(crash: &Crash, axis: CarAxis) -> Filling<'static>
    ensures { filling_bytes result ≡ greatest_words crash.now axis }
{
    if is_silent(crash, axis) {
        Filling::Text(NO_SAMPLE)
    } else {
        Filling::Extreme(extreme_of(crash, axis))
    }
}

/// The left end of a plot, its width, and its right end.
pub const LEFT: u32 = 330;

pub const WIDTH: u32 = 1_500;

pub const RIGHT: u32 = LEFT + WIDTH;

/// The top of the plot of changes of speed, and its height.
pub const BELOW_TOP: u32 = 80;

pub const HEIGHT: u32 = 370;

/// Where the first of eleven times stands across, and how far the next one stands from it: the slots of a short profile
/// have the same places.
pub const FIRST_TIME: u32 = 400;

pub const TIME_STEP: u32 = 136;

/// How many slots of a long profile there are from one time to the next.
pub const TIME_SLOTS: u32 = 20;

/// From 0, the way of gains and that of losses of speed.
#[derive(Clone, Copy)]
pub enum Direction {
    Up,
    Down,
}

/// Where a slot stands across, the newest of which is at time zero.
pub fn slot_x(profile: Profile, k: u32) -> u32
    requires { k < LONG_SLOTS }
    ensures place { result ≡ slot_x profile k }
    ensures range { (400 ≤ result) × (result ≤ 30_000) }
{
    match profile {
        Profile::Short => FIRST_TIME + TIME_STEP * k,
        Profile::Long => FIRST_TIME + TIME_STEP * k / TIME_SLOTS,
    }
}

/// The least of these steps with which both parts of a scale have at most `most` intervals, or else the last one.
pub fn least_step(steps: &[u32], most: u32, up: u32, down: u32) -> u32
    requires steps { All (λ s. (1 ≤ s) × (s ≤ 1_000)) steps.now }
    requires range { (up ≤ 100_000) × (down ≤ 100_000) }
    ensures step { result ≡ least_step 1 steps.now most up down }
    ensures range { (1 ≤ result) × (result ≤ 1_000) }
{
    let mut last = 1;
    for step in steps {
        if up.div_ceil(*step) + down.div_ceil(*step) <= most {
            return *step;
        }
        last = *step;
    }
    last
}

/// How far a change of speed is from 0 that way.
pub fn reach_of(way: Direction, change: i16) -> u32
    ensures reach { result ≡ reach_of way change }
    ensures range { result ≤ 32_768 }
{
    let that_way = match way {
        Direction::Up => change.max(0),
        Direction::Down => change.min(0),
    };
    u32::from(that_way.unsigned_abs())
}

/// The steps in km/h that the lines of a scale may have, of which both parts have at most [`CHANGE_LINES`].
pub const CHANGE_STEPS: [u32; 8] = [5, 10, 20, 50, 100, 200, 500, 1_000];

pub const CHANGE_LINES: u32 = 8;

/// The last time across, in milliseconds, where nothing is later. Otherwise it is [`WHOLE_SPAN`].
pub const EARLY_SPAN: u16 = 300;

pub const WHOLE_SPAN: u16 = 500;

/// A scale: the greatest change of speed above 0 and below it, the step between lines, and the last time across, in
/// milliseconds.
#[derive(Clone, Copy)]
pub struct Scale {
    pub top: u32,
    pub bottom: u32,
    pub step: u32,
    pub span: u32,
}

// How far these points reach that way.
fn furthest(way: Direction, points: &[i16; POINTS]) -> u32
    ensures reach { result ≡ furthest way points.now }
    ensures range { result ≤ 32_768 }
{
    let mut most = 0;
    for point in points {
        most = reach_of(way, *point).max(most);
    }
    most
}

fn reach(way: Direction, crash: &Crash) -> u32
    ensures reach { result ≡ reach way crash.now }
    ensures range { result ≤ 32_768 }
{
    furthest(way, &crash.along)
        .max(furthest(way, &crash.across))
        .max(reach_of(way, crash.max_along.kmh))
        .max(reach_of(way, crash.max_across.kmh))
}

fn are_early(fired: &[Option<u16>; 8]) -> bool
    ensures { result ≡ list_all is_early fired.now }
{
    fired.iter().all(|fired| fired.unwrap_or(0) <= EARLY_SPAN)
}

// The last time across.
fn span_of(crash: &Crash) -> u32
    ensures span { result ≡ span_of crash.now }
    ensures range { (300 ≤ result) × (result ≤ 500) }
{
    if crash.end <= EARLY_SPAN && are_early(&crash.fired) {
        u32::from(EARLY_SPAN)
    } else {
        u32::from(WHOLE_SPAN)
    }
}

impl Scale {
    /// The scale of a crash part.
    pub fn of(crash: &Crash) -> Scale
        ensures scale { result ≡ scale_of crash.now }
        ensures within { IsScale result }
    {
        let up = reach(Direction::Up, crash);
        let down = reach(Direction::Down, crash);
        let step = least_step(&CHANGE_STEPS, CHANGE_LINES, up, down);
        let flat = up == 0 && down == 0;
        Scale {
            top: if flat {
                step
            } else {
                up.next_multiple_of(step)
            },
            bottom: if flat {
                step
            } else {
                down.next_multiple_of(step)
            },
            step,
            span: span_of(crash),
        }
    }

    /// Where a change of speed stands up.
    pub fn y(&self, change: i16) -> u32
        requires { IsScale self.now }
        ensures place { result ≡ change_y self.now change }
        ensures range { (80 ≤ result) × (result ≤ 40_000_000) }
    {
        let size = u32::from(change.unsigned_abs());
        let below_top = if change < 0 {
            self.top + size
        } else {
            self.top.saturating_sub(size)
        };
        BELOW_TOP + below_top * HEIGHT / (self.top + self.bottom)
    }

    /// Where a time stands across.
    pub fn x(&self, time: u16) -> u32
        requires { 300 ≤ self.now.span }
        ensures place { result ≡ time_x self.now time }
        ensures range { (330 ≤ result) × (result ≤ 1_000_000) }
    {
        LEFT + u32::from(time) * (WIDTH / self.span)
    }
}
