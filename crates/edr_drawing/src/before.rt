//! The chart of the seconds before time zero, five of a short profile and twenty of a long one: lanes of slots, each a path
//! through those that are there, their marks, and fields in the place of those that are absent.

ghost use Rattle.std.specs.Prelude.{◌≡◌, ◌++◌, ◌≤◌, ◌<◌, ◌+◌, ◌-◌, ◌*◌, ◌/◌, false, OnOk, length, None, take};
ghost use Rattle.edr_record.specs.{Bounds.slots_in, declared.TheConstants.LONG_SLOTS};
ghost use Rattle.edr_drawing.specs.{Template.{of_profile, shapes_bytes}, Before.{IsBand, IsChartLane, before_chart, brake_runs, cells, drawn_lane, grid, lane_y, marked, points, run_shapes, speed_lane, switch_moment, time_lines}};

use crate::scales::{AXIS_DIGITS, least_step, slot_x};
use crate::template::Filling::{Count, Number, Seconds, Text};
use crate::template::{
    Drawn, FIELD_CLASSES, PATH, PATH_END, RADII, SWITCH_WORDS, Shape, draw, fill, of_profile,
    of_switch, put,
};
use edr_record::{LONG_SLOTS, Pre, Profile};

/// The line of a value, with its number.
pub const GRID_LINE: &[u8] = br#"<path class="grid" d="M330 {0}L1830 {0}"/>
<text x="316" y="{1}" class="e s">{2}</text>
"#;

/// Of a short profile and of a long one: how many slots the field of a run has at most, how far it reaches past its first
/// one and its last one, and from how many on it has room for its word.
pub const LONGEST_RUNS: (u32, u32) = (1, LONG_SLOTS as u32);

pub const PAST_SLOTS: (u32, u32) = (50, 3);

pub const ROOM_FOR_WORD: (u32, u32) = (1, 10);

/// Where fields stand up, and how high they are.
#[derive(Clone, Copy)]
pub struct Band {
    pub y: u32,
    pub height: u32,
}

/// A lane: where the fields of absent slots stand, at whose foot its 0 stands, how far above that its top stands, which
/// value that is, and the step between its lines.
#[derive(Clone, Copy)]
pub struct ChartLane {
    pub gap: Band,
    pub rise: u32,
    pub top: u32,
    pub step: u32,
}

// Where a value stands up.
fn lane_y(lane: &ChartLane, value: u32) -> u32
    requires lane { IsChartLane lane.now }
    requires value { value ≤ 100_000 }
    ensures place { result ≡ lane_y lane.now value }
    ensures range { result ≤ 2_000 }
{
    let foot = lane.gap.y + lane.gap.height;
    foot.saturating_sub(value * lane.rise / lane.top)
}

// Draws a line at each step.
#[tactic(auto, using(crate::proofs::ListLemmas::counted_more))]
fn draw_grid(out: &mut Vec<u8>, lane: &ChartLane) -> Drawn
    requires { IsChartLane lane.now }
    ensures { OnOk result (out.new.items ≡ out.old.items ++ grid lane.now) }
{
    for i in 0..lane.top / lane.step + 1 {
        let value = lane.step * i;
        let y = lane_y(lane, value);
        fill(out, GRID_LINE, &[Number(y), Number(y + 9), Number(value)])?;
    }
    Ok(())
}

// Appends the points of the slots that are there, each joined to the slot before it where that is there too.
fn put_points(out: &mut Vec<u8>, profile: Profile, lane: &ChartLane, slots: &[Option<u16>]) -> Drawn
    requires lane { IsChartLane lane.now }
    requires slots { length slots.now ≤ LONG_SLOTS }
    ensures { OnOk result (out.new.items ≡ out.old.items ++ points profile lane.now 0 false slots.now) }
{
    let mut is_joined = false;
    for (k, slot) in slots.iter().enumerate() {
        if let Some(value) = slot {
            let x = slot_x(profile, k as u32);
            let y = lane_y(lane, u32::from(*value));
            draw(out, &[Shape::Joint(is_joined, x, y)])?;
        }
        is_joined = slot.is_some();
    }
    Ok(())
}

// Draws the mark of a slot, of a short profile with its number.
fn draw_mark(out: &mut Vec<u8>, profile: Profile, lane: &ChartLane, k: u32, value: u16) -> Drawn
    requires lane { IsChartLane lane.now }
    requires slot { k < LONG_SLOTS }
    ensures { OnOk result (out.new.items ≡ out.old.items ++ shapes_bytes (marked profile lane.now k value)) }
{
    let value = u32::from(value);
    let (x, y) = (slot_x(profile, k), lane_y(lane, value));
    let dot = Shape::Dot(x, y, of_profile(profile, RADII));
    match profile {
        Profile::Short => draw(out, &[dot, Shape::Value(x, y.saturating_sub(17), value)]),
        Profile::Long => draw(out, &[dot]),
    }
}

// Draws the field of so many slots from the first one on, if there are any.
fn draw_run(
    out: &mut Vec<u8>,
    profile: Profile,
    first: u32,
    count: u32,
    band: Band,
    shows: Option<bool>,
) -> Drawn
    requires run { first + count ≤ LONG_SLOTS }
    requires up { IsBand band }
    ensures { OnOk result (out.new.items ≡ out.old.items ++ shapes_bytes (run_shapes profile first count band shows)) }
{
    if count == 0 {
        return Ok(());
    }
    let Band { y, height } = band;
    let (x, to_x) = (slot_x(profile, first), slot_x(profile, first + count - 1));
    let past = of_profile(profile, PAST_SLOTS);
    let width = (to_x + 2 * past).saturating_sub(x);
    let field = Shape::Field(x - past, y, width, height, shows);
    if count < of_profile(profile, ROOM_FOR_WORD) {
        return draw(out, &[field]);
    }
    let word = Shape::Word((x + to_x) / 2, y + height / 2 + 9, shows);
    draw(out, &[field, word])
}

// Draws the marks of the slots, and a field for each run of absent ones.
fn draw_cells(out: &mut Vec<u8>, profile: Profile, lane: &ChartLane, slots: &[Option<u16>]) -> Drawn
    requires lane { IsChartLane lane.now }
    requires slots { length slots.now ≤ LONG_SLOTS }
    ensures { OnOk result (out.new.items ≡ out.old.items ++ cells profile lane.now 0 0 slots.now) }
{
    let longest = of_profile(profile, LONGEST_RUNS);
    let (mut first, mut absent) = (0, 0);
    for slot in slots {
        match *slot {
            None if absent < longest => absent += 1,
            None => {
                draw_run(out, profile, first, absent, lane.gap, None)?;
                (first, absent) = (first + absent, 1);
            }
            Some(value) => {
                draw_run(out, profile, first, absent, lane.gap, None)?;
                draw_mark(out, profile, lane, first + absent, value)?;
                (first, absent) = (first + absent + 1, 0);
            }
        }
    }
    draw_run(out, profile, first, absent, lane.gap, None)
}

// Draws the lane of these slots.
#[tactic(auto, unfolding(crate::specs::Before::drawn_lane))]
fn draw_lane(out: &mut Vec<u8>, profile: Profile, lane: &ChartLane, slots: &[Option<u16>]) -> Drawn
    requires lane { IsChartLane lane.now }
    requires slots { length slots.now ≤ slots_in profile }
    ensures { OnOk result (out.new.items ≡ out.old.items ++ drawn_lane profile lane.now slots.now) }
{
    draw_grid(out, lane)?;
    fill(out, PATH, &[Number(AXIS_DIGITS.0)])?;
    put_points(out, profile, lane, slots)?;
    put(out, PATH_END)?;
    draw_cells(out, profile, lane, slots)
}

/// The title, the description and the plot.
pub const BEFORE_HEAD: &[u8] =
    br#"<svg viewBox="0 0 1860 540" role="img" aria-labelledby="p{0}t p{0}d">
<title id="p{0}t">Event {0}, the {1} seconds before time zero</title>
<desc id="p{0}d">Speed, throttle and service brake at each {2}, driver belt and warning lamp one second before time zero. The table by time has the values of the first three, that of all elements belt and lamp.</desc>
<rect x="330" y="36" width="1500" height="454" class="plot"/>
"#;

/// How many seconds a short profile has and a long one, and how far apart their slots are.
pub const SPANS: (&[u8], &[u8]) = (b"five", b"twenty");

pub const SLOTS_APART: (&[u8], &[u8]) = (b"half second", b"tenth of a second");

/// How many lines of times there are before time zero, and how many tenths of a second the next one is from each.
pub const TIMES: u32 = 10;

pub const TENTHS_APART: (u32, u32) = (5, 20);

/// The line of a time, with how long before time zero it is.
pub const TIME_LINE: &[u8] = br#"<path class="grid" d="M{0} 36L{0} 490"/>
<text x="{0}" y="522" class="c">-{1}</text>
"#;

/// The line of time zero, and the names of the times and of speed.
pub const ZERO_LINE: &[u8] = br#"<path class="zero" d="M{0} 36L{0} 490"/>
<text x="{0}" y="522" class="c b">0.0</text>
<text x="0" y="522" class="">Time, s</text>
<text x="{0}" y="26" class="c b">time zero</text>
<text x="0" y="120" class="b">Speed</text>
<text x="0" y="152" class="">km/h</text>
"#;

/// The names of the other lanes.
pub const THROTTLE_NAME: &[u8] = br#"<path class="part" d="M0 236L1830 236"/>
<text x="0" y="290" class="b">Throttle</text>
<text x="0" y="322" class="">pedal, % of full</text>
"#;

pub const BRAKE_NAME: &[u8] = br#"<path class="part" d="M0 362L1830 362"/>
<text x="0" y="393" class="b">Service brake</text>
"#;

/// The name of a switch, and what it is 1 s before time zero: a mark, with the word left of it.
pub const MOMENT: &[u8] = br#"<text x="0" y="{6}"><tspan class="b">{7}</tspan> at -1.0 s</text>
<path class="{2}" d="M{0} {1}l11 15l-11 15l-11 -15z"/>
<text x="{3}" y="{4}" class="e h b">{5}</text>
"#;

/// The names of these switches, and where their marks begin.
pub const BELT: (&[u8], u32) = (b"Driver belt", 411);

pub const LAMP: (&[u8], u32) = (b"Air bag lamp", 453);

/// The slots of a short profile and of a long one that lie 1 s before time zero.
pub const SECOND_SLOTS: (u32, u32) = (8, 190);

pub const BEFORE_END: &[u8] = br#"<path class="part" d="M0 490L1830 490"/>
</svg>
"#;

/// The lane of speed, whose top and step the greatest speed gives.
pub const SPEED: ChartLane = ChartLane {
    gap: Band { y: 50, height: 170 },
    rise: 140,
    top: 1,
    step: 1,
};

/// The steps in km/h that its lines may have, at most [`SPEED_LINES`] of them.
pub const SPEED_STEPS: [u32; 4] = [10, 20, 50, 100];

pub const SPEED_LINES: u32 = 4;

pub const THROTTLE: ChartLane = ChartLane {
    gap: Band { y: 250, height: 96 },
    rise: 70,
    top: 100,
    step: 50,
};

/// Where the fields of the service brake stand.
pub const BRAKE_BAND: Band = Band { y: 367, height: 34 };

// The lane of speed, whose top is at least 1 km/h.
fn speed_lane(slots: &[Option<u16>]) -> ChartLane
    ensures lane { result ≡ speed_lane slots.now }
    ensures within { IsChartLane result }
{
    let most = slots
        .iter()
        .fold(0, |most: u16, slot| most.max(slot.unwrap_or(0)));
    let most = u32::from(most.max(1));
    let step = least_step(&SPEED_STEPS, SPEED_LINES, most, 0);
    ChartLane {
        top: most.next_multiple_of(step),
        step,
        ..SPEED
    }
}

// Draws the lines of the times.
#[tactic(auto, unfolding(crate::specs::Before::time_lines))]
fn draw_times(out: &mut Vec<u8>, profile: Profile) -> Drawn
    ensures { OnOk result (out.new.items ≡ out.old.items ++ time_lines profile TIMES) }
{
    for k in 0..TIMES {
        let x = Number(slot_x(Profile::Short, k));
        let tenths = of_profile(profile, TENTHS_APART) * (TIMES - k);
        fill(out, TIME_LINE, &[x, Seconds(u64::from(tenths))])?;
    }
    Ok(())
}

// The same slots as wider numbers, and absent ones after them.
fn wide_slots(slots: &[Option<u8>]) -> [Option<u16>; LONG_SLOTS]
    requires { length slots.now ≤ LONG_SLOTS }
    ensures { take (length slots.now) result ≡ slots.now }
{
    let mut wider = [None; LONG_SLOTS];
    for (k, slot) in slots.iter().enumerate() {
        wider[k] = slot.map(u16::from);
    }
    wider
}

// Draws a field for each run of slots of the service brake that are the same.
fn draw_brake(out: &mut Vec<u8>, profile: Profile, slots: &[Option<bool>]) -> Drawn
    requires { length slots.now ≤ slots_in profile }
    ensures { OnOk result (out.new.items ≡ out.old.items ++ brake_runs profile 0 0 None slots.now) }
{
    let longest = of_profile(profile, LONGEST_RUNS);
    let (mut first, mut count, mut shows) = (0, 0, None);
    for slot in slots {
        if *slot == shows && count < longest {
            count += 1;
        } else {
            draw_run(out, profile, first, count, BRAKE_BAND, shows)?;
            (first, count, shows) = (first + count, 1, *slot);
        }
    }
    draw_run(out, profile, first, count, BRAKE_BAND, shows)
}

// Draws the name of a switch, and what it is 1 s before time zero, which stands there across.
fn draw_moment(out: &mut Vec<u8>, x: u32, switch: (&[u8], u32), shows: Option<bool>) -> Drawn
    requires across { (400 ≤ x) × (x ≤ 30_000) }
    requires up { switch.1 ≤ 1_000 }
    ensures { OnOk result (out.new.items ≡ out.old.items ++ switch_moment x switch.entry.0.now switch.entry.1 shows) }
{
    let (name, y) = switch;
    let parts = [
        Number(x),
        Number(y),
        Text(of_switch(shows, FIELD_CLASSES)),
        Number(x - 18),
        Number(y + 25),
        Text(of_switch(shows, SWITCH_WORDS)),
        Number(y + 24),
        Text(name),
    ];
    fill(out, MOMENT, &parts)
}

/// Draws the chart of the event with this number.
#[tactic(auto, unfolding(crate::specs::Before::before_chart))]
pub fn draw_before(out: &mut Vec<u8>, number: u64, pre: &Pre) -> Drawn
    ensures { OnOk result (out.new.items ≡ out.old.items ++ before_chart number pre.now) }
{
    let (belt, lamp) = (pre.belt, pre.lamp);
    let (profile, speed) = (pre.profile(), pre.speed());
    let throttle = wide_slots(pre.throttle());
    let span = Text(of_profile(profile, SPANS));
    let apart = Text(of_profile(profile, SLOTS_APART));
    fill(out, BEFORE_HEAD, &[Count(number), span, apart])?;
    draw_times(out, profile)?;
    fill(out, ZERO_LINE, &[Number(slot_x(Profile::Short, TIMES))])?;
    draw_lane(out, profile, &speed_lane(speed), speed)?;
    put(out, THROTTLE_NAME)?;
    draw_lane(out, profile, &THROTTLE, &throttle[..pre.throttle().len()])?;
    put(out, BRAKE_NAME)?;
    draw_brake(out, profile, pre.brake())?;
    let second = slot_x(profile, of_profile(profile, SECOND_SLOTS));
    draw_moment(out, second, BELT, belt)?;
    draw_moment(out, second, LAMP, lamp)?;
    put(out, BEFORE_END)
}
