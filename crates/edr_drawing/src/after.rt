//! The chart of the time after time zero: changes of speed, and on the same time axis what happened when.

ghost use Rattle.std.specs.Prelude.{◌≡◌, ◌++◌, ◌≤◌, ◌<◌, ◌+◌, ◌-◌, ◌*◌, ◌/◌, OnOk, length};
ghost use Rattle.edr_record.specs.declared.TheConstants.{POINTS};
ghost use Rattle.edr_drawing.specs.{Scales.IsScale, Template.filling_bytes};
ghost use Rattle.edr_drawing.specs.After.{axis_shapes, changes_chart, curve, end_line, legend_gaps, level, levels, maximum, shape_at, time_lines, after_chart, chart_row, row_time, chart_rows, row_words};

use crate::scales::{
    AXIS_DIGITS, AXIS_NAMES, BELOW_TOP, CarAxis, HEIGHT, NO_SAMPLE, RIGHT, Scale, extreme_of,
    greatest, is_silent, missing_of, of_axis, points_of,
};
use crate::tables::slot_at;
use crate::template::Filling::{Change, Count, Milliseconds, Number, Text};
use crate::template::{
    Drawn, Filling, MINUS, NONE, PATH, PATH_END, RADII, Shape, draw, either, fill, fill_if, put,
};
use edr_record::{Crash, Extreme, POINT_STEP, window_from_end};

/// The field past the window.
pub const PAST_WINDOW: &[u8] = br#"<rect x="{0}" y="40" width="{1}" height="450" class="gap"/>
"#;

/// The lines of time zero in both parts of the chart, with its number.
pub const ZERO_LINES: &[u8] = br#"<path class="zero" d="M330 40L330 490"/>
<path class="zero" d="M330 536L330 932"/>
<text x="330" y="522" class="c b">0</text>
"#;

/// The lines of a later time.
pub const TIME_LINES: &[u8] = br#"<path class="grid" d="M{0} 40L{0} 490"/>
<path class="grid" d="M{0} 536L{0} 932"/>
<text x="{0}" y="522" class="c">{1}</text>
"#;

/// How far apart these times are, in milliseconds.
pub const TIMES_APART: u32 = 50;

/// The names of the axes, which way is plus, and the marks.
pub const LEGEND: &[u8] = br#"<text x="0" y="522" class="">Time, ms</text>
<text x="336" y="28" class="e b">time zero</text>
<text x="0" y="84" class="b">Delta-V</text>
<text x="0" y="114" class="">change of speed</text>
<text x="0" y="144" class="">since time zero</text>
<text x="0" y="174" class="">km/h</text>
<path class="s1" d="M0 221L70 221"/>
<circle cx="35" cy="221" r="9" class="p1"/>
<text x="84" y="230" class="n1">longitudinal</text>
<text x="0" y="258" class="s">plus: forward</text>
<path class="s2" d="M0 341L70 341"/>
<rect x="27" y="333" width="16" height="16" class="p2"/>
<text x="84" y="350" class="n2">lateral</text>
<text x="0" y="378" class="s">plus: driver's right</text>
<path class="d0" d="M35 450l15 15l-15 15l-15 -15z"/>
<text x="84" y="474" class="">its maximum</text>
"#;

/// What the legend says of an axis that lacks samples.
pub const LEGEND_GAPS: &[u8] = br#"<text x="0" y="{0}" class="s b">{1} of {2} ms</text>
<text x="0" y="{3}" class="s b">without sample</text>
"#;

/// Where its lines stand up for the axis along the car and for that across it.
pub const GAPS_Y: (u32, u32) = (286, 406);

pub const NEXT_LINE: u32 = 28;

/// What stands around the curve of an axis that lacks samples.
pub const GAPPED: (&[u8], &[u8]) = (b"<g class=\"q\">\n", b"</g>\n");

/// What stands in the place of the curve of an axis without any sample.
pub const SILENT_CURVE: &[u8] = br#"<text x="1816" y="{0}" class="e h n{1}">{2}: {3}</text>
"#;

/// How far below 0 they stand for the axis along the car, and how far above it for that across it.
pub const SILENT_FROM: (u32, u32) = (32, 12);

/// The line of a change of speed, with its number.
pub const LEVEL: &[u8] = br#"<path class="{0}" d="M330 {1}L1830 {1}"/>
<text x="316" y="{2}" class="e s">{3}{4}</text>
"#;

/// The class of the line at 0, and that of others.
pub const LEVEL_CLASSES: (&[u8], &[u8]) = (b"axis", b"grid");

/// The line at the end of the event, with its name, which stands left of the line far to the right.
pub const END_LINE: &[u8] = br#"<path class="end" d="M{0} 40L{0} 490"/>
<text x="{0}" y="28" class="{1}">end of event</text>
"#;

pub const CENTRED_OR_ENDING: (&[u8], &[u8]) = (b"c", b"e");

pub const FAR_RIGHT: u32 = 1_700;

pub const NOT_RECORDED: &[u8] = br#"<text x="{0}" y="478" class="c g h">not recorded</text>
"#;

/// How much room these words need.
pub const ROOM_NOT_RECORDED: u32 = 200;

/// The diamond at a greatest change, and how far above its middle it begins.
pub const DIAMOND: &[u8] = br#"<path class="d{0}" d="M{1} {2}l15 15l-15 15l-15 -15z"/>
"#;

pub const DIAMOND_UP: u32 = 15;

/// The number of a greatest change: that across stands above its diamond, that along below it.
pub const MAXIMUM_NUMBER: &[u8] = br#"<text x="{0}" y="{1}" class="c h n{2}">{3}</text>
"#;

pub const NUMBER_FROM: (u32, u32) = (42, 22);

// Draws the line of each time.
#[tactic(auto, unfolding(crate::specs::After::time_lines))]
fn draw_times(out: &mut Vec<u8>, scale: &Scale) -> Drawn
    requires { (300 ≤ scale.now.span) × (scale.now.span ≤ 500) }
    ensures { OnOk result (out.new.items ≡ out.old.items ++ time_lines scale.now) }
{
    put(out, ZERO_LINES)?;
    for i in 0..scale.span / TIMES_APART {
        let time = TIMES_APART * (i + 1);
        let x = Number(scale.x(time as u16));
        fill(out, TIME_LINES, &[x, Number(time)])?;
    }
    Ok(())
}

// Draws a line at each step of a change of speed, with its number.
#[tactic(auto, using(crate::proofs::ListLemmas::counted_more), unfolding(crate::specs::After::levels, crate::specs::After::level))]
fn draw_levels(out: &mut Vec<u8>, scale: &Scale) -> Drawn
    requires { IsScale scale.now }
    ensures { OnOk result (out.new.items ≡ out.old.items ++ levels scale.now) }
{
    let (top, bottom) = (scale.top, scale.bottom);
    for i in 0..(top + bottom) / scale.step + 1 {
        let above = scale.step * i;
        let y = BELOW_TOP + (top + bottom).saturating_sub(above) * HEIGHT / (top + bottom);
        let class = Text(either(above == bottom, LEVEL_CLASSES));
        let (sign, number) = (Text(either(above < bottom, MINUS)), above.abs_diff(bottom));
        let parts = [class, Number(y), Number(y + 9), sign, Number(number)];
        fill(out, LEVEL, &parts)?;
    }
    Ok(())
}

// Draws the line at the end of the event, and says where nothing is recorded past the window.
#[tactic(auto, unfolding(crate::specs::After::end_line))]
fn draw_end(out: &mut Vec<u8>, end: u32, past: u32) -> Drawn
    requires { past ≤ 1_000_000 }
    ensures { OnOk result (out.new.items ≡ out.old.items ++ end_line end past) }
{
    let class = Text(either(end < FAR_RIGHT, CENTRED_OR_ENDING));
    let has_room = past + ROOM_NOT_RECORDED <= RIGHT;
    fill(out, END_LINE, &[Number(end), class])?;
    fill_if(out, has_room, NOT_RECORDED, &[Number((past + RIGHT) / 2)])
}

// Says in the legend how many samples of an axis are lacking, if any is.
fn draw_legend_gaps(out: &mut Vec<u8>, crash: &Crash, axis: CarAxis) -> Drawn
    ensures { OnOk result (out.new.items ≡ out.old.items ++ legend_gaps crash.now axis) }
{
    let missing = u32::from(missing_of(crash, axis));
    let window = u32::from(window_from_end(crash.end));
    let y = of_axis(axis, GAPS_Y);
    let (first, next) = (Number(y), Number(y + NEXT_LINE));
    let parts = [first, Number(missing), Number(window), next];
    fill_if(out, 0 < missing, LEGEND_GAPS, &parts)
}

// The mark of this axis at a point, or else a joint of a path.
fn shape_at(mark: Option<CarAxis>, is_joined: bool, x: u32, y: u32) -> Shape
    ensures { result ≡ shape_at mark is_joined x y }
{
    match mark {
        None => Shape::Joint(is_joined, x, y),
        Some(CarAxis::Along) => Shape::Dot(x, y, RADII.0),
        Some(CarAxis::Across) => Shape::Square(x, y),
    }
}

// Draws these marks or joints at the points of an axis, one at each 10 ms.
fn draw_points(out: &mut Vec<u8>, scale: &Scale, mark: Option<CarAxis>, points: &[i16]) -> Drawn
    requires scale { IsScale scale.now }
    requires count { length points.now ≤ POINTS }
    ensures { OnOk result (out.new.items ≡ out.old.items ++ axis_shapes scale.now mark 0 points.now) }
{
    for i in 0..points.len() {
        let x = scale.x(POINT_STEP * i as u16);
        draw(out, &[shape_at(mark, i > 0, x, scale.y(points[i]))])?;
    }
    Ok(())
}

// Draws the curve of an axis, with a mark at each point, or says that it has no sample.
#[tactic(auto, unfolding(crate::specs::After::curve, crate::specs::After::drawn_curve))]
fn draw_curve(out: &mut Vec<u8>, scale: &Scale, crash: &Crash, axis: CarAxis) -> Drawn
    requires { IsScale scale.now }
    ensures { OnOk result (out.new.items ≡ out.old.items ++ curve scale.now crash.now axis) }
{
    let digit = Number(of_axis(axis, AXIS_DIGITS));
    if is_silent(crash, axis) {
        let zero = scale.y(0);
        let y = Number(of_axis(axis, (zero + SILENT_FROM.0, zero - SILENT_FROM.1)));
        let name = Text(of_axis(axis, AXIS_NAMES));
        return fill(out, SILENT_CURVE, &[y, digit, name, Text(NO_SAMPLE)]);
    }
    let points = points_of(crash, axis);
    let is_gapped = 0 < missing_of(crash, axis);
    fill_if(out, is_gapped, GAPPED.0, &[])?;
    fill(out, PATH, &[digit])?;
    draw_points(out, scale, None, points)?;
    put(out, PATH_END)?;
    draw_points(out, scale, Some(axis), points)?;
    fill_if(out, is_gapped, GAPPED.1, &[])
}

// Draws a diamond at the greatest change of an axis, unless it has no sample, with its number, unless that is 0.
#[tactic(auto, unfolding(crate::specs::After::maximum))]
fn draw_maximum(out: &mut Vec<u8>, scale: &Scale, crash: &Crash, axis: CarAxis) -> Drawn
    requires { IsScale scale.now }
    ensures { OnOk result (out.new.items ≡ out.old.items ++ maximum scale.now crash.now axis) }
{
    if is_silent(crash, axis) {
        return Ok(());
    }
    let Extreme { at, kmh } = extreme_of(crash, axis);
    let digit = Number(of_axis(axis, AXIS_DIGITS));
    let (x, y) = (Number(scale.x(at)), scale.y(kmh));
    let number_y = Number(of_axis(axis, (y + NUMBER_FROM.0, y - NUMBER_FROM.1)));
    fill(out, DIAMOND, &[digit, x, Number(y - DIAMOND_UP)])?;
    fill_if(
        out,
        kmh != 0,
        MAXIMUM_NUMBER,
        &[x, number_y, digit, Change(kmh)],
    )
}

/// Draws the part of the chart that shows changes of speed.
#[tactic(auto, unfolding(crate::specs::After::changes_chart))]
pub fn draw_changes(out: &mut Vec<u8>, scale: &Scale, crash: &Crash) -> Drawn
    requires { IsScale scale.now }
    ensures { OnOk result (out.new.items ≡ out.old.items ++ changes_chart scale.now crash.now) }
{
    let window = window_from_end(crash.end);
    let past = scale.x(window);
    let gap = [Number(past), Number(RIGHT.saturating_sub(past))];
    fill_if(out, u32::from(window) < scale.span, PAST_WINDOW, &gap)?;
    draw_times(out, scale)?;
    put(out, LEGEND)?;
    draw_legend_gaps(out, crash, CarAxis::Along)?;
    draw_legend_gaps(out, crash, CarAxis::Across)?;
    draw_levels(out, scale)?;
    draw_end(out, scale.x(crash.end), past)?;
    draw_curve(out, scale, crash, CarAxis::Across)?;
    draw_curve(out, scale, crash, CarAxis::Along)?;
    draw_maximum(out, scale, crash, CarAxis::Across)?;
    draw_maximum(out, scale, crash, CarAxis::Along)
}

/// The title, the description and the plot.
pub const AFTER_HEAD: &[u8] =
    br#"<svg viewBox="0 0 1860 950" role="img" aria-labelledby="c{0}t c{0}d">
<title id="c{0}t">Event {0}, after time zero: change of speed and deployments</title>
<desc id="c{0}d">Delta-V longitudinal and lateral at each 10 ms. Greatest longitudinal {1}, greatest lateral {2}, end of event {3} ms. Below, on the same time axis, the deployments. The table of all elements has the values.</desc>
<rect x="330" y="40" width="1500" height="450" class="plot"/>
"#;

/// What stands in the place of the chart where nothing after time zero is recorded.
pub const WITHOUT_PART: &[u8] = br#"<svg viewBox="0 0 1860 180" role="img" aria-labelledby="c{0}t">
<title id="c{0}t">Event {0}, after time zero: not recorded, so what fired then isn't known</title>
<rect x="330" y="10" width="1500" height="160" class="gap"/>
<text x="0" y="98" class="b">Delta-V, restraints</text>
<text x="1050" y="82" class="c m">not recorded</text>
<text x="1050" y="126" class="c">The record has no part after time zero: what fired then isn't known.</text>
</svg>
"#;

/// A line across all of the chart.
pub const RULE: &[u8] = br#"<path class="part" d="M0 {0}L1830 {0}"/>
"#;

pub const CHART_END: &[u8] = br#"<path class="part" d="M0 932L1830 932"/>
</svg>
"#;

/// The row of something at a time: its name, a flag, and words beside it.
pub const ROW: &[u8] = br#"<text x="0" y="{0}" class="{7}">{1}</text>
<path class="flag" d="M{3} {4}l-13 -22l26 0z"/>
<text x="{5}" y="{0}" class="h{6}{8}">{2}</text>
"#;

/// The row of what isn't there, with words that say so.
pub const EMPTY_ROW: &[u8] = br#"<text x="0" y="{0}" class="g">{1}</text>
<text x="352" y="{0}" class="g">{2}</text>
"#;

/// The classes of the name and of the words, which for a restraint are bold.
pub const NAME_CLASSES: (&[u8], &[u8]) = (b"", b"b");

pub const WORDS_CLASSES: (&[u8], &[u8]) = (b"", b" b");

/// Words stand right of a flag, and left of one far to the right, where their class says that they end there.
pub const BESIDE_CLASSES: (&[u8], &[u8]) = (b"", b" e");

pub const FLAG_FAR_RIGHT: u32 = 1_200;

pub const BESIDE_FLAG: u32 = 22;

/// How far below the top of a row its words and the foot of its flag stand.
pub const WORDS_DOWN: u32 = 25;

pub const FLAG_DOWN: u32 = 28;

/// What a row shows: its time, or words that there is none.
#[derive(Clone, Copy)]
pub enum ChartRow {
    End,
    /// The greatest change of an axis.
    Greatest(CarAxis),
    Resultant,
    /// The restraint in this place of a record.
    Fired(u32),
}

/// The rows, each with its name.
pub const ROWS: [(&[u8], ChartRow); 12] = [
    (b"End of event", ChartRow::End),
    (b"Max. longitudinal", ChartRow::Greatest(CarAxis::Along)),
    (b"Max. lateral", ChartRow::Greatest(CarAxis::Across)),
    (b"Max. resultant", ChartRow::Resultant),
    (b"Driver frontal", ChartRow::Fired(0)),
    (b"Passenger frontal", ChartRow::Fired(1)),
    (b"Driver side", ChartRow::Fired(2)),
    (b"Passenger side", ChartRow::Fired(3)),
    (b"Driver curtain", ChartRow::Fired(4)),
    (b"Passenger curtain", ChartRow::Fired(5)),
    (b"Driver pretensioner", ChartRow::Fired(6)),
    (b"Passenger pretensioner", ChartRow::Fired(7)),
];

/// The top of the first row, how far the next one is below it, and which is the first one of a restraint.
pub const ROWS_Y: u32 = 536;

pub const ROW_HEIGHT: u32 = 33;

pub const FIRST_RESTRAINT: u32 = 4;

// When that was which a row shows, if it was.
fn time_of(crash: &Crash, row: ChartRow) -> Option<u16>
    ensures { result ≡ row_time crash.now row }
{
    match row {
        ChartRow::End => Some(crash.end),
        ChartRow::Greatest(axis) if is_silent(crash, axis) => None,
        ChartRow::Greatest(axis) => Some(extreme_of(crash, axis).at),
        ChartRow::Resultant
            if is_silent(crash, CarAxis::Along) && is_silent(crash, CarAxis::Across) => None,
        ChartRow::Resultant => Some(crash.result_at),
        ChartRow::Fired(place) => slot_at(&crash.fired, place),
    }
}

// The words beside its flag, or those that it isn't there.
fn words_of(crash: &Crash, row: ChartRow) -> Filling<'static>
    ensures { filling_bytes result ≡ row_words crash.now row }
{
    let none = match row {
        ChartRow::Greatest(axis) => return greatest(crash, axis),
        ChartRow::Fired(_) => NONE,
        ChartRow::End | ChartRow::Resultant => NO_SAMPLE,
    };
    match time_of(crash, row) {
        Some(time) => Milliseconds(time),
        None => Text(none),
    }
}

// Draws these rows, the first one of each part after a line.
#[tactic(auto, unfolding(crate::specs::After::chart_row))]
fn draw_rows(
    out: &mut Vec<u8>,
    scale: &Scale,
    crash: &Crash,
    rows: &[(&'static [u8], ChartRow); 12],
) -> Drawn
    requires { 300 ≤ scale.now.span }
    ensures { OnOk result (out.new.items ≡ out.old.items ++ chart_rows (λ l. l.0.now) (λ l. l.1) scale.now crash.now 0 rows.now) }
{
    for i in 0..12 {
        let (k, (name, row)) = (i as u32, rows[i]);
        let y = ROWS_Y + ROW_HEIGHT * k;
        fill_if(out, k == 0 || k == FIRST_RESTRAINT, RULE, &[Number(y)])?;
        let (words_y, name, words) = (Number(y + WORDS_DOWN), Text(name), words_of(crash, row));
        let Some(time) = time_of(crash, row) else {
            fill(out, EMPTY_ROW, &[words_y, name, words])?;
            continue;
        };
        let x = scale.x(time);
        let beside = if x < FLAG_FAR_RIGHT {
            x + BESIDE_FLAG
        } else {
            x - BESIDE_FLAG
        };
        let parts = [
            words_y,
            name,
            words,
            Number(x),
            Number(y + FLAG_DOWN),
            Number(beside),
            Text(either(x < FLAG_FAR_RIGHT, BESIDE_CLASSES)),
            Text(either(k < FIRST_RESTRAINT, NAME_CLASSES)),
            Text(either(k < FIRST_RESTRAINT, WORDS_CLASSES)),
        ];
        fill(out, ROW, &parts)?;
    }
    Ok(())
}

/// Draws the chart of the event with this number.
#[tactic(auto, unfolding(crate::specs::After::after_chart))]
pub fn draw_after(out: &mut Vec<u8>, number: u64, crash: &Option<Crash>) -> Drawn
    ensures { OnOk result (out.new.items ≡ out.old.items ++ after_chart number crash.now) }
{
    let Some(crash) = crash else {
        return fill(out, WITHOUT_PART, &[Count(number)]);
    };
    let scale = Scale::of(crash);
    let along = greatest(crash, CarAxis::Along);
    let across = greatest(crash, CarAxis::Across);
    let end = Number(u32::from(crash.end));
    fill(out, AFTER_HEAD, &[Count(number), along, across, end])?;
    draw_changes(out, &scale, crash)?;
    draw_rows(out, &scale, crash, &ROWS)?;
    put(out, CHART_END)
}
