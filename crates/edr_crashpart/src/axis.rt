ghost use Rattle.std.specs.Prelude.{◌≡◌, ◌*◌, ◌+◌, ◌≤◌, ◌+ℤ◌, pos, unsigned_abs, unwrap_or};
ghost use Rattle.edr_items.specs.declared.TheConstants.{GREATEST_ACCELERATION};
ghost use Rattle.edr_record.specs.declared.TheConstants.{RESET};
ghost use Rattle.edr_definitions.specs.Parts.{kmh_of};
ghost use Rattle.edr_definitions.specs.OpenCrash.{begin_axis, next_axis, next_points, higher};
ghost use Rattle.edr_crashpart.specs.Bounds.{IsInRange};
ghost use Rattle.edr_crashpart.specs.Fields.{axis_of, peak_of};

use edr_record::{Extreme, LAST_POINT, LONGEST_WINDOW, POINT_STEP, POINTS};
use edr_units::kmh;

// A change of speed since time zero, and its time from there.
#[derive(Clone, Copy)]
pub struct Peak {
    pub value: i64,
    pub at: u16,
}

// One axis of an open crash part. Changes of speed are in steps of 0.0001 km/h, points in km/h.
#[derive(Clone, Copy)]
pub struct Axis {
    // The change since time zero.
    pub sum: i64,
    pub points: [i16; POINTS],
    // The change of the greatest size, and its first time.
    pub peak: Peak,
    // How many ticks had no sample.
    pub missing: u16,
}

// A change of speed in whole km/h.
fn whole_kmh(change: i64) -> i16
    requires { unsigned_abs change ≤ 30_000_000 }
    ensures { result ≡ kmh_of change }
{
    kmh(change) as i16
}

// The change with one sample more, `at` ticks after time zero.
fn next_sum(sum: i64, sample: Option<i32>, at: u16) -> i64
    requires sum { unsigned_abs sum + GREATEST_ACCELERATION ≤ GREATEST_ACCELERATION * at }
    requires sample { IsInRange sample }
    ensures value { result ≡ sum +ℤ unwrap_or sample (pos 0) }
    ensures size { unsigned_abs result ≤ GREATEST_ACCELERATION * at }
{
    sum + i64::from(sample.unwrap_or(0))
}

// Notes the change at each tenth tick up to 250 ms.
fn note_point(points: &mut [i16; POINTS], sum: i64, at: u16)
    requires { unsigned_abs sum ≤ GREATEST_ACCELERATION * at }
    ensures { points.new ≡ next_points points.old sum at }
{
    if at % POINT_STEP == 0 && at <= LAST_POINT {
        points[usize::from(at / POINT_STEP)] = whole_kmh(sum);
    }
}

impl Peak {
    // This peak, or the change where its size is greater.
    fn or_higher(self, sum: i64, at: u16) -> Peak
        ensures { peak_of result ≡ higher (peak_of self) sum at }
    {
        if sum.unsigned_abs() > self.value.unsigned_abs() {
            Peak { value: sum, at }
        } else {
            self
        }
    }
}

impl Axis {
    // The axis at time zero.
    pub fn begin() -> Axis
        ensures { axis_of result ≡ begin_axis }
    {
        Axis {
            sum: 0,
            points: [0; POINTS],
            peak: Peak { value: 0, at: 0 },
            missing: 0,
        }
    }

    // One tick more, `at` ticks after time zero.
    pub fn tick(&mut self, sample: Option<i32>, at: u16)
        requires sum { unsigned_abs self.old.sum + GREATEST_ACCELERATION ≤ GREATEST_ACCELERATION * at }
        requires at { at ≤ RESET }
        requires sample { IsInRange sample }
        requires missing { self.old.missing ≤ RESET }
        ensures axis { axis_of self.new ≡ next_axis (axis_of self.old) sample at }
        ensures size { unsigned_abs self.new.sum ≤ GREATEST_ACCELERATION * at }
    {
        let sum = next_sum(self.sum, sample, at);
        self.sum = sum;
        note_point(&mut self.points, sum, at);
        if at <= LONGEST_WINDOW {
            self.peak = self.peak.or_higher(sum, at);
            self.missing += u16::from(sample.is_none());
        }
    }

    // The greatest change in whole km/h.
    pub fn extreme(&self) -> Extreme
        requires { unsigned_abs self.now.peak.value ≤ 30_000_000 }
        ensures { result ≡ record { kmh = kmh_of self.now.peak.value; at = self.now.peak.at } }
    {
        Extreme {
            kmh: whole_kmh(self.peak.value),
            at: self.peak.at,
        }
    }
}
