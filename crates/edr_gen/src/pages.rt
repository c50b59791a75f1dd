//! The rows of some ticks, as bytes in a place of their own.
ghost use Rattle.std.specs.Prelude.{◌≡◌, ◌+◌, ◌*◌, ◌≤◌, ◌<◌, ◌^◌, ◌++◌, ◌%◌, ◌==◌, ℕ, true, length};
ghost use Rattle.arrayvec.specs.ArrayString.{array_string_len};
ghost use Rattle.edr_text.specs.Numbers.{numeral};
ghost use Rattle.edr_gen.specs.Cycles.{crash_samples, restraint_samples, samples_after, samples_at, slow_samples};
ghost use Rattle.edr_gen.specs.Texts.{samples_text};

use crate::plan::{Plan, across_of, along_of};
use arrayvec::ArrayString;
use itoa::Buffer;

/// Room for the rows of many ticks.
pub(crate) const PAGE: usize = 65_536;

pub(crate) type Page = ArrayString<PAGE>;

/// As many bytes as the row that begins a cycle has.
pub(crate) const ON_ROOM: usize = 6;

/// As many bytes as the rows of one tick never exceed.
pub(crate) const TICK_ROOM: usize = 180;

/// As many ticks as always fit after the row that begins a cycle.
pub(crate) const TICKS_OF_PAGE: u32 = 360;

// A row in three pieces: its word, its moment, and what follows them.
fn push_row(page: &mut Page, word: &str, moment: &str, rest: &str)
    requires { array_string_len page.old + length word.now + length moment.now + length rest.now ≤ PAGE }
    ensures bytes { page.new.bytes ≡ page.old.bytes ++ (word.now ++ (moment.now ++ rest.now)) }
    ensures len { array_string_len page.new ≡ array_string_len page.old + length word.now + length moment.now + length rest.now }
{
    page.push_str(word);
    page.push_str(moment);
    page.push_str(rest);
}

// The rows of the acceleration sensors. Most often both are 0, which is written in fewer pieces.
fn push_crash(page: &mut Page, moment: &str, tick: u32, along: i32, across: i32)
    requires room { array_string_len page.old + 59 ≤ PAGE }
    requires short { length moment.now ≤ 10 }
    requires moment { moment.now ≡ numeral tick }
    ensures bytes { page.new.bytes ≡ page.old.bytes ++ samples_text (crash_samples along across tick) }
    ensures len { array_string_len page.new ≤ array_string_len page.old + 59 }
{
    if along == 0 && across == 0 {
        push_row(page, "along,", moment, ",0\n");
        push_row(page, "across,", moment, ",0\n");
        return;
    }
    let mut buffer = Buffer::new();
    push_row(page, "along,", moment, ",");
    page.push_str(buffer.format(along));
    push_row(page, "\nacross,", moment, ",");
    page.push_str(buffer.format(across));
    page.push_str("\n");
}

// The rows of the slow sensors, at every 100th tick.
fn push_slow(page: &mut Page, moment: &str, tick: u32)
    requires room { array_string_len page.old + 98 ≤ PAGE }
    requires short { length moment.now ≤ 10 }
    requires moment { moment.now ≡ numeral tick }
    ensures bytes { page.new.bytes ≡ page.old.bytes ++ samples_text (slow_samples (tick % 100 == 0) tick) }
    ensures len { array_string_len page.new ≤ array_string_len page.old + 98 }
{
    if tick % 100 == 0 {
        push_row(page, "speed,", moment, ",60\n");
        push_row(page, "throttle,", moment, ",20\n");
        push_row(page, "brake,", moment, ",0\n");
        push_row(page, "belt,", moment, ",1\n");
        push_row(page, "lamp,", moment, ",0\n");
    }
}

// The row of the restraints: a firing, or at every 1000th tick that there was none.
fn push_restraint(page: &mut Page, moment: &str, tick: u32, fires: bool)
    requires room { array_string_len page.old + 23 ≤ PAGE }
    requires short { length moment.now ≤ 10 }
    requires moment { moment.now ≡ numeral tick }
    ensures bytes { page.new.bytes ≡ page.old.bytes ++ samples_text (restraint_samples fires (tick % 1000 == 0) tick) }
    ensures len { array_string_len page.new ≤ array_string_len page.old + 23 }
{
    if fires {
        push_row(page, "restraint,", moment, ",1\n");
    } else if tick % 1_000 == 0 {
        push_row(page, "restraint,", moment, ",\n");
    }
}

// The rows of one tick.
#[tactic(auto, unfolding(crate::specs::Cycles::samples_at))]
fn push_tick(page: &mut Page, plan: &Plan, tick: u32)
    requires { array_string_len page.old + TICK_ROOM ≤ PAGE }
    ensures bytes { page.new.bytes ≡ page.old.bytes ++ samples_text (samples_at plan.now.impulses tick) }
    ensures len { array_string_len page.new ≤ array_string_len page.old + TICK_ROOM }
{
    let mut buffer = Buffer::new();
    let moment = buffer.format(tick);
    let acting = plan.acting_at(tick);
    push_crash(page, moment, tick, along_of(acting), across_of(acting));
    push_slow(page, moment, tick);
    push_restraint(page, moment, tick, plan.has_firing(tick));
}

/// Appends the rows of as many ticks as fit, from the one after `from` on.
pub(crate) fn push_ticks(page: &mut Page, plan: &Plan, from: u32)
    requires room { array_string_len page.old ≤ ON_ROOM }
    requires ticks { from + TICKS_OF_PAGE < 2 ^ 32 }
    ensures bytes { page.new.bytes ≡ page.old.bytes ++ samples_text (samples_after plan.now.impulses from TICKS_OF_PAGE) }
{
    for passed in 0..TICKS_OF_PAGE {
        push_tick(page, plan, from + passed + 1);
    }
}
