//! The lines of an event, compared as they are printed.
ghost use Rattle.std.specs.Prelude.{◌≡◌, ◌<◌, ◌≤◌, ◌^◌, is_some, length, option_map};
ghost use Rattle.std.specs.List.{list_all};
ghost use Rattle.edr_record.specs.Bounds.{point_count};
ghost use Rattle.edr_record.specs.declared.TheConstants.{POINTS};
ghost use Rattle.edr_record.specs.Complete.{has_all_slots, is_complete};
ghost use Rattle.edr_report.specs.Lines.{text_of};
ghost use Rattle.edr_report.specs.Report.{event_lines};
ghost use Rattle.edr_report.specs.Words.{events_in_crash, profile_word};
ghost use Rattle.edr_audit.specs.Compared.{compare};
ghost use Rattle.edr_audit.specs.Tail.{compare_some, first_firing, shown_across, shown_along};

use crate::compared::Compared;
use crate::values::{switch_word, yes_no};
use edr_record::{Extreme, Place, Pre, Profile, Record};

fn events_in_crash(place: Place) -> &'static str
    ensures { result.now ≡ events_in_crash place }
{
    match place {
        Place::First => "1",
        Place::Second { .. } => "2",
    }
}

fn profile_word(profile: Profile) -> &'static str
    ensures { result.now ≡ profile_word profile }
{
    match profile {
        Profile::Short => "short",
        Profile::Long => "long",
    }
}

// Compares the lines of what stood before time zero: the third to the thirteenth.
fn with_pre(text: Compared, report: &[u8], event: &Record) -> Compared
    requires { length report.now < 2 ^ 32 }
    ensures { result ≡ compare_some 2 11 report.now text event.now }
{
    let pre = &event.pre;
    let text = text.with_count(report, "ignition cycle, crash", pre.key.cycle);
    let text = text.with_time(report, "time zero", Some(pre.key.zero));
    let events = events_in_crash(pre.place);
    let text = text.with_word(report, "multi-event, number of events", events);
    let text = text.with_time_between(report, "time from event 1 to 2", pre.place);
    let text = text.with_word(report, "deployment event", yes_no(event.locked));
    let profile = profile_word(pre.profile());
    let text = text.with_word(report, "pre-crash profile", profile);
    let text = text.with_slots(report, "speed, km/h", pre.speed());
    let text = text.with_slots(report, "throttle, %", pre.throttle());
    let text = text.with_slots(report, "service brake", pre.brake());
    let text = text.with_word(report, "driver belt", switch_word(pre.belt));
    let lamp = switch_word(pre.lamp);
    text.with_word(report, "frontal air bag warning lamp", lamp)
}

// How many points an axis has, by the time of the end.
fn count_of_points(end: u16) -> usize
    ensures count { result ≡ point_count end }
    ensures within { result ≤ POINTS }
{
    usize::from(end.saturating_add(30).min(250) / 10) + 1
}

// The points of the longitudinal axis that the end allows, if there is a crash part.
fn points_along(event: &Record) -> Option<&[i16]>
    ensures { option_map (λ p. p.now) result ≡ option_map shown_along event.now.crash }
{
    match &event.crash {
        Some(crash) => Some(&crash.along[..count_of_points(crash.end)]),
        None => None,
    }
}

// The points of the lateral axis that the end allows, if there is a crash part.
fn points_across(event: &Record) -> Option<&[i16]>
    ensures { option_map (λ p. p.now) result ≡ option_map shown_across event.now.crash }
{
    match &event.crash {
        Some(crash) => Some(&crash.across[..count_of_points(crash.end)]),
        None => None,
    }
}

// When the event ended, if there is a crash part.
fn end_of(event: &Record) -> Option<u32>
    ensures { result ≡ option_map (λ c. c.end) event.now.crash }
{
    match &event.crash {
        Some(crash) => Some(u32::from(crash.end)),
        None => None,
    }
}

// The greatest change of the longitudinal axis, if there is a crash part.
fn max_along(event: &Record) -> Option<Extreme>
    ensures { result ≡ option_map (λ c. c.max_along) event.now.crash }
{
    match &event.crash {
        Some(crash) => Some(crash.max_along),
        None => None,
    }
}

// The greatest change of the lateral axis, if there is a crash part.
fn max_across(event: &Record) -> Option<Extreme>
    ensures { result ≡ option_map (λ c. c.max_across) event.now.crash }
{
    match &event.crash {
        Some(crash) => Some(crash.max_across),
        None => None,
    }
}

// When the resultant was greatest, if there is a crash part.
fn result_at(event: &Record) -> Option<u32>
    ensures { result ≡ option_map (λ c. c.result_at) event.now.crash }
{
    match &event.crash {
        Some(crash) => Some(u32::from(crash.result_at)),
        None => None,
    }
}

// How many ticks of each axis have no sample, if there is a crash part.
fn missing(event: &Record) -> Option<(u16, u16)>
    ensures { result ≡ option_map (λ c. (c.missing_along, c.missing_across)) event.now.crash }
{
    match &event.crash {
        Some(crash) => Some((crash.missing_along, crash.missing_across)),
        None => None,
    }
}

// Compares the next seven lines: what came after time zero, but for firings.
fn with_changes(text: Compared, report: &[u8], event: &Record) -> Compared
    requires { length report.now < 2 ^ 32 }
    ensures { result ≡ compare_some 13 7 report.now text event.now }
{
    let text = text.with_time(report, "end of event", end_of(event));
    let along = points_along(event);
    let text = text.with_points(report, "delta-V longitudinal, km/h", along);
    let across = points_across(event);
    let text = text.with_points(report, "delta-V lateral, km/h", across);
    let along = max_along(event);
    let text = text.with_extreme(report, "maximum delta-V longitudinal", along);
    let across = max_across(event);
    let text = text.with_extreme(report, "maximum delta-V lateral", across);
    let at = result_at(event);
    let text = text.with_time(report, "time of maximum resultant", at);
    text.with_missing(report, "ticks without sample", missing(event))
}

// When a restraint fired first, by its place among the eight.
fn first_firing(event: &Record, restraint: usize) -> Option<u32>
    requires { restraint < 8 }
    ensures { result ≡ first_firing event.now restraint }
{
    match &event.crash {
        Some(crash) => crash.fired[restraint].map(u32::from),
        None => None,
    }
}

// Compares the next eight lines: the firings.
fn with_firings(text: Compared, report: &[u8], event: &Record) -> Compared
    requires { length report.now < 2 ^ 32 }
    ensures { result ≡ compare_some 20 8 report.now text event.now }
{
    let text = text.with_time(report, "driver frontal deployment", first_firing(event, 0));
    let text = text.with_time(
        report,
        "passenger frontal deployment",
        first_firing(event, 1),
    );
    let text = text.with_time(report, "driver side deployment", first_firing(event, 2));
    let text = text.with_time(report, "passenger side deployment", first_firing(event, 3));
    let text = text.with_time(report, "driver curtain deployment", first_firing(event, 4));
    let text = text.with_time(
        report,
        "passenger curtain deployment",
        first_firing(event, 5),
    );
    let text = text.with_time(
        report,
        "driver pretensioner deployment",
        first_firing(event, 6),
    );
    text.with_time(
        report,
        "passenger pretensioner deployment",
        first_firing(event, 7),
    )
}

// Each slot has a value.
fn are_present<T>(slots: &[Option<T>]) -> bool
    ensures { result ≡ list_all is_some slots.now }
{
    slots.iter().all(|s| s.is_some())
}

// None of the slots of a pre part is absent.
fn has_all_slots(pre: &Pre) -> bool
    ensures { result ≡ has_all_slots pre.now }
{
    are_present(pre.speed())
        && are_present(pre.throttle())
        && are_present(pre.brake())
        && pre.belt.is_some()
        && pre.lamp.is_some()
}

// Every required element is there.
#[tactic(auto, unfolding(edr_record::specs::Complete::is_complete))]
fn is_complete(event: &Record) -> bool
    ensures { result ≡ is_complete event.now }
{
    match &event.crash {
        Some(crash) => {
            has_all_slots(&event.pre) && crash.missing_along == 0 && crash.missing_across == 0
        }
        None => false,
    }
}

/// Compares the lines of the event of this bank, which is in place `block` of the retrieved ones.
pub fn with_event(text: Compared, report: &[u8], block: u64, bank: u8, event: &Record) -> Compared
    requires { length report.now < 2 ^ 32 }
    ensures { result ≡ compare report.now text (text_of (event_lines block bank event.now)) }
{
    let text = text.with_number(report, "event", block);
    let text = text.with_number(report, "bank", u64::from(bank));
    let text = with_pre(text, report, event);
    let text = with_changes(text, report, event);
    let text = with_firings(text, report, event);
    let complete = yes_no(is_complete(event));
    text.with_word(report, "complete file recorded", complete)
}
