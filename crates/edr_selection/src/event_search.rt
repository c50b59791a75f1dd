//! The events of a cycle.

ghost use Rattle.std.specs.Prelude.{◌≡◌, ◌+◌, ◌^◌, ◌<◌, ◌≤◌, ◌++◌, Some, None, IfOk, OnOk, map};
ghost use Rattle.std.specs.Option.{option_map, option_to_list};
ghost use Rattle.edr_items.specs.declared.TheConstants.{LATEST_MOMENT};
ghost use Rattle.edr_record.specs.declared.TheConstants.{LONGEST_WINDOW, RESET};
ghost use Rattle.edr_definitions.specs.Ticks.{first_tick};
ghost use Rattle.edr_definitions.specs.Signals.{signals_of};
ghost use Rattle.edr_definitions.specs.Selection.{is_triggered, is_time_zero, end_of, window_of, close_of, candidate_at, event_of, bounds_after};
ghost use Rattle.edr_definitions.specs.Selection as selection;
ghost use Rattle.edr_selection.specs.Found.{bounds_of, told_event};

use crate::tick_tests::{Bounds, begins, ends, triggers};
use edr_items::Feeds;
use edr_record::{LONGEST_WINDOW, RESET, TIME_PAST_END};
use std::alloc::{AllocError as OutOfMemory, Global};

// The ticks of an event.
#[derive(Clone, Copy)]
pub struct Event {
    pub zero: u32,
    pub confirmed: u32,
    pub end: u32,
}

// The end of the candidate with that time zero.
fn end_after(feeds: &Feeds, zero: u32) -> u32
    requires { zero + RESET + 1 < 2 ^ 32 }
    ensures value { result ≡ end_of (signals_of feeds.now) zero }
    ensures after { zero ≤ result }
    ensures by_reset { result ≤ zero + RESET }
{
    let reset = zero + u32::from(RESET);
    for t in zero..reset + 1 {
        if ends(feeds, zero, t) {
            return t;
        }
    }
    reset
}

// The confirmation of a candidate, if it has one.
fn confirmation(feeds: &Feeds, since: u32, zero: u32, end: u32) -> Option<u32>
    requires { end + 1 < 2 ^ 32 }
    ensures { result ≡ first_tick (is_triggered (signals_of feeds.now) since) zero (end + 1) }
{
    for t in zero..end + 1 {
        if triggers(feeds, since, t) {
            return Some(t);
        }
    }
    None
}

// The next time zero, if there is one up to the tick `upto`.
fn next_zero(feeds: &Feeds, from: Bounds, upto: u32) -> Option<u32>
    requires after_fits { from.after + 1 < 2 ^ 32 }
    requires upto_fits { upto + 1 < 2 ^ 32 }
    ensures { result ≡ first_tick (is_time_zero (signals_of feeds.now) (bounds_of from)) (from.after + 1) (upto + 1) }
{
    for t in from.after + 1..upto + 1 {
        if begins(feeds, from, t) {
            return Some(t);
        }
    }
    None
}

// How far past time zero extremes are looked for.
pub fn window(zero: u32, end: u32) -> u32
    requires { end < 2 ^ 31 }
    ensures { result ≡ window_of zero end }
{
    (end.saturating_sub(zero) + u32::from(TIME_PAST_END)).min(u32::from(LONGEST_WINDOW))
}

// The close of an event.
pub fn close(zero: u32, end: u32) -> u32
    requires zero { zero < 2 ^ 31 }
    requires end { end < 2 ^ 31 }
    ensures { result ≡ close_of zero end }
{
    end.max(zero + window(zero, end))
}

// What the search found at a time zero: an event, where the candidate is confirmed in time, and the bounds from which it goes
// on.
#[derive(Clone, Copy)]
struct FoundZero {
    told: Option<Event>,
    next: Bounds,
}

// The event, where it is confirmed by the tick `upto`.
fn tell(upto: u32, zero: u32, confirmed: u32, end: u32) -> Option<Event>
    ensures early { upto < confirmed → result ≡ None }
    ensures told { confirmed ≤ upto → result ≡ Some (record { zero = zero; confirmed = confirmed; end = end }) }
{
    (confirmed <= upto).then_some(Event {
        zero,
        confirmed,
        end,
    })
}

// The step at the time zero that was found with these bounds.
#[tactic(auto, unfolding(edr_definitions::specs::Selection::candidate_at))]
fn step_at(feeds: &Feeds, from: Bounds, upto: u32, zero: u32) -> FoundZero
    requires { zero ≤ LATEST_MOMENT }
    ensures told { option_map told_event result.told ≡ event_of upto (candidate_at (signals_of feeds.now) from.since zero) }
    ensures next { bounds_of result.next ≡ bounds_after (bounds_of from) (candidate_at (signals_of feeds.now) from.since zero) }
    ensures near { result.next.after ≤ zero + RESET + LONGEST_WINDOW }
{
    let end = end_after(feeds, zero);
    let close = close(zero, end);
    match confirmation(feeds, from.since, zero, end) {
        Some(confirmed) => FoundZero {
            told: tell(upto, zero, confirmed, end),
            next: Bounds {
                after: close,
                since: close,
            },
        },
        None => FoundZero {
            told: None,
            next: Bounds {
                after: end,
                since: from.since,
            },
        },
    }
}

// Puts what was told, if anything, after the rest.
fn put(found: &mut Vec<Event>, told: Option<Event>) -> Result<(), OutOfMemory>
    ensures { OnOk result (found.new.items ≡ found.old.items ++ option_to_list told) }
{
    if let Some(event) = told {
        found.push(event)?;
    }
    Ok(())
}

// The events of a cycle that are confirmed by the tick `upto`, in order.
pub fn events(alloc: Global, feeds: &Feeds, upto: u32) -> Result<Vec<Event>, OutOfMemory>
    requires { upto ≤ LATEST_MOMENT }
    ensures { IfOk result (λ found. map told_event found.items ≡ selection.events (signals_of feeds.now) upto) }
{
    let mut found = Vec::new(alloc);
    let mut from = Bounds { after: 0, since: 0 };
    for _done in 0..upto {
        let Some(zero) = next_zero(feeds, from, upto) else {
            return Ok(found);
        };
        let step = step_at(feeds, from, upto, zero);
        put(&mut found, step.told)?;
        from = step.next;
    }
    Ok(found)
}
