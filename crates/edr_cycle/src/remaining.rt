//! What is left of a cycle whose slow sensors keep their own samples, done by one thread.

ghost use Rattle.std.specs.Prelude.{◌≡◌, ◌+◌, ◌<◌, ◌≤◌, ℕ, None, false, length, All};
ghost use Rattle.edr_device.specs.Lent.{Lent};
ghost use Rattle.edr_items.specs.Sensor.{IsSlow};
ghost use Rattle.edr_items.specs.SensorLists.{SensorLists, AreFeeds, horizon_of, items_of};
ghost use Rattle.edr_definitions.specs.Commands.{issues};
ghost use Rattle.edr_image.specs.Image.{image_size};
ghost use Rattle.edr_core.specs.SplitHistory.{History, missing_part};
ghost use Rattle.edr_cycle.specs.Begun.{room_for};
ghost use Rattle.edr_cycle.specs.Ledgers.{CommitsIn};
ghost use Rattle.edr_cycle.specs.Remaining.{HasNext, IsAsked, IsOpenAt, IsTakenOf, KeepsAsking, AnswerLeads, Remains, RemainsAt, SameAsk, count_left};
ghost use Rattle.edr_cycle.specs.Rest.{issues_past};

use crate::cycle_run::commit_closed;
use crate::ledger::Ledger;
use crate::left::Left;
use edr_core::{Captures, Closing, Issued, SplitClosing, SplitCore};
use edr_device::{Failed, Nvm};
use edr_items::{Feeds, PerSensor, SLOW_SENSORS, Sensor};

/// What is left of the lists of a cycle, and captures of what is no longer left of the slow sensors.
///
/// The core may know more moments of a slow sensor than were taken of its list: these items are left all the same, and are given
/// to the captures alone.
#[derive(Drop)]
pub struct Remaining<'a> {
    left: Left<'a>,
    captures: Captures,
}

impl<'a> Remaining<'a> {
    ghost use Rattle.edr_core.specs.Captures.{no_captures};
    ghost use Rattle.edr_core.specs.SplitContents.{SplitContents};
    ghost use Rattle.edr_cycle.specs.Remaining.{WasTold};

    /// What is left past these last moments of the fast sensors, and all of the slow ones.
    pub fn after(
        feeds: &'a Feeds,
        along: u32,
        across: u32,
        restraint: u32,
        captures: Captures,
    ) -> Remaining<'a>
        requires empty { captures ≡ no_captures }
        ensures feeds { AreFeeds feeds.now }
        ensures remains { (h : History) (core : SplitContents)
            → WasTold feeds.now h core along across restraint
            → RemainsAt feeds.now h.cycle h core result }
    {
        let mut last = PerSensor::each(0);
        last.along = along;
        last.across = across;
        last.restraint = restraint;
        Remaining {
            left: Left::after(feeds, &last),
            captures,
        }
    }
}

// Takes the sensor's next item, which is no longer left: the core takes it, unless it knows that moment of a slow sensor.
fn give(rest: &mut Remaining<'_>, core: &mut SplitCore, sensor: Sensor)
    requires { (f : SensorLists) × (n : ℕ) × (h : History) × HasNext f n h core.old rest.old sensor }
    ensures goes { (f : SensorLists) (n : ℕ) (h : History) → HasNext f n h core.old rest.old sensor
        → (h' : History) × RemainsAt f n h' core.new rest.new × SameAsk h h' }
    ensures fewer { count_left rest.new.left < count_left rest.old.left }
{
    let Some(item) = rest.left.next(sensor) else {
        unreachable!();
    };
    // What it refuses is an item of a slow sensor whose moment it knows: the captures keep that one all the same.
    let _ = core.accept(sensor, item);
    rest.captures.push(sensor, item);
}

// Gives the items of a sensor up to the time zero that is asked for.
fn fill(rest: &mut Remaining<'_>, core: &mut SplitCore, sensor: Sensor, zero: u32)
    requires { (f : SensorLists) × (n : ℕ) × (h : History) × IsAsked f n h core.old rest.old zero }
    ensures asked { KeepsAsking zero SameAsk core.old core.new rest.old rest.new }
    ensures past { (f : SensorLists) (n : ℕ) (h : History) → IsAsked f n h core.old rest.old zero
        → All (λ x. zero < x.moment) (items_of sensor rest.new.left) }
    ensures fewer { count_left rest.new.left ≤ count_left rest.old.left }
{
    while let Some(item) = rest.left.first(sensor) {
        if item.moment > zero {
            break;
        }
        give(rest, core, sensor);
    }
}

// Gives the core the part of a slow sensor that is asked for, unless it took it before.
fn put(rest: &mut Remaining<'_>, core: &mut SplitCore, sensor: Sensor, zero: u32)
    requires slow { IsSlow sensor }
    requires asked { (f : SensorLists) × (n : ℕ) × (h : History) × IsAsked f n h core.old rest.old zero }
    ensures taken { KeepsAsking zero (IsTakenOf sensor zero) core.old core.new rest.old rest.new }
    ensures fewer { count_left rest.new.left ≤ count_left rest.old.left }
{
    fill(rest, core, sensor, zero);
    // The part is one that is asked for: it is refused only where the core took it before.
    let _ = core.part(rest.captures.part(sensor, zero));
}

// Gives the core all parts that it asks for.
fn answer(rest: &mut Remaining<'_>, core: &mut SplitCore, zero: u32)
    requires { (f : SensorLists) × (n : ℕ) × (h : History) × IsAsked f n h core.old rest.old zero }
    ensures answered { KeepsAsking zero (λ _ h. missing_part h ≡ None)
        core.old core.new rest.old rest.new }
    ensures fewer { count_left rest.new.left ≤ count_left rest.old.left }
{
    for sensor in SLOW_SENSORS {
        put(rest, core, sensor, zero);
    }
}

// Closes the time zero that is asked for, once its parts are given.
fn close_asked(
    rest: &mut Remaining<'_>,
    core: &mut SplitCore,
    zero: u32,
    issued: &mut Issued,
) -> Closing
    requires { (f : SensorLists) × (n : ℕ) × (h : History) × IsAsked f n h core.old rest.old zero }
    ensures leads { (f : SensorLists) (n : ℕ) (h : History) → IsAsked f n h core.old rest.old zero
        → AnswerLeads f n h result issued.new core.new rest.new }
    ensures fewer { count_left rest.new.left ≤ count_left rest.old.left }
{
    answer(rest, core, zero);
    match core.close(issued) {
        SplitClosing::Closed { tick, issues } => Closing::Closed { tick, issues },
        _ => unreachable!(),
    }
}

// Closes the next tick, or tells which sensor the core waits for.
fn close(rest: &mut Remaining<'_>, core: &mut SplitCore, issued: &mut Issued) -> Closing
    requires { (f : SensorLists) × (n : ℕ) × (h : History) × IsOpenAt f n h core.old rest.old }
    ensures leads { (f : SensorLists) (n : ℕ) (h : History) → IsOpenAt f n h core.old rest.old
        → AnswerLeads f n h result issued.new core.new rest.new }
    ensures fewer { count_left rest.new.left ≤ count_left rest.old.left }
{
    match core.close(issued) {
        SplitClosing::Waiting { sensor } => Closing::Waiting { sensor },
        SplitClosing::Closed { tick, issues } => Closing::Closed { tick, issues },
        SplitClosing::Ask { zero } => close_asked(rest, core, zero, issued),
        SplitClosing::Parts { .. } => {
            let zero = core.closed() + 1;
            close_asked(rest, core, zero, issued)
        }
    }
}

// Gives what is left to a core that is lent, and commits what it issues.
fn give_rest<L: Ledger, N: Nvm>(
    core: &mut SplitCore,
    feeds: &Feeds,
    rest: &mut Remaining<'_>,
    ledger: &mut L,
    nvm: &mut N,
) -> Result<(), Failed>
    requires remains { Remains feeds.now core.old.cycle core.old rest.old }
    requires live { (L.banks ledger.old).ended ≡ false }
    requires size { image_size (L.banks ledger.old).store.header.banks ≤ N.extent nvm.old }
    requires room { room_for (horizon_of feeds.now)
        ≤ (L.log ledger.old).spare + length (issues feeds.now core.old.cycle core.old.closed) }
    ensures lent { Lent N.Nvm nvm.old nvm.new result }
    ensures commits { CommitsIn L.Ledger N.Nvm (issues_past feeds.now core.old.cycle core.old.closed)
        result ledger.old ledger.new nvm.old nvm.new }
{
    let mut issued = Issued::none();
    let horizon = feeds.horizon();
    while core.closed() < horizon {
        match close(rest, core, &mut issued) {
            Closing::Closed { tick, issues } => {
                commit_closed(ledger, nvm, tick, issues, &issued)?
            }
            Closing::Waiting { sensor } => give(rest, core, sensor),
        }
    }
    Ok(())
}

/// Gives what is left of the feeds to the core of a cycle and to the captures, answers from these what the core asks for, and
/// commits what it issues past the ticks that it has closed, up to the horizon or to a command that fails.
pub fn run_rest<L: Ledger, N: Nvm>(
    mut core: SplitCore,
    feeds: &Feeds,
    mut rest: Remaining<'_>,
    ledger: &mut L,
    nvm: &mut N,
) -> Result<(), Failed>
    requires remains { Remains feeds.now core.cycle core rest }
    requires live { (L.banks ledger.old).ended ≡ false }
    requires size { image_size (L.banks ledger.old).store.header.banks ≤ N.extent nvm.old }
    requires room { room_for (horizon_of feeds.now)
        ≤ (L.log ledger.old).spare + length (issues feeds.now core.cycle core.closed) }
    ensures lent { Lent N.Nvm nvm.old nvm.new result }
    ensures commits { CommitsIn L.Ledger N.Nvm (issues_past feeds.now core.cycle core.closed)
        result ledger.old ledger.new nvm.old nvm.new }
{
    give_rest(&mut core, feeds, &mut rest, ledger, nvm)
}
