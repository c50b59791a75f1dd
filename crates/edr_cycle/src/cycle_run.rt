//! A cycle that runs by itself: its items go through the core, and each tick's commands to the banks.

ghost use Rattle.std.specs.Prelude.{◌≡◌, ◌↔◌, ℕ, ◌+◌, ◌≤◌, ◌<◌, false, IsTrue, length, map};
ghost use Rattle.edr_device.specs.Lent.{Lent};
ghost use Rattle.edr_items.specs.PerSensor.{total_of};
ghost use Rattle.edr_items.specs.SensorLists.{AreFeeds, IsLevel, horizon_of, no_items};
ghost use Rattle.edr_definitions.specs.Commands.{issue_at, issues};
ghost use Rattle.edr_definitions.specs.Schedule.{Progress};
ghost use Rattle.edr_core.specs.Answers.{commands_put};
ghost use Rattle.edr_core.specs.StandsFor.{CoreIsFor};
ghost use Rattle.edr_image.specs.Image.{image_size};
ghost use Rattle.edr_run.specs.Cycle.{issues_in};
ghost use Rattle.edr_cycle.specs.Begun.{room_for};
ghost use Rattle.edr_cycle.specs.Ledgers.{CommitsIn};
ghost use Rattle.edr_cycle.specs.Rest.{CanPassNext, IsGiven, MayGiveFirst, PassesNext, PassesOn, issues_past};

use crate::commits::commit_tick;
use crate::ledger::Ledger;
use crate::left::Left;
use edr_core::{Closing, Core, Issued};
use edr_device::{Failed, Nvm};
use edr_items::{Feeds, Sensor};

/// Commits what a closed tick issues, if it issues anything.
#[inline(always)]
pub(crate) fn commit_closed<L: Ledger, N: Nvm>(
    ledger: &mut L,
    nvm: &mut N,
    tick: u32,
    issues: bool,
    issued: &Issued,
) -> Result<(), Failed>
    requires live { (L.banks ledger.old).ended ≡ false }
    requires size { image_size (L.banks ledger.old).store.header.banks ≤ N.extent nvm.old }
    requires room { length (commands_put issues issued.now) ≤ (L.log ledger.old).spare }
    ensures lent { Lent N.Nvm nvm.old nvm.new result }
    ensures commits { CommitsIn L.Ledger N.Nvm (map (issue_at tick) (commands_put issues issued.now))
        result ledger.old ledger.new nvm.old nvm.new }
{
    if issues {
        commit_tick(ledger, nvm, tick, issued)
    } else {
        Ok(())
    }
}

// Gives the sensor's next item, where it is due in the next tick and the core takes it.
#[inline(always)]
fn give_next(core: &mut Core, left: &mut Left<'_>, sensor: Sensor)
    ensures { MayGiveFirst sensor core.old core.new left.old left.new }
{
    let Some(item) = left.first(sensor) else {
        return;
    };
    if item.moment <= core.closed().saturating_add(1) && core.accept(sensor, item).is_ok() {
        left.next(sensor);
    }
}

// Passes the next tick, where each axis gives a sample of 0 of it next, and the core needs nothing else. At most ticks of a drive
// nothing moves.
#[inline(always)]
fn pass_next(core: &mut Core, left: &mut Left<'_>) -> bool
    ensures answer { (n : ℕ) (p : Progress) → CoreIsFor core.old n p
        → IsTrue result ↔ CanPassNext core.old p left.old }
    ensures passes { IsTrue result → (n : ℕ) (p : Progress) → CoreIsFor core.old n p
        → PassesNext n p core.new left.old left.new }
    ensures fewer { IsTrue result → total_of length left.new < total_of length left.old }
    ensures stays { result ≡ false → (core.new ≡ core.old) × (left.new ≡ left.old) }
{
    let tick = core.closed().saturating_add(1);
    if !left.is_still(Sensor::Along, tick) || !left.is_still(Sensor::Across, tick) {
        return false;
    }
    if !core.pass_still() {
        return false;
    }
    left.next(Sensor::Along);
    left.next(Sensor::Across);
    true
}

// Passes all ticks of that kind that come next. It stands apart, so that what it looks at again and again stays in registers.
#[inline(never)]
fn pass_on(core: &mut Core, left: &mut Left<'_>)
    ensures { (n : ℕ) (p : Progress) → CoreIsFor core.old n p
        → PassesOn n p core.new left.old left.new }
{
    while pass_next(core, left) {}
}

// Gives what is left of the feeds to a core that is lent, and commits what it issues.
fn give_on<L: Ledger, N: Nvm>(
    core: &mut Core,
    feeds: &Feeds,
    left: &mut Left<'_>,
    ledger: &mut L,
    nvm: &mut N,
) -> Result<(), Failed>
    requires given { IsGiven feeds.now core.old.cycle core.old left.old }
    requires feeds { AreFeeds feeds.now }
    requires level { IsLevel feeds.now }
    requires live { (L.banks ledger.old).ended ≡ false }
    requires size { image_size (L.banks ledger.old).store.header.banks ≤ N.extent nvm.old }
    requires room { room_for (horizon_of feeds.now)
        ≤ (L.log ledger.old).spare + length (issues feeds.now core.old.cycle core.old.closed) }
    ensures lent { Lent N.Nvm nvm.old nvm.new result }
    ensures commits { CommitsIn L.Ledger N.Nvm (issues_past feeds.now core.old.cycle core.old.closed)
        result ledger.old ledger.new nvm.old nvm.new }
{
    let mut issued = Issued::none();
    loop {
        pass_on(core, left);
        give_next(core, left, Sensor::Along);
        give_next(core, left, Sensor::Across);
        match core.close(&mut issued) {
            Closing::Closed { tick, issues } => {
                commit_closed(ledger, nvm, tick, issues, &issued)?
            }
            Closing::Waiting { sensor } => {
                let Some(item) = left.next(sensor) else {
                    return Ok(());
                };
                core.accept(sensor, item).unwrap();
            }
        }
    }
}

/// Gives the items of the feeds to the core of a cycle, and commits what it issues, up to the horizon or to a command that
/// fails.
///
/// The next item of an axis is given before the tick that it is due in, so the core seldom waits for one. Any other sensor's is
/// given when the core waits for that sensor, so none is refused. Where nothing is left of it, the horizon is closed.
pub(crate) fn run<L: Ledger, N: Nvm>(
    mut core: Core,
    feeds: &Feeds,
    ledger: &mut L,
    nvm: &mut N,
) -> Result<(), Failed>
    requires begun { CoreIsFor core core.cycle (record { given = no_items; closed = 0 }) }
    requires level { IsLevel feeds.now }
    requires live { (L.banks ledger.old).ended ≡ false }
    requires size { image_size (L.banks ledger.old).store.header.banks ≤ N.extent nvm.old }
    requires room { room_for (horizon_of feeds.now) ≤ (L.log ledger.old).spare }
    ensures lent { Lent N.Nvm nvm.old nvm.new result }
    ensures commits { CommitsIn L.Ledger N.Nvm (issues_in feeds.now core.cycle)
        result ledger.old ledger.new nvm.old nvm.new }
{
    let mut left = Left::all_of(feeds);
    give_on(&mut core, feeds, &mut left, ledger, nvm)
}
