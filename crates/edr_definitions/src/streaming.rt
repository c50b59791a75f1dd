//! Laws of a core that takes items and closes ticks in turns, each the contract of a function that does nothing.
//!
//! In them `c` is the core with the lists that were given of its cycle, and `x` is what it is told of its next tick.

ghost use Rattle.std.specs.Prelude.{◌≡◌, ℕ, ◌+◌, true, false, None, []};
ghost use Rattle.edr_items.specs.declared.Sensor.{Sensor};
ghost use Rattle.edr_items.specs.declared.Item.{Item};
ghost use Rattle.edr_items.specs.SensorLists.{SensorLists};
ghost use Rattle.edr_definitions.specs.Signals.{Signals};
ghost use Rattle.edr_definitions.specs.Commands.{issues, commands};
ghost use Rattle.edr_definitions.specs.Search.{Search, StandsFor, next_search};
ghost use Rattle.edr_definitions.specs.Change.{tick_change};
ghost use Rattle.edr_definitions.specs.OpenCrash.{OpenCrash};
ghost use Rattle.edr_definitions.specs.Core.{CoreState, is_open, ring_lists};
ghost use Rattle.edr_definitions.specs.Premises.{AddsCommands};
ghost use Rattle.edr_definitions.specs.Streaming.{LiveCore, CoreStands, Stands, at_first, MayAdd, core_with, IsSettledByHorizon, NextTick, MayClose, next_core, next_commands, ClosesInTime, IsPastTheLast, WhereOpen, IsOpenShortly, StandsOpen, StandsSearching, open_after, IsZeroOrNothing, StandsBetween, core_keeping, ReachBack, GiveTheSamePre};

/// Before its first tick a core with no event stands for any lists, and no command is issued.
pub fn a_core_begins_with_the_cycle()
    ensures stands { (c : LiveCore) → c.state.linked ≡ None → Stands (at_first c) }
    ensures none_yet { (f : SensorLists) (n : ℕ) → commands f n 0 ≡ [] }
{}

/// With one more item that is accepted the core stands for the longer lists, and the commands so far and their ticks stay the same.
pub fn an_accepted_item_changes_no_command()
    ensures stands { (c : LiveCore) (r : Sensor) (x : Item) → MayAdd r x c.lists → Stands c → Stands (core_with r x c) }
    ensures same { IsSettledByHorizon commands }
    ensures ticks { IsSettledByHorizon issues }
{}

/// Past the next tick the core stands for the same lists, and at it the core issues exactly the commands of that tick.
pub fn a_core_issues_the_commands()
    ensures stands { (c : LiveCore) (x : NextTick c) → Stands c → MayClose c → Stands (next_core c x) }
    ensures issues { (c : LiveCore) (x : NextTick c) → Stands c → AddsCommands c.lists c.cycle c.tick (next_commands c x) }
{}

/// A candidate is open past a tick where it begins there or was open, and isn't dropped or closed there. No tick is a time zero
/// while one is open, and nothing stands at a tick that is none while no candidate is open.
pub fn a_candidate_opens_and_closes()
    ensures open { (m : Signals) (t : ℕ) (s : Search) → StandsFor m t s
        → is_open (next_search m (t + 1) s).phase ≡ open_after (tick_change m (t + 1)) (is_open s.phase) }
    ensures one { (m : Signals) (t : ℕ) (s : Search) → StandsOpen m t s → (tick_change m (t + 1)).zero ≡ false }
    ensures none { (m : Signals) (t : ℕ) (s : Search) → StandsSearching m t s → IsZeroOrNothing (tick_change m (t + 1)) }
{}

/// With no candidate open only the last event counts of what the core keeps.
pub fn a_core_between_candidates_keeps_the_last_event()
    ensures { (c : LiveCore) (k : CoreState) (p : OpenCrash) → StandsBetween c → k.linked ≡ c.state.linked
        → Stands (core_keeping k p c) }
{}

/// A candidate is open for less than 500 ms. Where an event closes, its end is 20 to 500 ms past time zero, and the tick is the
/// close that this end gives.
pub fn a_crash_part_is_short()
    ensures open { (c : LiveCore) → CoreStands c → WhereOpen c.search.phase (IsOpenShortly c) }
    ensures close { (c : LiveCore) (x : NextTick c) → CoreStands c → x.change.closed ≡ true → ClosesInTime c x }
{}

/// Where a tick confirms an event, its time zero is past that of the last one.
pub fn an_event_is_past_the_last_one()
    ensures { (c : LiveCore) (x : NextTick c) → CoreStands c → x.change.confirmed ≡ true → IsPastTheLast c x }
{}

/// Rings of the newest samples give the pre part of all items, where no mark is further past its time zero than a gap may be,
/// and they have room for a sample of each tick from there back to the oldest that a slot may have.
pub fn rings_give_the_pre_part()
    ensures { (room z : ℕ) (f : SensorLists) → ReachBack room z f → GiveTheSamePre z (ring_lists room f) f }
{}
