//! Laws of the definitions, each the contract of a function that does nothing.

ghost use Rattle.std.specs.Prelude.{◌≡◌, ℕ, ◌+◌, ◌<◌, ◌≤◌, ◌↔◌, Bool, List, Option, Some, None, ℤ, IsTrue, ◌⊎◌, [], ◌∷◌, ◌++◌, ◌*◌, ◌/◌, length, All, pos, neg_ℤ};
ghost use Rattle.edr_items.specs.declared.TheConstants.{LATEST_MOMENT};
ghost use Rattle.edr_items.specs.declared.Sensor.{Sensor};
ghost use Rattle.edr_definitions.specs.declared.limits.TheConstants.{STEPS_OF_KMH, OVER, TRIGGER, QUIET_SQUARES, ALONG_TICKS, ACROSS_TICKS, TRIGGER_TICKS, QUIET_TICKS, LONGEST_AGE};
ghost use Rattle.edr_items.specs.declared.Item.{Item};
ghost use Rattle.edr_items.specs.Item.{IsFeed, IsRising};
ghost use Rattle.edr_items.specs.SensorLists.{SensorLists, items_of, AreFeeds, horizon_of};
ghost use Rattle.edr_record.specs.declared.Place.{Place};
ghost use Rattle.edr_record.specs.declared.Command.{Command};
ghost use Rattle.edr_record.specs.Bounds.{IsPlace, IsPre, IsCrash};
ghost use Rattle.edr_definitions.specs.Ticks.{first_tick, IsFirst, HoldsNowhere};
ghost use Rattle.edr_definitions.specs.Signals.{Signals, sample_at, signals_of};
ghost use Rattle.edr_definitions.specs.Windows.{delta_v, sum_between, swing};
ghost use Rattle.edr_definitions.specs.Selection.{Bounds, Candidate, is_triggered, is_time_zero, is_end, chain, at_start, events};
ghost use Rattle.edr_definitions.specs.Parts.{first_greatest, kmh_of, slot, pre_part, crash_part};
ghost use Rattle.edr_definitions.specs.Commands.{place_of, places, last_placed, all_issues, issues, commands, InOrder};
ghost use Rattle.edr_definitions.specs.Facts.{Reaches, IsTriggered, IsTimeZero, IsEnd, IsCandidate, IsChain, AreEventsAfter, IsFirstGreatest, IsLatestSample, HasNoSample, IsInBounds, AgreeUpTo};
ghost use Rattle.edr_definitions.specs.Search.{Search, next_search, StandsFor};
ghost use Rattle.edr_definitions.specs.Change.{TellsEnd, change_of_list, tested_change, tick_change};
ghost use Rattle.edr_definitions.specs.Schedule.{Progress, CoreMove, Give, with_item, IsAllowed, after_steps, items_given, IsUnderWay, CanGoOn, IsOver};
ghost use Rattle.edr_definitions.specs.Premises.{EndsInTime, AreFeedsOf, commands_by, commands_at, AddsCommands, AddsIssues, ChangeAlikeUpTo, told_chain, AreLevelUnderWay, IsAwaited, GiveTheSameItems};
ghost use Rattle.edr_definitions.specs.Streaming.{first_search};

/// What is found is the least tick that passes the test, and nothing is found where none passes.
pub fn first_tick_is_least()
    ensures found { (p : ℕ → Bool) (a b t : ℕ) → (first_tick p a b ≡ Some t) ↔ (IsFirst p a t × (t < b)) }
    ensures nothing { (p : ℕ → Bool) (a b : ℕ) → (first_tick p a b ≡ None) ↔ HoldsNowhere p a b }
{}

/// The tick of an extreme is the earliest at which the function is greatest.
pub fn first_greatest_is_earliest()
    ensures { (f : ℕ → ℕ) (a b : ℕ) → a < b → IsFirstGreatest f a b (first_greatest f a b) }
{}

/// The change of speed is the sum of the list's samples in the interval.
pub fn change_is_sum_of_samples()
    ensures { (xs : List Item) (s t : ℕ) → IsRising xs → delta_v (sample_at xs) s t ≡ sum_between xs s t }
{}

/// A swing has a size exactly where some change in its window has it.
pub fn swing_is_reached()
    ensures { (axis : ℕ → Option ℤ) (k from t size : ℕ) → 0 < size
        → (size ≤ swing axis k from t) ↔ Reaches axis k from t size }
{}

/// The three tests of the search mean their facts.
pub fn tests_mean_facts()
    ensures trigger { (m : Signals) (since t : ℕ) → IsTrue (is_triggered m since t) ↔ IsTriggered m since t }
    ensures time_zero { (m : Signals) (from : Bounds) (t : ℕ) → IsTrue (is_time_zero m from t) ↔ IsTimeZero m from t }
    ensures end { (m : Signals) (z t : ℕ) → IsTrue (is_end m z t) ↔ IsEnd m z t }
{}

/// The chain is the one list whose candidates follow one another until no time zero is left.
pub fn chain_is_the_chain()
    ensures is { (m : Signals) (upto : ℕ) → IsChain m upto at_start (chain m upto) }
    ensures one { (m : Signals) (upto : ℕ) (cs : List Candidate) → IsChain m upto at_start cs → cs ≡ chain m upto }
{}

/// A candidate that has ended stays one, whatever samples come later.
pub fn ended_candidates_stay()
    ensures { (m n : Signals) (from : Bounds) (c : Candidate) → AgreeUpTo c.end_tick m n → IsCandidate m from c
        → IsCandidate n from c }
{}

/// Time zero, confirmation, end and close of an event stand in this order, its lock between, and the next time zero is past the close.
pub fn events_follow_one_another()
    ensures { (m : Signals) (upto : ℕ) → AreEventsAfter m upto 0 (events m upto) }
{}

/// A slot has the value of the latest sample of its 100 ms, and is absent where they have none, as before the cycle.
pub fn a_slot_is_the_latest_sample()
    ensures present { (xs : List Item) (t : ℕ) (v : ℤ) → IsRising xs → (slot xs t ≡ Some v) ↔ IsLatestSample xs t v }
    ensures absent { (xs : List Item) (t : ℕ) → (slot xs t ≡ None) ↔ HasNoSample xs t }
    ensures before { (s : Sensor) (xs : List Item) → IsFeed s xs → slot xs 0 ≡ None }
{}

/// n steps are k km/h exactly where they lie from half a km/h below to less than half a km/h above, and likewise below zero.
pub fn whole_kmh_are_half_away_from_zero()
    ensures nearest { (n k : ℕ) → (kmh_of (pos n) ≡ pos k) ↔ ((10_000 * k ≤ n + 5_000) × (n < 10_000 * k + 5_000)) }
    ensures mirrored { (z : ℤ) → kmh_of (neg_ℤ z) ≡ neg_ℤ (kmh_of z) }
{}

/// The limits are 1 km/h, 0.8 km/h, 8 km/h, a resultant of 0.8 km/h, within 20 and 5 ms, within 150 ms and over 20 ms, and
/// 100 ms.
pub fn limits_are_the_numbers()
    ensures kmh { STEPS_OF_KMH ≡ 10_000 }
    ensures over { OVER ≡ 8_000 }
    ensures trigger { TRIGGER ≡ 80_000 }
    ensures quiet { QUIET_SQUARES ≡ 64_000_000 }
    ensures along_ticks { ALONG_TICKS ≡ 20 }
    ensures across_ticks { ACROSS_TICKS ≡ 5 }
    ensures trigger_ticks { TRIGGER_TICKS ≡ 150 }
    ensures quiet_ticks { QUIET_TICKS ≡ 20 }
    ensures age { LONGEST_AGE ≡ 100 }
{}

/// The parts of an event of feeds have their fields in their bounds.
pub fn parts_are_in_bounds()
    ensures pre { (f : SensorLists) (n z : ℕ) (place : Place) → AreFeedsOf n f → 1 ≤ z → z ≤ LATEST_MOMENT
        → IsPlace place → IsPre (pre_part f n place z) }
    ensures crash { (f : SensorLists) (z e : ℕ) → AreFeeds f → EndsInTime z e → IsCrash (crash_part (signals_of f) z e) }
{}

/// Each command of a cycle of feeds carries a part in its bounds.
pub fn commands_are_in_bounds()
    ensures { (f : SensorLists) (n t : ℕ) → AreFeedsOf n f → t ≤ LATEST_MOMENT → All IsInBounds (commands f n t) }
{}

/// One more event's place stands last, and follows from the place and the time zero of the last event before it.
pub fn places_grow_at_their_end()
    ensures places { (zs : List ℕ) (z : ℕ) → places (zs ++ z ∷ []) ≡ places zs ++ place_of (last_placed zs) z ∷ [] }
    ensures last { (zs : List ℕ) (z : ℕ) → last_placed (zs ++ z ∷ []) ≡ Some (place_of (last_placed zs) z, z) }
{}

/// Commands stand by tick, and at one tick as Take, Lock, Done.
pub fn commands_stand_by_tick()
    ensures { (f : SensorLists) (n t : ℕ) → InOrder 0 (issues f n t) }
{}

/// Events are at least 51 ms apart, and each issues at most three commands.
pub fn commands_are_few()
    ensures { (f : SensorLists) (n t : ℕ) → length (commands f n t) ≤ 3 * (t / 51 + 1) }
{}

/// The commands up to a tick are those that the events of a longer stretch issue by then.
pub fn commands_lie_in_longer_ones()
    ensures { (f : SensorLists) (n t w : ℕ) → t ≤ w → commands_by t (all_issues f n w) ≡ commands f n t }
{}

/// The next tick adds its own commands at the end, and they are issued at it.
pub fn a_tick_adds_its_commands()
    ensures commands { (f : SensorLists) (n t : ℕ) → AddsCommands f n t (commands_at f n (t + 1)) }
    ensures ticks { (f : SensorLists) (n t : ℕ) (cs : List Command) → AddsCommands f n t cs → AddsIssues f n t cs }
{}

/// An item of a later moment doesn't change the commands up to a tick.
pub fn later_items_change_nothing()
    ensures { (s : Sensor) (f : SensorLists) (x : Item) (n t : ℕ) → t < x.moment
        → commands f n t ≡ commands (with_item s x f) n t }
{}

/// At the start of a cycle the search stands for any signals.
pub fn a_search_begins_with_the_cycle()
    ensures { (m : Signals) → StandsFor m 0 first_search }
{}

/// The chain up to a tick is what the search has closed, and then its open candidate.
pub fn a_search_tells_the_chain()
    ensures { (m : Signals) (t : ℕ) (s : Search) (h : StandsFor m t s) → told_chain m t s h ≡ chain m t }
{}

/// What stands at the next tick follows from the four tests there and the phase before it.
pub fn a_change_follows_from_the_phase()
    ensures stands { (m : Signals) (t : ℕ) (s : Search) → StandsFor m t s
        → StandsFor m (t + 1) (next_search m (t + 1) s) }
    ensures change { (m : Signals) (t : ℕ) (s : Search) (ends : Bool) → StandsFor m t s → TellsEnd m (t + 1) s ends
        → tick_change m (t + 1) ≡ tested_change m (t + 1) s ends }
{}

/// What stands at a tick is known there: of the chain up to any later tick the same stands at it.
pub fn each_tick_is_told_as_it_comes()
    ensures { (m : Signals) (t w : ℕ) → t ≤ w → tick_change m t ≡ change_of_list m t (chain m w) }
{}

/// A tick without a sample counts as a sample of 0.
pub fn a_missing_sample_counts_as_zero()
    ensures stands { (m n : Signals) (t : ℕ) (s : Search) → ChangeAlikeUpTo t m n → StandsFor m t s → StandsFor n t s }
    ensures change { (m n : Signals) (t : ℕ) (s : Search) → ChangeAlikeUpTo (t + 1) m n → StandsFor m t s
        → tick_change m (t + 1) ≡ tick_change n (t + 1) }
{}

/// The search that stands for signals up to a tick is one.
pub fn one_search_stands()
    ensures { (m : Signals) (t : ℕ) (s r : Search) → StandsFor m t s → StandsFor m t r → s ≡ r }
{}

/// From level feeds some item or tick is always allowed next, until all items are given and the closed tick is the
/// horizon. The next item of a sensor that is waited for is never too far ahead of the closed tick, nor is any
/// once the horizon is closed: so a run that gives each item only then meets no refusal.
pub fn a_run_is_never_stuck_and_never_ahead()
    ensures stuck { (f : SensorLists) (p : Progress) → AreLevelUnderWay f p → CanGoOn f p ⊎ IsOver f p }
    ensures ahead { (f : SensorLists) (p : Progress) (s : Sensor) (x : Item) → AreLevelUnderWay f p → IsAwaited f p s x
        → IsAllowed (Give s x) p }
{}

/// What was given depends on no order but each sensor's own: steps that give each sensor the same items, in
/// whatever order they come and wherever ticks are closed between them, lead to the same lists.
pub fn arrival_order_is_free()
    ensures lists { (p : Progress) (steps : List CoreMove) (s : Sensor)
        → items_of s (after_steps p steps).given ≡ items_of s p.given ++ items_given s steps }
    ensures same { (p : Progress) (steps others : List CoreMove) → GiveTheSameItems steps others
        → (after_steps p steps).given ≡ (after_steps p others).given }
{}

/// What stands at a tick that may be closed is what the whole feeds have there, however far they have been given.
pub fn a_closed_tick_stands()
    ensures { (f : SensorLists) (p : Progress) (t : ℕ) → AreFeeds f → IsUnderWay f p → t ≤ horizon_of p.given
        → AgreeUpTo t (signals_of p.given) (signals_of f) }
{}
