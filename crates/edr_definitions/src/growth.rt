//! Laws of what the recorder keeps from tick to tick, each the contract of a function that does nothing.

ghost use Rattle.std.specs.Prelude.{◌≡◌, ℕ, ◌+◌, ◌≤◌, List};
ghost use Rattle.edr_items.specs.declared.Item.{Item};
ghost use Rattle.edr_definitions.specs.Signals.{Signals};
ghost use Rattle.edr_definitions.specs.Selection.{close_of};
ghost use Rattle.edr_definitions.specs.Parts.{slot, crash_part};
ghost use Rattle.edr_definitions.specs.OpenCrash.{crash_at, begin_crash, finish_crash};
ghost use Rattle.edr_definitions.specs.Rings.{samples, newest};
ghost use Rattle.edr_definitions.specs.Premises.{crash_past, AgreeFrom, HasRoomFor};

/// The crash part that is fed tick by tick from time zero up to the close is the one of the definition.
pub fn a_crash_part_grows_tick_by_tick()
    ensures zero { (m : Signals) (z : ℕ) → begin_crash z (m.fired z) ≡ crash_at m z z }
    ensures next { (m : Signals) (z t : ℕ) → z ≤ t → crash_past m (t + 1) (crash_at m z t) ≡ crash_at m z (t + 1) }
    ensures finish { (m : Signals) (z e : ℕ) → z ≤ e → finish_crash (crash_at m z (close_of z e)) e ≡ crash_part m z e }
{}

/// An open crash part depends on no sample up to time zero and on no sample after its tick.
pub fn a_crash_part_sees_its_ticks_alone()
    ensures { (m n : Signals) (z t : ℕ) → z ≤ t → AgreeFrom z t m n → crash_at m z t ≡ crash_at n z t }
{}

/// The newest n samples of a list give its slots, where the newest of them is less than n - 100 ms past the slot: moments
/// rise, so what they leave out is at least n ms older than the newest, and more than 100 ms older than the slot.
pub fn a_ring_gives_the_slots()
    ensures { (n t : ℕ) (xs : List Item) → HasRoomFor n t xs → slot (newest n (samples xs)) t ≡ slot xs t }
{}
