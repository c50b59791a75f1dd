//! Laws of the generator, each the contract of a function that does nothing.
ghost use Rattle.std.specs.Prelude.{◌≡◌, ℕ, length, pos};
ghost use Rattle.edr_spell.specs.Spell.{Spell};
ghost use Rattle.edr_gen.specs.declared.plan.TheConstants.{SLOW_SAID, TICKS};
ghost use Rattle.edr_gen.specs.Traces.{generated_cycles, generated_trace};

/// A generated trace spells its cycles, as many as were asked for.
pub fn generated_traces_are_spelled()
    ensures spelled { (number cycles : ℕ) → Spell (generated_trace number cycles) (generated_cycles number cycles) }
    ensures number { (number cycles : ℕ) → length (generated_cycles number cycles) ≡ cycles }
{}

/// A generated cycle has 18 s, in ticks.
pub fn a_cycle_has_18_seconds()
    ensures { TICKS ≡ 18_000 }
{}

/// At each 100th tick of a generated cycle the slow sensors say 60 km/h, 20 per cent, brake off, belt on and lamp off.
pub fn slow_sensors_say_this()
    ensures { SLOW_SAID ≡ record { speed = pos 60; throttle = pos 20; brake = pos 0; belt = pos 1; lamp = pos 0 } }
{}
