//! Laws of what a run reaches that ends early, each the contract of a function that does nothing.

ghost use Rattle.std.specs.Prelude.{◌≡◌, ℕ, true, List};
ghost use Rattle.edr_record.specs.declared.Record.{Record};
ghost use Rattle.edr_image.specs.Banks.{Store};
ghost use Rattle.edr_image.specs.Kept.{AreKept};
ghost use Rattle.edr_spell.specs.declared.CycleInput.{CycleInput};
ghost use Rattle.edr_replay.specs.Reached.{IsOfCycles, IsReached, StandsAt};

/// Banks that were kept at first are kept wherever the run ends.
pub fn reached_keeps()
    ensures { (cs : List CycleInput) (v w : Store) (n m : ℕ)
        → AreKept v.banks n → IsReached cs v n w m → AreKept w.banks m }
{}

/// An event that is locked at first stands in its bank as it was, wherever the run ends.
pub fn reached_leaves_the_locked()
    ensures { (cs : List CycleInput) (v w : Store) (n m i : ℕ) (r : Record)
        → IsReached cs v n w m
        → StandsAt i r v.banks → r.locked ≡ true → StandsAt i r w.banks }
{}

/// Over banks that are kept, each event stood there at first, or is one of the cycles, wherever the run ends.
pub fn reached_stays_in_window()
    ensures { (cs : List CycleInput) (v w : Store) (n m i : ℕ) (r : Record)
        → AreKept v.banks n → IsReached cs v n w m
        → StandsAt i r w.banks → IsOfCycles cs v.banks n i r }
{}
