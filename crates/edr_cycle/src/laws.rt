//! Laws of a cycle that is stopped, each the contract of a function that does nothing.

ghost use Rattle.std.specs.Prelude.{◌≤◌, ℕ, List};
ghost use Rattle.edr_items.specs.SensorLists.{SensorLists};
ghost use Rattle.edr_image.specs.Banks.{Store};
ghost use Rattle.edr_image.specs.Calls.{IsStop};
ghost use Rattle.edr_image.specs.Steps.{BankStep};
ghost use Rattle.edr_run.specs.Cycle.{steps_in};
ghost use Rattle.edr_cycle.specs.Commits.{IsAfterFirst};
ghost use Rattle.edr_cycle.specs.Ends.{AreDoneByCall, KeepsEvents};

/// What is acknowledged is there with all its steps, wherever a cycle is stopped; the next command is there whole, with
/// its first steps or not at all; and no other is.
pub fn what_is_acknowledged_is_there()
    ensures { (f : SensorLists) (n k : ℕ) (v : Store) (done : List BankStep)
        → IsStop (steps_in f n v) k done → AreDoneByCall f n v k done }
{}

/// After any first steps of a cycle each event stood in its bank before or is of that cycle, and what was locked is there.
pub fn first_steps_keep_events()
    ensures { (f : SensorLists) (n : ℕ) (v : Store) (image : List ℕ) → 1 ≤ n
        → IsAfterFirst (steps_in f n v) (record { store = v; count = n }) image
        → KeepsEvents f n v image }
{}
