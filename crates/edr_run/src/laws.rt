//! Laws of cycles and runs, each the contract of a function that does nothing.

ghost use Rattle.std.specs.Prelude.{◌≡◌, ◌↔◌, ℕ, None, List, Contains, map};
ghost use Rattle.edr_items.specs.SensorLists.{SensorLists};
ghost use Rattle.edr_definitions.specs.Commands.{commands};
ghost use Rattle.edr_image.specs.Banks.{Store};
ghost use Rattle.edr_image.specs.Kept.{AreKept};
ghost use Rattle.edr_image.specs.Order.{AreInOrder};
ghost use Rattle.edr_image.specs.Steps.{after, state_after, at_rest};
ghost use Rattle.edr_spell.specs.declared.CycleInput.{CycleInput};
ghost use Rattle.edr_run.specs.Keeps.{KeepsDone, KeepsLocked, LeavesLocked, StaysInWindow};
ghost use Rattle.edr_run.specs.Cycle.{End, IsCycle, ends, Outcome, IsRun, outcomes, steps_in};
ghost use Rattle.edr_run.specs.declared.live.LiveLine.{LiveLine};
ghost use Rattle.edr_run.specs.Live.{IsLiveRun, logs_told};
ghost use Rattle.edr_run.specs.Schedule.{HasFinished, HasReached, IsCut, IsLeftAfter, ScheduleState, steps_of_first};

/// The listed ends are those to which a cycle may come.
pub fn ends_are_listed()
    ensures { (c : CycleInput) (v : Store) (n : ℕ) (e : End) → Contains (ends c v n) e ↔ IsCycle c v n e }
{}

/// The listed outcomes are those to which a run may come.
pub fn outcomes_are_the_runs()
    ensures { (cs : List CycleInput) (v : Store) (n : ℕ) (o : Outcome) → Contains (outcomes cs v n) o ↔ IsRun cs v n o }
{}

/// A cycle issues its commands in order.
pub fn commands_are_in_order()
    ensures { (f : SensorLists) (n t : ℕ) → AreInOrder n 0 None (commands f n t) }
{}

/// A run leaves banks kept that were so.
pub fn runs_keep()
    ensures { (cs : List CycleInput) (v : Store) (n : ℕ) (o : Outcome) → AreKept v.banks n → IsRun cs v n o → AreKept o.store.banks o.count }
{}

/// A run leaves an event that is locked at first as it is, in its bank.
pub fn runs_leave_the_locked()
    ensures { (cs : List CycleInput) (v : Store) (n : ℕ) (o : Outcome) → IsRun cs v n o → LeavesLocked v o }
{}

/// After a run over banks that are kept, each event stood there before, or is one of the cycle that had its number.
pub fn runs_stay_in_window()
    ensures { (cs : List CycleInput) (v : Store) (n : ℕ) (o : Outcome) → AreKept v.banks n → IsRun cs v n o
        → StaysInWindow cs v n o }
{}

/// An event whose Lock stands in a log with a bank is locked in that bank at the end of the run.
pub fn runs_keep_what_they_locked()
    ensures locked { (cs : List CycleInput) (v : Store) (n : ℕ) (o : Outcome) → IsRun cs v n o → KeepsLocked cs o }
    // Where a Done follows in that log before another Take, the record has its crash part.
    ensures done { (cs : List CycleInput) (v : Store) (n : ℕ) (o : Outcome) → IsRun cs v n o → KeepsDone cs o }
{}

/// Whatever allowed steps of a cycle's schedule were taken, in whatever order, the banks are those after its first commands, as
/// many as were applied.
pub fn any_schedule()
    ensures { (f : SensorLists) (n : ℕ) (v : Store) (b : ScheduleState) → HasReached f n v b
        → b.banks ≡ state_after (at_rest v) (steps_of_first f n v b.applied) }
{}

/// After a cut they are these, or those of a stop of the cycle in the next command.
pub fn any_cut()
    ensures { (f : SensorLists) (n : ℕ) (v : Store) (b : ScheduleState) (w : Store) → HasReached f n v b → IsCut n b w
        → IsLeftAfter f n v b.applied w }
{}

/// Where all is given and closed and every issued command applied, they are those after the whole cycle.
pub fn whole_schedule()
    ensures { (f : SensorLists) (n : ℕ) (v : Store) (b : ScheduleState) → HasFinished f n v b
        → b.banks.store ≡ after v (steps_in f n v) }
{}

/// A run with live lines is a run. Each run has live lines, wherever its first cycle stands.
pub fn live_runs_are_the_runs()
    ensures run { (i : ℕ) (cs : List CycleInput) (v : Store) (n : ℕ) (o : Outcome) (lines : List LiveLine)
        → IsLiveRun i cs v n o lines → IsRun cs v n o }
    ensures lines { (i : ℕ) (cs : List CycleInput) (v : Store) (n : ℕ) (o : Outcome) → IsRun cs v n o
        → (lines : List LiveLine) × IsLiveRun i cs v n o lines }
{}

/// There is a live line for each cycle that ran, in order, with its place and the length of its log.
pub fn live_lines_tell_each_log()
    ensures { (i : ℕ) (cs : List CycleInput) (v : Store) (n : ℕ) (o : Outcome) (lines : List LiveLine)
        → IsLiveRun i cs v n o lines → map (λ l. (l.cycle, l.commands)) lines ≡ logs_told i o.reports }
{}
