//! Laws of whole calls, each the contract of a function that does nothing.
ghost use Rattle.std.specs.Prelude.{◌≡◌, ◌≤◌, ℕ, Some, All, List};
ghost use Rattle.edr_image.specs.Banks.{Store};
ghost use Rattle.edr_run.specs.Cycle.{Outcome, IsRun};
ghost use Rattle.edr_spell.specs.declared.CycleInput.{CycleInput};
ghost use Rattle.edr_audit.specs.declared.TheConstants.{MOST_STOPS};
ghost use Rattle.edr_audit.specs.Verdicts.{Agree, stops_in};
ghost use Rattle.edr_words.specs.declared.Form.TheVariants.{Text};
ghost use Rattle.edr_cli.specs.Outside.{Input, Memory};
ghost use Rattle.edr_cli.specs.Runs.{IsPowered, TheRun, ToldTraceOf, HaveSameReports};

/// Traces that spell the same cycles have the same reports over the same image.
pub fn reports_are_of_the_cycles()
    ensures { (cycles : List CycleInput) (i j : Input) → ToldTraceOf cycles i → ToldTraceOf cycles j
        → HaveSameReports i j }
{}

/// Where no stop is planned, a run comes to one outcome.
pub fn runs_without_a_stop_are_one()
    ensures { (cycles : List CycleInput) (v : Store) (n : ℕ) (a b : Outcome) → All IsPowered cycles
        → IsRun cycles v n a → IsRun cycles v n b → a ≡ b }
{}

/// What `replay` wrote in the form `text` is agreed to, where at most eight cycles of the trace may have two ends.
pub fn replayed_is_agreed()
    ensures { (trace before after text : List ℕ) (new : Memory)
        (run : TheRun Text trace before new text)
        → stops_in run.cycles ≤ MOST_STOPS → new.content ≡ Some after → Agree before trace after text }
{}
