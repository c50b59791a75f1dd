//! Laws of the definitions, each the contract of a function that does nothing.

ghost use Rattle.std.specs.Prelude.{◌≡◌, ℕ, ◌⊎◌, ◌↔◌, List, ◌++◌, [], ◌∷◌, Some, Ok, map};
ghost use Rattle.std.specs.List.{AllByRecursion};
ghost use Rattle.edr_spell.specs.declared.CycleInput.{CycleInput};
ghost use Rattle.edr_spell.specs.declared.Row.{Row};
ghost use Rattle.edr_spell.specs.declared.Row.TheVariants as row;
ghost use Rattle.edr_spell.specs.declared.TraceRefused.{TraceRefused};
ghost use Rattle.edr_spell.specs.Rows.{row_of, IsRow};
ghost use Rattle.edr_spell.specs.Samples.{Sample, row_for};
ghost use Rattle.edr_spell.specs.Spell.{RecordsOf, SpellCycles, Spell, IsCycleInput};
ghost use Rattle.edr_spell.specs.Fault.{open_after, FirstFault};
ghost use Rattle.edr_spell.specs.Lines.{HasNoMark, IsPlain, TraceLine, fields_in, line_for, lines_text, text_of};

/// All bytes spell one list of cycles, or have one first fault, and never both.
pub fn spelled_or_refused()
    ensures either { (bytes : List ℕ) → ((cycles : List CycleInput) × Spell bytes cycles) ⊎ ((t : TraceRefused) × FirstFault bytes t) }
    ensures apart { (bytes : List ℕ) (cycles : List CycleInput) (t : TraceRefused) → Spell bytes cycles → FirstFault bytes t → ⊥ }
    ensures one_spelled { (bytes : List ℕ) (a b : List CycleInput) → Spell bytes a → Spell bytes b → a ≡ b }
    ensures one_fault { (bytes : List ℕ) (t u : TraceRefused) → FirstFault bytes t → FirstFault bytes u → t ≡ u }
{}

/// Of each cycle that is spelled the feeds are such as sensors may give, and level, and the numbers are in their bounds. A
/// cycle whose start is stopped has no items.
pub fn spelled_cycles_are_level()
    ensures { (bytes : List ℕ) (cycles : List CycleInput) → Spell bytes cycles → AllByRecursion IsCycleInput cycles }
{}

/// Lines without quotes are read as their fields, if no byte order mark stands at the front.
pub fn lines_are_records()
    ensures { (lines : List TraceLine) → AllByRecursion IsPlain lines
        → HasNoMark (lines_text lines) → RecordsOf (lines_text lines) (map fields_in lines) }
{}

/// The line of a row is read as that row, and only rows with numbers in their bounds are read.
pub fn rows_are_read()
    ensures written { (r : Row) → IsRow r → row_of (fields_in (line_for r)) ≡ Ok r }
    ensures bounds { (fields : List (List ℕ)) (r : Row) → row_of fields ≡ Ok r → IsRow r }
{}

/// Rows that are written line by line are read, and spell what they spell.
pub fn written_rows_are_read()
    ensures { (rows : List Row) (cycles : List CycleInput) → AllByRecursion IsRow rows → SpellCycles rows cycles → Spell (text_of rows) cycles }
{}

/// A cycle is open exactly where the last row that is no sensor row is `on,0,`, and its sensor rows are those after it.
pub fn open_after_the_last_on()
    ensures { (rows : List Row) (xs : List Sample) → (open_after rows ≡ Some xs) ↔ ((front : List Row) × (rows ≡ front ++ (row.On 0 ∷ map row_for xs))) }
{}
