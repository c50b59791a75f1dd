//! Laws of a page, each the contract of a function that does nothing.

ghost use Rattle.std.specs.Prelude.{◌≡◌, ◌≤◌, ◌<◌, ◌+◌, ℕ, ℤ, true, Option, List, All, int_le};
ghost use Rattle.edr_record.specs.{Parts.{CrashPart, PrePart}, declared.{Key.Key, Profile.Profile}};
ghost use Rattle.edr_report.specs.Report.{events_lines, found_records, run_lines};
ghost use Rattle.edr_image.specs.declared.Found.{Found};
ghost use Rattle.edr_drawing.specs.declared.{before.ChartLane.ChartLane, scales.{CarAxis.CarAxis, Scale.Scale}};
ghost use Rattle.edr_drawing.specs.{Before.lane_y, Scales.{change_y, is_silent, scale_of, span_of}, Tables.{by_time, row_of}};
ghost use Rattle.edr_drawing.specs.Laws.{AreFirsts, HasMarks, HasNoCurve, HasPlaceFact, HasPoints, HasRows, HasSlotRows, IsInPlot, IsTimeInPlot, OfEvents, OfPages, shown_row};

/// Each line of an event, and each line of a cycle, has its row on the page, word for word; but the lists of speed,
/// throttle and service brake stand in the table by time.
#[tactic(auto, using(crate::proofs::PartLemmas::event_on_page, crate::proofs::PartLemmas::cycle_on_page))]
pub fn each_line()
    ensures events { OfPages (λ reports found digest page. HasRows shown_row (events_lines 1 (found_records found)) page) }
    ensures cycles { OfPages (λ reports found digest page. HasRows row_of (run_lines 1 reports) page) }
{}

/// In the table by time each slot of an event has its row, with its time and its values; an absent one is said to be absent.
#[tactic(auto, using(crate::proofs::PartLemmas::slot_of_table, crate::proofs::PartLemmas::slots_on_page))]
pub fn each_slot()
    ensures table { (n : ℕ) (p : PrePart) → HasSlotRows p (by_time n p) }
    ensures page { OfPages (λ reports found digest page. OfEvents found (λ p. HasSlotRows p page)) }
{}

/// The sheet of a second event names each event of the report that may be the first one of its pair, and no other.
pub fn each_first()
    ensures page { OfPages (λ reports found digest page. OfEvents found (λ p. HasPlaceFact found p page)) }
    ensures firsts { (found : List Found) (key : Key) (after : ℕ) → AreFirsts found key after }
{}

/// An axis without any sample has no curve, no mark and no greatest change: words stand in their place.
pub fn no_sample()
    ensures { (s : Scale) (c : CrashPart) (a : CarAxis) → is_silent c a ≡ true → HasNoCurve s c a }
{}

/// The marks of a lane are those of the slots that are there, in order, and no other; and so are the points of its path.
#[tactic(auto, using(crate::proofs::PresentLemmas::marks_present, crate::proofs::PresentLemmas::points_present))]
pub fn no_absent()
    ensures marks { (f : Profile) (l : ChartLane) (vs : List (Option ℕ)) → HasMarks f l vs }
    ensures path { (f : Profile) (l : ChartLane) (vs : List (Option ℕ)) → HasPoints f l vs }
{}

/// A greater value never stands lower.
#[tactic(auto, using(crate::proofs::PlotLemmas::slot_lower, crate::proofs::PlotLemmas::change_lower))]
pub fn one_place()
    ensures slots { (l : ChartLane) (v w : ℕ) → 1 ≤ l.top → v ≤ w → lane_y l w ≤ lane_y l v }
    ensures changes { (s : Scale) (v w : ℤ) → 1 ≤ s.top + s.bottom → int_le v w ≡ true → change_y s w ≤ change_y s v }
{}

/// Each change of speed of a crash part stands in the plot, and so does each time up to the last one across.
pub fn all_in_the_plot()
    ensures along { (c : CrashPart) → All (IsInPlot (scale_of c)) c.along }
    ensures across { (c : CrashPart) → All (IsInPlot (scale_of c)) c.across }
    ensures max_along { (c : CrashPart) → IsInPlot (scale_of c) c.max_along.kmh }
    ensures max_across { (c : CrashPart) → IsInPlot (scale_of c) c.max_across.kmh }
    ensures times { (c : CrashPart) (t : ℕ) → t ≤ span_of c → IsTimeInPlot (scale_of c) t }
{}

/// Every byte of a page is below 128, whatever the numbers of its report are.
pub fn plain()
    ensures { OfPages (λ reports found digest page. All (λ b. b < 256) digest → All (λ b. b < 128) page) }
{}
