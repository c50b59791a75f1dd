//! The words that the threads of a recorder share.
//!
//! The board has three. The recorder posts the gate and the last closed tick, the committer posts that it has stopped, and
//! any number of watches read. No word ever falls.
//!
//! The [`Freeze`] has more, by which the recorder and the slow sensors agree on one time zero. The recorder grants the
//! moments up to which a sensor may keep items, and asks for the parts of a time zero; each sensor marks up to which moment
//! it has kept. While an ask is open, each mark has reached its zero, and no sensor keeps an item that is more than 1 s past
//! it. Neither what is granted nor a mark ever falls.
//!
//! Posts and reads wait for nobody; [`Watch::wait_gate`], [`Watch::sleep_at`] and [`Watch::rest`] alone wait. The first two
//! sleep in the system until they are woken, the third until a [`Bell`] rings, or a millisecond.
#![tactic(auto)]

ghost use Rattle.std.specs.Prelude.{◌≡◌, ◌≢◌, ◌<◌, List};
ghost use Rattle.edr_items.specs.declared.Sensor.{Sensor};
ghost use Rattle.edr_items.specs.declared.Sensor.TheVariants.{Along, Across, Restraint};
ghost use Rattle.edr_items.specs.Sensor.{IsSlow};
ghost use Rattle.edr_board.specs.declared.freeze_seats.TheConstants.{ASKED};
ghost use Rattle.edr_board.specs.declared.freeze_view.TheConstants.{FREEZE_WORDS};
ghost use Rattle.edr_board.specs.Rule.{BoardState, IsBoard, opening};
ghost use Rattle.edr_board.specs.Steps.{SeatsLead, KeepsTheRule};
ghost use Rattle.edr_board.specs.FreezeRule.{FreezeMoment, IsFreeze, freeze_opening};
ghost use Rattle.edr_board.specs.FreezeSteps.{FreezeLeads, KeepsTheFreeze};
ghost use Rattle.edr_board.specs.FreezeViews.{place_of};

mod bells;
mod freeze_rule;
mod freeze_seats;
mod freeze_view;
mod rule;
mod seats;
mod status;
mod view;

pub use crate::bells::Bell;
pub use crate::freeze_seats::{Asker, FIRST_GRANT, Freeze, FreezeOpened, Keeper, Keepers};
pub use crate::seats::{Board, CommitterSeat, Opened, RecorderSeat, Watch};
pub use crate::status::{BoardStatus, GateWord};

/// The rule of a board holds as it is opened. Whichever seats step then, in whatever order, it goes on to hold, and no word
/// falls.
pub fn no_word_falls()
    ensures opened { IsBoard opening }
    ensures steps { (a b : BoardState) (between : List BoardState)
        → IsBoard a → SeatsLead a between b → KeepsTheRule a b }
{}

/// The rule of a freeze holds as it is opened. Whichever seats step then, in whatever order, it goes on to hold, and neither
/// what is granted nor a mark falls.
pub fn no_mark_falls()
    ensures opened { IsFreeze freeze_opening }
    ensures steps { (a b : FreezeMoment) (between : List FreezeMoment)
        → IsFreeze a → FreezeLeads a between b → KeepsTheFreeze a b }
{}

/// Each sensor but the two axes and the restraints is a slow one, and each slow one has a word of marks of its own, past the
/// words granted and asked. So a sensor that is added has to be given its place first.
pub fn each_slow_sensor_has_a_word()
    ensures slow { (s : Sensor) → s ≢ Along → s ≢ Across → s ≢ Restraint → IsSlow s }
    ensures word { (s : Sensor) → IsSlow s → (ASKED < place_of s) × (place_of s < FREEZE_WORDS) }
    ensures own { (s t : Sensor) → IsSlow s → IsSlow t → place_of s ≡ place_of t → s ≡ t }
{}
