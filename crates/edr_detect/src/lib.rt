//! The selection of events, tick by tick: which stretches of a cycle the recorder reports.
#![tactic(auto)]

mod detector;
mod latest;
mod stage;
mod windows;

pub use detector::Detect;
pub use stage::Change;
