//! Reads a report back: what the rows of its table tell.
#![tactic(auto)]

mod event;
mod front;
pub mod laws;
mod reader;
mod reading;
mod values;

pub use reading::{Reading, ReportRefused, RowFault, read};
