//! Traces that are made from a number: valid input of any length, for tests and measurements.
#![tactic(auto)]

mod cycles;
mod draws;
mod gathered;
pub mod laws;
mod pages;
mod plan;
mod traces;

pub use cycles::Generator;
pub use plan::TICKS;
pub use traces::{generate, generate_into};
