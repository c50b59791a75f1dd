//! What one ignition cycle does with the banks and the count, what it reports, and runs of several cycles: definitions, in
//! `specs/`, and their laws.
#![tactic(auto)]

pub mod laws;
mod live;

pub use crate::live::LiveLine;
