//! The words of a command line, and the job that they name.
#![tactic(auto)]

mod arguments;
mod jobs;
mod words;

pub use edr_image::{Choice, Header};
pub use jobs::Job;
pub use words::Words;

/// How a report is written.
#[derive(Clone, Copy, Debug, PartialEq, Eq)]
pub enum Form {
    /// A line for each value, `name: value`.
    Text,
    /// Comma-separated records `block,name,value`.
    Table,
}
