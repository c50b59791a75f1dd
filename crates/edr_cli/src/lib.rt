//! The top call of recorder and retrieval tool: from the words of a command line, the bytes of a
//! trace and the memory of the records to the bytes that are printed, the memory afterwards, and
//! the status that the program ends with.
#![tactic(auto)]

mod audit;
mod commands;
mod dialog;
mod drives;
mod endings;
mod fault;
mod fleet;
mod format;
mod generate;
mod large;
pub mod laws;
mod live;
mod migrate;
mod pieces;
mod replay;
mod report;
mod status;
mod traces;

pub use commands::command;
pub use drives::drive;
pub use edr_words::Words;
pub use fault::Fault;
pub use status::Status;
