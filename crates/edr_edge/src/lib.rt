//! The trusted edge: standard input and output as a source and a sink, and the file `edr.nvm` as the memory of the records, as the
//! programs use them.
#![tactic(auto)]

mod counted;
mod file;
mod memory;

pub use crate::counted::Counted;
pub use crate::memory::FileNvm;
