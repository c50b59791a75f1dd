//! The steps of a command, taken on a device so that a crash at any moment leaves each of them done or not done.
//!
//! What a step writes is one byte, a gate, or a part under a closed gate and then that gate. A write is followed by a
//! sync before the next one. So a bank never shows a part of which only some bytes were written.
//!
//! Each function is for one list of steps of the table of steps, and its clauses are the same for each: what they say of
//! bytes holds where the device tells them, nothing is pending, and the steps may be taken on the banks. At `Ok` the bytes
//! are those before with the writes of the steps; a crash at any moment leaves all bytes that no step writes.
#![tactic(auto)]

mod lists;
mod steps;

pub use crate::lists::{replace, replace_locked};
pub use crate::steps::{fill, finish, lock};
