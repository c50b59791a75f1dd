//! The two parts of a record as bytes: each part has one spelling, and every byte of it is checked. Numbers are
//! big-endian, signed ones in two's complement.
#![tactic(auto)]

mod crash;
pub mod laws;
mod old;
mod pieces;
mod pre;
mod rows;

pub use crash::{put_crash, read_crash, read_crash_by};
pub use old::{read_old_crash, read_old_pre};
pub use pre::{put_pre, read_pre, read_pre_by};

/// Why bytes are no part: the bytes before `offset` begin a part, and those up to and with it begin none.
#[derive(Clone, Copy, Debug, PartialEq, Eq)]
pub struct Damaged {
    /// The place in the part, from 0.
    pub offset: u16,
    /// The byte that stands there.
    pub found: u8,
}
