//! The outside of the recorder: what it reads from, and what it writes to.
#![tactic(auto)]

mod calls;
mod device;
mod fused;
mod mem_nvm;
mod mem_sink;
mod mem_source;
mod moment;
mod pieces;
mod stream;
mod transfer;

pub use crate::device::{LONGEST_WRITE, Nvm, a_write_is_short};
pub use crate::fused::Fused;
pub use crate::mem_nvm::MemNvm;
pub use crate::mem_sink::MemSink;
pub use crate::mem_source::MemSource;
pub use crate::pieces::{write_gated, write_settled};
pub use crate::stream::{Failed, Sink, Source};
pub use crate::transfer::{TakeFault, piece_len, put_all, take_all};
