//! The banks of a cycle, as a reader sees them beside the one who changes them. A [`LiveWriter`] shows what each command
//! did to a bank. A [`LiveReader`] reads all banks as they are after some first commands, with how many these are.
//!
//! Both ends stand on `left_right`, with two copies of what is shown. The reader takes one while the writer changes the
//! other. So a reader waits for nobody, and a writer waits only for a reader that is inside [`LiveReader::read`].
//!
//! What is shown is a list of commands, each of which puts one bank's new view or none. No view that is read has fewer
//! of them than the reader saw, or was told of, before.
#![tactic(auto)]

mod copy;
mod ends;
mod entry;
mod knowledge;
pub mod laws;
mod opening;
mod publishing;
mod reading;
mod rule;
mod shown;
mod writing;

pub use crate::ends::{Live, LiveReader, LiveWriter};
pub use crate::opening::open;
pub use crate::shown::{LiveView, ShownCommand};
pub use crate::writing::ShowRefused;
