//! A dialog over a source and a sink that count together, for what no clause says: that each reply is written before the next byte
//! is taken.
ghost use Rattle.std.specs.Prelude.{◌≤◌};
ghost use Rattle.edr_device.specs.Faults.{last_number};

use super::{kept_memory, words_of};
use edr_cli::{Status, command};
use edr_device::{Failed, Sink, Source};
use std::cell::Cell;
use std::test::Fail;

// Count, List, Bank 2 and Bye.
const REQUESTS: [u8; 13] = [1, 0, 0, 2, 0, 0, 3, 0, 1, 2, 4, 0, 0];

// How many bytes of replies are to be there, by how many bytes of the requests were taken.
const REPLIED: [usize; 14] = [0, 0, 0, 7, 7, 7, 12, 12, 12, 12, 16, 16, 16, 19];

// A source that gives the requests, and sees at each call how much was replied.
#[derive(Drop)]
struct Asking<'a> {
    taken: usize,
    replied: &'a Cell<usize>,
    is_late: bool,
    faults: u64,
    ghost faults_within: { faults ≤ last_number },
}

impl<'a> Source for Asking<'a> {
    ghost use Rattle.std.specs.Prelude.{None};

    ghost left = { λ a. None };

    ghost faults = { λ a. a.faults };

    ghost faults_fit = { λ a. a.faults_within };

    fn take(&mut self, into: &mut [u8]) -> Result<usize, Failed> {
        let Some(byte) = REQUESTS.get(self.taken) else {
            return Ok(0);
        };
        if REPLIED[self.taken] != self.replied.get() {
            self.is_late = true;
        }
        into[0] = *byte;
        self.taken += 1;
        Ok(1)
    }
}

// A sink that counts the bytes that are put.
#[derive(Drop)]
struct ReplyCounting<'a> {
    replied: &'a Cell<usize>,
    faults: u64,
    ghost faults_within: { faults ≤ last_number },
}

impl<'a> Sink for ReplyCounting<'a> {
    ghost use Rattle.std.specs.Prelude.{None};

    ghost content = { λ c. None };

    ghost faults = { λ c. c.faults };

    ghost faults_fit = { λ c. c.faults_within };

    fn put(&mut self, piece: &[u8]) -> Result<usize, Failed> {
        let replied = self.replied.get();
        self.replied.set(replied.wrapping_add(piece.len()));
        Ok(piece.len())
    }
}

#[test]
fn each_reply_is_written_first(rt: HostRuntime) -> Result<(), Fail> {
    let alloc = rt.alloc();
    let words = words_of(alloc, &["dialog"])?;
    let replied = Cell::new(0);
    let mut source = Asking {
        taken: 0,
        replied: &replied,
        is_late: false,
        faults: 0,
    };
    let mut sink = ReplyCounting {
        replied: &replied,
        faults: 0,
    };
    let mut memory = kept_memory(alloc)?;
    let status = command(alloc, &words, &mut source, &mut sink, &mut memory);
    assert_eq!(rt; status, Status::Ok);
    assert_eq!(rt; source.taken, 13);
    assert!(rt; !source.is_late);
    assert_eq!(rt; replied.get(), 19);
    Ok(())
}
