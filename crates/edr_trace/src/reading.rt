//! A trace that is read as its bytes come.

ghost use Rattle.std.specs.Prelude.{◌≡◌, ◌≤◌, ◌<◌, ◌+◌, ◌^◌, ◌++◌, ℕ, List, [], length, take, IfOk, IfErr};
ghost use Rattle.edr_spell.specs.Spell.{Spell, largest_trace};
ghost use Rattle.edr_trace.specs.Told.{TellsRefusal};
ghost use Rattle.edr_trace.specs.Given.{Given, TakesBytes, TellsOfMore};

use crate::pieces::Pieces;
use crate::steps::{HowFar, Trace};
use crate::{ReadRefused, read_rest, take_lines};
use edr_spell::CycleInput;
use std::alloc::Global;
use std::io::Read;

/// The most bytes that `take_rows` leaves. A row that is taken as it comes has fewer.
pub const LONGEST_ROW: usize = 64;

// How the bytes are read that come next.
#[derive(Drop)]
enum Way {
    // Their rows are taken as they come.
    Rows,
    // They are put after these, which begin with a row that wasn't taken, and csv reads them all at the end.
    Csv(Pieces),
    // Not at all.
    Refused(ReadRefused),
}

/// What was read so far of a trace whose bytes come one part after the other. Rows are taken as they come, and their
/// bytes aren't kept. From a row on that is spelled as no writer does it all bytes are kept up to the end. After a row with
/// a fault no byte is kept.
///
/// ```
/// let mut reading = TraceReading::new(alloc);
/// let taken = reading.take_rows(b"on,0,\ncut");
/// assert_eq!(taken, 6);
/// assert_eq!(reading.take_rows(b"cut,0,\n"), 7);
/// let cycles = reading.finish(b"")?;
/// ```
#[derive(Drop)]
pub struct TraceReading {
    alloc: Global,
    trace: Trace,
    progress: HowFar,
    way: Way,
}

impl TraceReading {
    /// Nothing was read yet.
    pub fn new(alloc: Global) -> TraceReading
        ensures { Given [] result }
    {
        TraceReading {
            alloc,
            trace: Trace::new(alloc),
            progress: HowFar {
                rows: 0,
                begun: false,
            },
            way: Way::Rows,
        }
    }

    /// Takes the rows in front of these bytes, and answers how many bytes it took. What it leaves, at most 64 bytes, is to be given
    /// again in front of the bytes that follow. A fault is told by `finish` alone, and all bytes after it are taken.
    pub fn take_rows(&mut self, bytes: &[u8]) -> usize
        requires { (before : List ℕ) × Given before self.old × (length before + length bytes.now < 2 ^ 32) }
        ensures within { result ≤ length bytes.now }
        ensures left { length bytes.now ≤ result + 64 }
        ensures given { TakesBytes (take result bytes.now) self.old self.new }
        ensures refused { (e : ReadRefused) → self.old.way ≡ Way.Refused e
            → (result ≡ length bytes.now) × (self.new ≡ self.old) }
    {
        match self.take_front(bytes) {
            Ok(taken) => taken,
            Err(refused) => {
                self.way = Way::Refused(refused);
                bytes.len()
            }
        }
    }

    // The same, but a fault is told at once.
    fn take_front(&mut self, bytes: &[u8]) -> Result<usize, ReadRefused>
        requires { (before : List ℕ) × Given before self.old × (length before + length bytes.now < 2 ^ 32) }
        ensures within { IfOk result (λ n. n ≤ length bytes.now) }
        ensures left { IfOk result (λ n. length bytes.now ≤ n + LONGEST_ROW) }
        ensures given { IfOk result (λ n. TakesBytes (take n bytes.now) self.old self.new) }
        ensures refused { IfErr result (TellsOfMore bytes.now self.old) }
        ensures after { (e : ReadRefused) → self.old.way ≡ Way.Refused e
            → (result ≡ Ok (length bytes.now)) × (self.new ≡ self.old) }
    {
        match &mut self.way {
            Way::Rows => {}
            Way::Csv(pieces) => {
                pieces.push(bytes)?;
                return Ok(bytes.len());
            }
            Way::Refused(_) => return Ok(bytes.len()),
        }
        let left = take_lines(self.alloc, &mut self.trace, &mut self.progress, bytes)?;
        if left.len() <= LONGEST_ROW {
            return Ok(bytes.len() - left.len());
        }
        let mut pieces = Pieces::new(self.alloc);
        pieces.push(left)?;
        self.way = Way::Csv(pieces);
        Ok(bytes.len())
    }

    /// The cycles that all bytes spell, those that were taken and then these, or the first row that has a fault. Rows
    /// that weren't taken as they came are read now.
    pub fn finish(self, left: &[u8]) -> Result<Vec<CycleInput>, ReadRefused>
        requires { (before : List ℕ) × Given before self × (length before + length left.now ≤ largest_trace) }
        ensures spelled { IfOk result (λ v. (before : List ℕ) → Given before self
            → Spell (before ++ left.now) v.items) }
        ensures refused { IfErr result (λ e. (before : List ℕ) → Given before self
            → TellsRefusal (before ++ left.now) e) }
    {
        let TraceReading {
            alloc,
            trace,
            progress,
            way,
        } = self;
        match way {
            Way::Rows => read_rest(alloc, trace, progress, left),
            Way::Csv(pieces) => read_rest(alloc, trace, progress, pieces.chain(left)),
            Way::Refused(refused) => Err(refused),
        }
    }
}
