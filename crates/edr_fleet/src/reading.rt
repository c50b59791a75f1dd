//! The report of a fleet whose frames come piece by piece.
ghost use Rattle.std.specs.Prelude.{◌≡◌, ◌≢◌, ◌+◌, ◌≤◌, ◌<◌, ◌^◌, ℕ, List, [], ◌++◌, drop, length, vec_len, IfOk, OnOk};
ghost use Rattle.edr_device.specs.Faults.{Rose};
ghost use Rattle.edr_device.specs.Told.{Told};
ghost use Rattle.edr_device.specs.Transfer.{GivesAtMost};
ghost use Rattle.edr_spell.specs.Spell.{largest_trace};
ghost use Rattle.edr_fleet.specs.Answers.{IsReportOf};
ghost use Rattle.edr_fleet.specs.Frames.{HasNoFrame};
ghost use Rattle.edr_fleet.specs.Reading.{Fills, FillsFrames, GainsFrames, GaveFrames, IsFrontOf, KeepsFrames, MayGain, TakesPortion};

use crate::beside::{Beside, report_beside};
use crate::filling::{Filled, fill};
use crate::frames::{FleetRefused, Framed, begins_with_frame, images_in};
use crate::parts::{FleetPart, Turn, with_totals};
use crate::threads::part_by;
use edr_device::{Source, TakeFault};
use std::alloc::{AllocError as OutOfMemory, Global};
use std::mem::replace;
use std::thread::Threads;

// The report of whole frames that follow one another, how many images they have, and how many bytes.
#[derive(Drop)]
struct Front {
    part: FleetPart,
    images: usize,
    end: usize,
}

// Moves what follows the first `end` bytes to the front.
fn drop_first(bytes: &mut Vec<u8>, end: usize)
    requires { end ≤ vec_len bytes.old }
    ensures { bytes.new.items ≡ drop end bytes.old.items }
{
    if end == 0 {
        return;
    }
    let left = bytes.len() - end;
    bytes.copy_within(end.., 0);
    bytes.truncate(left);
}

/// The report of the images whose frames came so far, by up to eight workers, and the bytes that
/// came after these. It holds some two million bytes, or one frame that is longer, and has memory
/// for as many that come next.
#[derive(Drop)]
pub struct FleetReading {
    alloc: Global,
    workers: u8,
    // The lines of the images so far, how many these are, and how many bytes their frames have.
    part: FleetPart,
    images: usize,
    reported: usize,
    // What came after them.
    held: Vec<u8>,
    // Memory that held what was reported, for what comes next.
    spare: Vec<u8>,
}

impl FleetReading {
    // Nothing was given yet.
    pub(crate) fn new(alloc: Global, workers: u8) -> FleetReading
        requires { (1 ≤ workers) × (workers ≤ 8) }
        ensures { GaveFrames [] result }
    {
        FleetReading {
            alloc,
            workers,
            part: FleetPart {
                lines: Vec::new(alloc),
                events: 0,
            },
            images: 0,
            reported: 0,
            held: Vec::new(alloc),
            spare: Vec::new(alloc),
        }
    }

    // The report of the whole frames at the front of what is held. Each worker has images that
    // follow one another, and a thread.
    fn front<R: Threads + Sync, P: Turn + Sync>(
        &self,
        rt: &R,
        turn: &P,
    ) -> Result<Front, OutOfMemory>
        requires workers { 1 ≤ self.now.workers }
        requires few { self.now.images + length self.now.held.items ≤ largest_trace + 1 }
        ensures { IfOk result (IsFrontOf self.now.images self.now.held.items) }
    {
        let Framed { images, rest } = images_in(self.alloc, &self.held)?;
        let part = part_by(rt, self.alloc, self.images, &images, self.workers, turn)?;
        Ok(Front {
            part,
            images: images.len(),
            end: self.held.len() - rest.len(),
        })
    }

    // The same, while `next` gets what follows these frames, and then what comes next of a source.
    fn front_beside<R: Threads + Sync, S: Source>(
        &self,
        rt: &R,
        source: &mut S,
        buffer: &mut [u8],
        next: &mut Vec<u8>,
        most: usize,
    ) -> Result<(Front, Filled), TakeFault>
        requires some { 1 ≤ length buffer.old }
        requires few { self.now.images + length self.now.held.items ≤ largest_trace + 1 }
        ensures front { IfOk result (λ r. IsFrontOf self.now.images self.now.held.items r.0) }
        ensures takes { TakesPortion most (λ r. r.1)
            (λ r. Fills r.1 (drop r.0.end self.now.held.items) next.new.items)
            (S.left source.old) (S.left source.new)
            (S.faults source.old) (S.faults source.new) result }
    {
        let Framed { images, rest } = images_in(self.alloc, &self.held)?;
        next.clear();
        next.extend_from_slice(rest)?;
        let Beside { part, filled } = report_beside(
            rt,
            self.alloc,
            self.images,
            &images,
            self.workers,
            source,
            buffer,
            next,
            most,
        );
        let filled = filled?;
        let front = Front {
            part: part?,
            images: images.len(),
            end: self.held.len() - rest.len(),
        };
        Ok((front, filled))
    }

    // Adds the report of frames that follow those so far.
    fn add(&mut self, front: &Front) -> Result<(), OutOfMemory>
        requires lines { front.now.part.events + self.old.part.events < 2 ^ 64 }
        requires images { self.old.images + front.now.images < 2 ^ 64 }
        requires bytes { self.old.reported + front.now.end < 2 ^ 64 }
        ensures lines { OnOk result (self.new.part.lines.items
            ≡ self.old.part.lines.items ++ front.now.part.lines.items) }
        ensures events { OnOk result (self.new.part.events
            ≡ self.old.part.events + front.now.part.events) }
        ensures images { OnOk result (self.new.images ≡ self.old.images + front.now.images) }
        ensures bytes { OnOk result (self.new.reported ≡ self.old.reported + front.now.end) }
        ensures workers { self.new.workers ≡ self.old.workers }
        ensures held { self.new.held ≡ self.old.held }
    {
        self.part.lines.extend_from_slice(&front.part.lines)?;
        self.part.events += front.part.events;
        self.images += front.images;
        self.reported += front.end;
        Ok(())
    }

    // Reports the whole frames at the front of what is held, and holds what follows them.
    fn report_held<R: Threads + Sync, P: Turn + Sync>(
        &mut self,
        rt: &R,
        turn: &P,
    ) -> Result<(), OutOfMemory>
        requires { MayGain 0 self.old }
        ensures given { OnOk result (KeepsFrames self.old self.new) }
        ensures cut { OnOk result (HasNoFrame self.new.held.items) }
    {
        let front = self.front(rt, turn)?;
        self.add(&front)?;
        drop_first(&mut self.held, front.end);
        Ok(())
    }

    // Takes the bytes that come next.
    pub(crate) fn take(&mut self, piece: &[u8]) -> Result<(), OutOfMemory>
        ensures { OnOk result (GainsFrames piece.now self.old self.new) }
    {
        self.held.extend_from_slice(piece)
    }

    // Takes what comes next of a source, at most so many bytes, and meanwhile reports the whole frames
    // at the front of what is held. With an error the reading is of no more use.
    pub(crate) fn take_on<R: Threads + Sync, S: Source>(
        &mut self,
        rt: &R,
        source: &mut S,
        buffer: &mut [u8],
        most: usize,
    ) -> Result<Filled, TakeFault>
        requires some { 1 ≤ length buffer.old }
        requires few { MayGain most self.old }
        ensures { TakesPortion most (λ f. f) (λ f. FillsFrames f self.old self.new)
            (S.left source.old) (S.left source.new)
            (S.faults source.old) (S.faults source.new) result }
    {
        if !begins_with_frame(&self.held) {
            return fill(source, buffer, &mut self.held, most);
        }
        let mut next = replace(&mut self.spare, Vec::new(self.alloc));
        let (front, filled) = self.front_beside(rt, source, buffer, &mut next, most)?;
        self.add(&front)?;
        self.spare = replace(&mut self.held, next);
        Ok(filled)
    }

    /// The report of the images whose frames were given. It is refused exactly where the bytes end
    /// inside a frame, unless memory runs out.
    pub fn finish<R: Threads + Sync, P: Turn + Sync>(
        self,
        rt: &R,
        turn: &P,
    ) -> Result<Vec<u8>, FleetRefused>
        requires few { (bytes : List ℕ) × GaveFrames bytes self × (length bytes ≤ largest_trace) }
        ensures { (bytes : List ℕ) → GaveFrames bytes self → IsReportOf bytes result }
    {
        let mut reading = self;
        reading.report_held(rt, turn)?;
        if !reading.held.is_empty() {
            return Err(FleetRefused::Truncated {
                offset: reading.reported as u32,
            });
        }
        Ok(with_totals(reading.part, reading.images)?)
    }
}
