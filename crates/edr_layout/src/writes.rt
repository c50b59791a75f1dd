//! The writes of a step, and those of a start, as data.
ghost use Rattle.std.specs.Prelude.{◌≡◌, ◌+◌, ◌-◌, ◌≤◌, ◌<◌, ◌^◌, ◌++◌, [], ◌∷◌, replicate, if◌then◌else◌};
ghost use Rattle.byteorder.specs.Endian.{big_number};
ghost use Rattle.edr_record.specs.Bounds.{IsCrash, IsPre};
ghost use Rattle.edr_image.specs.declared.places.TheConstants.{CRASH_PART, DONE_GATE, LOCK_GATE, OPEN_GATE, PRE_PART, SLOT_COUNT, SLOT_SIZE};
ghost use Rattle.edr_image.specs.Image.{place_of, writes_of};
ghost use Rattle.edr_image.specs.PartBytes.{crash_bytes, pre_bytes};
ghost use Rattle.edr_image.specs.Steps.{Done, Erase, Fill, Lock};
ghost use Rattle.edr_layout.specs.Writes.{gated_writes, mark_writes};

use crate::BankNumber;
use byteorder::{BigEndian, ByteOrder};
use edr_codec::{put_crash, put_pre};
use edr_image::places::{
    CRASH_PART, CRASH_SIZE, DONE_GATE, LOCK_GATE, OPEN_GATE, PRE_PART, PRE_SIZE, SLOT_COUNT,
};
use edr_record::{Crash, Pre};

/// One byte, and where it is written.
#[derive(Clone, Copy, Debug, PartialEq, Eq)]
pub struct ByteWrite {
    pub at: u32,
    pub byte: u8,
}

/// A piece, where it is written, and the gate that is opened after it.
#[derive(Clone, Copy, Debug, PartialEq, Eq)]
pub struct Gated<const SIZE: usize> {
    pub at: u32,
    pub piece: [u8; SIZE],
    pub gate: u32,
}

// The closed gates of lock and done, the zeros after them, and the pre part.
const FILLING: usize = PRE_PART - LOCK_GATE + PRE_SIZE;

/// The write that makes a bank void.
#[tactic(auto, unfolding(edr_image::specs::Image::writes_of))]
pub fn erase_write(bank: BankNumber) -> ByteWrite
    ensures at { result.at ≡ place_of bank }
    ensures byte { result.byte ≡ 0 }
    ensures step { mark_writes result ≡ writes_of (Erase bank) }
{
    ByteWrite {
        at: bank.place(),
        byte: 0,
    }
}

/// The write that locks the event of a bank.
#[tactic(auto, unfolding(edr_image::specs::Image::writes_of))]
pub fn lock_write(bank: BankNumber) -> ByteWrite
    ensures at { result.at ≡ place_of bank + LOCK_GATE }
    ensures byte { result.byte ≡ OPEN_GATE }
    ensures step { mark_writes result ≡ writes_of (Lock bank) }
{
    ByteWrite {
        at: bank.place() + LOCK_GATE as u32,
        byte: OPEN_GATE,
    }
}

// What is written before the gate of a filled bank is opened.
fn filling(pre: &Pre) -> [u8; FILLING]
    ensures bytes { result ≡ replicate (PRE_PART - LOCK_GATE) 0 ++ pre_bytes pre.now }
    ensures within { IsPre pre.now }
{
    // The proof learns here that the part is within its bounds, so that its bytes read back.
    let _ = &pre.key;
    let mut part = [0; PRE_SIZE];
    put_pre(pre, &mut part);
    let mut piece = [0; FILLING];
    piece[PRE_PART - LOCK_GATE..].copy_from_slice(&part);
    piece
}

/// The writes that put an event's pre part into a void bank, neither locked nor done.
#[tactic(auto, unfolding(edr_image::specs::Image::writes_of))]
pub fn fill_writes(bank: BankNumber, pre: &Pre) -> Gated<FILLING>
    ensures at { result.at ≡ place_of bank + LOCK_GATE }
    ensures piece { result.piece ≡ replicate (PRE_PART - LOCK_GATE) 0 ++ pre_bytes pre.now }
    ensures gate { result.gate ≡ place_of bank }
    ensures step { gated_writes result ≡ writes_of (Fill bank pre.now) }
    ensures within { IsPre pre.now }
{
    let at = bank.place();
    Gated {
        at: at + LOCK_GATE as u32,
        piece: filling(pre),
        gate: at,
    }
}

// What is written before the gate of an event's crash part is opened.
fn ending(crash: &Crash) -> [u8; CRASH_SIZE]
    ensures bytes { result ≡ crash_bytes crash.now }
    ensures within { IsCrash crash.now }
{
    // The proof learns here that the part is within its bounds, so that its bytes read back.
    let _ = &crash.end;
    let mut part = [0; CRASH_SIZE];
    put_crash(crash, &mut part);
    part
}

/// The writes that put an event's crash part beside its pre part.
#[tactic(auto, unfolding(edr_image::specs::Image::writes_of))]
pub fn done_writes(bank: BankNumber, crash: &Crash) -> Gated<CRASH_SIZE>
    ensures at { result.at ≡ place_of bank + CRASH_PART }
    ensures piece { result.piece ≡ crash_bytes crash.now }
    ensures gate { result.gate ≡ place_of bank + DONE_GATE }
    ensures step { gated_writes result ≡ writes_of (Done bank crash.now) }
    ensures within { IsCrash crash.now }
{
    let at = bank.place();
    Gated {
        at: at + CRASH_PART as u32,
        piece: ending(crash),
        gate: at + DONE_GATE as u32,
    }
}

/// The write that closes the slot that begins at a place. A torn write of a closed gate could open it, so the byte beside
/// it is written then.
pub fn closing_write(slot: u32, is_open: bool) -> ByteWrite
    requires { slot + SLOT_SIZE < 2 ^ 32 }
    ensures at { result.at ≡ (if is_open then slot else slot + 1) }
    ensures byte { result.byte ≡ 0 }
{
    ByteWrite {
        at: if is_open { slot } else { slot + 1 },
        byte: 0,
    }
}

/// The writes that put a count into the slot that begins at a place.
pub fn count_writes(slot: u32, count: u32) -> Gated<4>
    requires { slot + SLOT_SIZE < 2 ^ 32 }
    ensures at { result.at ≡ slot + SLOT_COUNT }
    ensures number { big_number 4 result.piece ≡ count }
    ensures gate { result.gate ≡ slot }
{
    let mut piece = [0; 4];
    BigEndian::write_u32(&mut piece, count);
    Gated {
        at: slot + SLOT_COUNT as u32,
        piece,
        gate: slot,
    }
}
