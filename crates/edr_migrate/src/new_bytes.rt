//! The bytes of the new image.
ghost use Rattle.std.specs.Prelude.{◌≡◌};
ghost use Rattle.edr_image.specs.PartBytes.{pre_bytes};
ghost use Rattle.edr_migrate.specs.NewBytes.{bank_bytes, done_bytes, event_bytes, front_bytes, gate_byte};

use byteorder::{BigEndian, ByteOrder};
use edr_codec::{put_crash, put_pre};
use edr_image::places::{
    CRASH_PART, CRASH_SIZE, DONE_GATE, EVENT_GATE, FIRST_SLOT, LOCK_GATE, PRE_PART, PRE_SIZE,
    SLOT_COUNT,
};
use edr_image::{BankView, Header};
use edr_layout::{BANK_SIZE, FRONT_SIZE, OPEN_GATE, new_front};
use edr_record::{Crash, Pre, Record};

/// The front of an image with a count, which stands in the first slot.
pub(crate) fn front_bytes(header: Header, count: u32) -> [u8; FRONT_SIZE]
    ensures { result ≡ front_bytes header count }
{
    let mut front = new_front(header);
    front[FIRST_SLOT] = gate_byte(count != 0);
    let mut number = [0; 4];
    BigEndian::write_u32(&mut number, count);
    let at = FIRST_SLOT + SLOT_COUNT;
    front[at..at + 4].copy_from_slice(&number);
    front
}

// The bytes of a pre part.
fn pre_bytes(pre: &Pre) -> [u8; PRE_SIZE]
    ensures { result ≡ pre_bytes pre.now }
{
    let mut part = [0; PRE_SIZE];
    put_pre(pre, &mut part);
    part
}

// Those of a crash part, zeros where there is none.
fn crash_bytes(crash: &Option<Crash>) -> [u8; CRASH_SIZE]
    ensures { result ≡ done_bytes crash.now }
{
    let mut part = [0; CRASH_SIZE];
    if let Some(crash) = crash {
        put_crash(crash, &mut part);
    }
    part
}

// The byte of a gate.
fn gate_byte(is_open: bool) -> u8
    ensures { result ≡ gate_byte is_open }
{
    if is_open { OPEN_GATE } else { 0 }
}

// The bytes of a bank that holds an event.
fn event_bytes(event: &Record) -> [u8; BANK_SIZE]
    ensures { result ≡ event_bytes event.now }
{
    let mut bank = [0; BANK_SIZE];
    bank[EVENT_GATE] = OPEN_GATE;
    bank[LOCK_GATE] = gate_byte(event.locked);
    bank[DONE_GATE] = gate_byte(event.crash.is_some());
    bank[PRE_PART..CRASH_PART].copy_from_slice(&pre_bytes(&event.pre));
    bank[CRASH_PART..].copy_from_slice(&crash_bytes(&event.crash));
    bank
}

/// The bytes of a bank: zeros where it holds no event.
pub(crate) fn bank_bytes(view: &BankView) -> [u8; BANK_SIZE]
    ensures { result ≡ bank_bytes view.now }
{
    match view {
        BankView::Event(event) => event_bytes(event),
        BankView::Void | BankView::Damaged { .. } => [0; BANK_SIZE],
    }
}
