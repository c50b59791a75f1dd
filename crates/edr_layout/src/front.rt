//! The front of an image: its header and the two slots of its count. Numbers are big-endian.
ghost use Rattle.std.specs.Prelude.{◌≡◌, ◌+◌, ◌≤◌, ◌<◌, Some, None, IfOk, IfErr, length, take};
ghost use Rattle.edr_image.specs.declared.places.TheConstants.{FRONT_SIZE, SECOND_SLOT, SLOT_SIZE};
ghost use Rattle.edr_image.specs.Image.{choice_byte, count_of, header_of, header_refusal, header_refusal_by, is_open, new_image, not_magic, older_slot, place_of_slot, slot_count};

use byteorder::{BigEndian, ByteOrder};
use edr_image::forms::{Layout, VERSION_2};
use edr_image::places::{
    BANKS, CHOICE, FEWEST_BANKS, FIRST_SLOT, FRONT_SIZE, OPEN_GATE, SECOND_SLOT, SLOT_COUNT,
    SLOT_SIZE, VERSION,
};
use edr_image::{Choice, Header, HeaderRefused};

/// The first bytes of every image.
pub const MAGIC: [u8; 8] = *b"EDRIMAGE";

/// The first place at which the magic doesn't stand.
pub fn not_magic(bytes: &[u8]) -> Option<usize>
    requires { 8 ≤ length bytes.now }
    ensures { result ≡ not_magic bytes.now }
{
    (0..8).find(|k| bytes[*k] != MAGIC[*k])
}

/// Whether the gate at a place is open.
pub fn is_open(bytes: &[u8], at: usize) -> bool
    requires { at < length bytes.now }
    ensures { result ≡ is_open bytes.now at }
{
    bytes[at] == OPEN_GATE
}

/// What the first bytes of an image of a layout say, or why they are refused.
#[tactic(auto, unfolding(edr_image::specs::Image::header_refusal_by))]
pub(crate) fn read_header_by(
    bytes: &[u8; FRONT_SIZE],
    layout: &Layout,
) -> Result<Header, HeaderRefused>
    ensures read { IfOk result (λ h. h ≡ header_of bytes.now) }
    ensures accepted { IfOk result (λ _. header_refusal_by layout.now bytes.now ≡ None) }
    ensures refused { IfErr result (λ e. header_refusal_by layout.now bytes.now ≡ Some e) }
{
    if let Some(k) = not_magic(bytes) {
        return Err(HeaderRefused::NotFormatted {
            offset: k as u32,
            found: bytes[k],
        });
    }
    let version = BigEndian::read_u16(&bytes[VERSION..]);
    let banks = bytes[BANKS];
    let choice = bytes[CHOICE];
    if version != layout.version {
        return Err(HeaderRefused::Version { found: version });
    }
    if banks < FEWEST_BANKS || layout.most_banks < banks {
        return Err(HeaderRefused::Banks { found: banks });
    }
    match choice {
        0 => Ok(Header {
            banks,
            choice: Choice::Keep,
        }),
        1 => Ok(Header {
            banks,
            choice: Choice::Overwrite,
        }),
        _ => Err(HeaderRefused::Choice { found: choice }),
    }
}

/// What the first bytes of an image say, or why they are refused: of several causes the one that
/// [`HeaderRefused`] has first.
pub fn read_header(bytes: &[u8; FRONT_SIZE]) -> Result<Header, HeaderRefused>
    ensures read { IfOk result (λ h. h ≡ header_of bytes.now) }
    ensures accepted { IfOk result (λ _. header_refusal bytes.now ≡ None) }
    ensures refused { IfErr result (λ e. header_refusal bytes.now ≡ Some e) }
{
    read_header_by(bytes, &VERSION_2)
}

fn choice_byte(choice: Choice) -> u8
    ensures { result ≡ choice_byte choice }
{
    match choice {
        Choice::Keep => 0,
        Choice::Overwrite => 1,
    }
}

/// The front of a new image.
#[tactic(auto, using(crate::proofs::NewFrontLemmas::front_is))]
pub fn new_front(header: Header) -> [u8; FRONT_SIZE]
    ensures { result ≡ take FRONT_SIZE (new_image header) }
{
    let mut bytes = [0; FRONT_SIZE];
    bytes[..8].copy_from_slice(&MAGIC);
    bytes[VERSION..BANKS].copy_from_slice(&VERSION_2.version.to_be_bytes());
    bytes[BANKS] = header.banks;
    bytes[CHOICE] = choice_byte(header.choice);
    bytes
}

// The count of the slot that begins at a place, 0 where the slot is closed.
fn slot_count(bytes: &[u8; FRONT_SIZE], at: usize) -> u32
    requires { at ≤ SECOND_SLOT }
    ensures { result ≡ slot_count bytes.now at }
{
    if is_open(bytes, at) {
        BigEndian::read_u32(&bytes[at + SLOT_COUNT..])
    } else {
        0
    }
}

/// The count of an image: the greater of its open slots, 0 where none is open.
#[tactic(auto, unfolding(edr_image::specs::Image::count_of))]
pub fn read_count(bytes: &[u8; FRONT_SIZE]) -> u32
    ensures { result ≡ count_of bytes.now }
{
    slot_count(bytes, FIRST_SLOT).max(slot_count(bytes, SECOND_SLOT))
}

/// The slot that the next start writes, 0 or 1: slot 1 where slot 0 is open and slot 1 is closed or has no
/// greater count.
#[tactic(auto, unfolding(edr_image::specs::Image::older_slot))]
pub fn older_slot(bytes: &[u8; FRONT_SIZE]) -> u8
    ensures { result ≡ older_slot bytes.now }
{
    let is_second_older = !is_open(bytes, SECOND_SLOT)
        || slot_count(bytes, SECOND_SLOT) <= slot_count(bytes, FIRST_SLOT);
    if is_open(bytes, FIRST_SLOT) && is_second_older {
        1
    } else {
        0
    }
}

/// Where a slot of the count begins, which is 0 or 1.
pub fn place_of_slot(slot: u8) -> u32
    requires { slot ≤ 1 }
    ensures { result ≡ place_of_slot slot }
{
    FIRST_SLOT as u32 + SLOT_SIZE as u32 * u32::from(slot)
}
