//! Where things stand in an image of version 2, in bytes: in the front from the first byte of the image on, in a bank from the first
//! byte of the bank on.

/// The fewest banks of an image.
pub const FEWEST_BANKS: u8 = 2;

/// The most banks of an image of version 2.
pub const MOST_BANKS: u8 = 16;

/// How many bytes stand before the banks.
pub const FRONT_SIZE: usize = 96;

/// How many bytes a bank has.
pub const BANK_SIZE: usize = 1_024;

/// How many bytes an image of the most banks has.
pub const LARGEST_IMAGE: usize = FRONT_SIZE + BANK_SIZE * MOST_BANKS as usize;

/// The byte of a gate that is open.
pub const OPEN_GATE: u8 = 0xa5;

// ---- the front

/// The version, in two bytes.
pub const VERSION: usize = 8;

/// The number of banks, in one byte.
pub const BANKS: usize = 10;

/// The choice, in one byte.
pub const CHOICE: usize = 11;

/// Where the header ends. All other bytes of a new image are 0.
pub const HEADER_END: usize = 12;

/// The first slot of the count, which begins with its gate.
pub const FIRST_SLOT: usize = 32;

/// The second slot.
pub const SECOND_SLOT: usize = 64;

/// How many bytes a slot has.
pub const SLOT_SIZE: usize = 32;

/// The number in a slot, in four bytes.
pub const SLOT_COUNT: usize = 4;

// ---- a bank

/// The gate of an event.
pub const EVENT_GATE: usize = 0;

/// The gate of its lock.
pub const LOCK_GATE: usize = 1;

/// The gate of its crash part.
pub const DONE_GATE: usize = 2;

/// The pre part.
pub const PRE_PART: usize = 16;

/// How many bytes the pre part has.
pub const PRE_SIZE: usize = 848;

/// The crash part, after the pre part.
pub const CRASH_PART: usize = 864;

/// How many bytes the crash part has.
pub const CRASH_SIZE: usize = 160;
