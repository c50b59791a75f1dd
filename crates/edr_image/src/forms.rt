//! What tells the images of one version from those of another: how many banks there may be, how many bytes a bank has, and
//! in which form the two parts of a record stand in it. All other places are those of [`places`](crate::places).

ghost use Rattle.std.specs.Prelude.{◌≡◌, ◌<◌, ◌^◌};
ghost use Rattle.edr_image.specs.Image.{crash_place};
ghost use Rattle.edr_image.specs.PartBytes.{crash_size, pre_size};

use crate::places::{BANK_SIZE, MOST_BANKS, PRE_PART};
use edr_record::{LONG_SLOTS, SHORT_SLOTS};

/// How a pre part tells its profile.
#[derive(Clone, Copy)]
pub struct ProfileForm {
    /// The profile byte.
    pub byte: u8,
    /// How many slots of each list a part with this byte uses.
    pub slots: usize,
}

/// The form of a pre part. Each list has room for some slots, of which a profile uses the first ones; the rest is 0.
#[derive(Clone, Copy)]
pub struct PreForm {
    /// How many slots each list has room for.
    pub room: usize,
    /// How many bytes of 0 stand at its end.
    pub zeros: usize,
    /// The profile of a short part.
    pub short: ProfileForm,
    /// That of a long part, the same where each part is short.
    pub long: ProfileForm,
}

/// The form of a crash part.
#[derive(Clone, Copy)]
pub struct CrashForm {
    /// How many bytes of 0 stand at its end.
    pub zeros: usize,
}

/// What a version lays down.
#[derive(Clone, Copy)]
pub struct Layout {
    /// The number of the version, as the header has it.
    pub version: u16,
    /// The most banks of an image.
    pub most_banks: u8,
    /// How many bytes a bank has.
    pub bank: usize,
    pub pre: PreForm,
    pub crash: CrashForm,
}

impl PreForm {
    /// How many bytes a pre part has.
    pub fn size(&self) -> usize
        requires { pre_size self.now < 2 ^ 16 }
        ensures { result ≡ pre_size self.now }
    {
        14 + 4 * self.room + self.zeros
    }
}

impl CrashForm {
    /// How many bytes a crash part has.
    pub fn size(&self) -> usize
        requires { crash_size self.now < 2 ^ 16 }
        ensures { result ≡ crash_size self.now }
    {
        136 + self.zeros
    }
}

impl Layout {
    /// Where the crash part of a bank begins, after its pre part.
    pub fn crash_place(&self) -> usize
        requires { crash_place self.now < 2 ^ 16 }
        ensures { result ≡ crash_place self.now }
    {
        PRE_PART + self.pre.size()
    }
}

/// The most banks of an image of version 1.
pub const OLD_MOST_BANKS: u8 = 16;

/// How many bytes a bank of version 1 has.
pub const OLD_BANK_SIZE: usize = 512;

/// How many bytes its pre part has.
pub const OLD_PRE_SIZE: usize = 160;

/// How many bytes its crash part has.
pub const OLD_CRASH_SIZE: usize = 320;

/// Version 1: there is the short profile alone, whose byte is 0, and the lists have no room past its slots.
pub const VERSION_1: Layout = Layout {
    version: 1,
    most_banks: OLD_MOST_BANKS,
    bank: OLD_BANK_SIZE,
    pre: PreForm {
        room: SHORT_SLOTS,
        zeros: 102,
        short: ProfileForm {
            byte: 0,
            slots: SHORT_SLOTS,
        },
        long: ProfileForm {
            byte: 0,
            slots: SHORT_SLOTS,
        },
    },
    crash: CrashForm { zeros: 184 },
};

/// Version 2: there are two profiles, the short one with the byte 1 and the long one with 2, which uses all the room.
pub const VERSION_2: Layout = Layout {
    version: 2,
    most_banks: MOST_BANKS,
    bank: BANK_SIZE,
    pre: PreForm {
        room: LONG_SLOTS,
        zeros: 30,
        short: ProfileForm {
            byte: 1,
            slots: SHORT_SLOTS,
        },
        long: ProfileForm {
            byte: 2,
            slots: LONG_SLOTS,
        },
    },
    crash: CrashForm { zeros: 24 },
};
