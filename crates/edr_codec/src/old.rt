//! The parts of version 1.

ghost use Rattle.std.specs.Prelude.{◌≡◌, None, Some, IfOk, IfErr, OnOk, slice_index};
ghost use Rattle.edr_image.specs.PartBytes.{crash_at, old_crash_damage, old_pre_at, old_pre_damage};

use crate::Damaged;
use crate::crash::read_crash_by;
use crate::pre::read_pre_by;
use edr_image::forms::{OLD_CRASH_SIZE, OLD_PRE_SIZE, VERSION_1};
use edr_record::{Crash, Pre};

/// The pre part of version 1 that the bytes spell, or else the first byte with which they begin none.
pub fn read_old_pre(bytes: &[u8; OLD_PRE_SIZE]) -> Result<Pre, Damaged>
    ensures read { IfOk result (λ p. p ≡ old_pre_at bytes.now 0) }
    ensures whole { OnOk result (old_pre_damage bytes.now 0 ≡ None) }
    ensures damaged { IfErr result (λ d. old_pre_damage bytes.now 0 ≡ Some d.offset) }
    ensures found { IfErr result (λ d. d.found ≡ slice_index bytes.now d.offset) }
{
    read_pre_by(bytes, &VERSION_1.pre)
}

/// The crash part of version 1 that the bytes spell, or else the first byte with which they begin none.
pub fn read_old_crash(bytes: &[u8; OLD_CRASH_SIZE]) -> Result<Crash, Damaged>
    ensures read { IfOk result (λ c. c ≡ crash_at bytes.now 0) }
    ensures whole { OnOk result (old_crash_damage bytes.now 0 ≡ None) }
    ensures damaged { IfErr result (λ d. old_crash_damage bytes.now 0 ≡ Some d.offset) }
    ensures found { IfErr result (λ d. d.found ≡ slice_index bytes.now d.offset) }
{
    read_crash_by(bytes, &VERSION_1.crash)
}
