//! Images of version 1, which are only read.
ghost use Rattle.std.specs.Prelude.{◌≡◌, ◌≤◌, Some, None, IfOk, IfErr};
ghost use Rattle.edr_image.specs.declared.forms.TheConstants.{OLD_MOST_BANKS};
ghost use Rattle.edr_image.specs.Image.{header_of, old_bank_view, old_header_refusal, old_image_size, old_place_of};

use crate::bank::bank_view_by;
use crate::front::read_header_by;
use crate::size_by;
use edr_image::forms::{OLD_BANK_SIZE, VERSION_1};
use edr_image::places::FRONT_SIZE;
use edr_image::{BankView, Header, HeaderRefused};

/// What the first bytes of an image of version 1 say, or why they are refused.
pub fn read_old_header(bytes: &[u8; FRONT_SIZE]) -> Result<Header, HeaderRefused>
    ensures read { IfOk result (λ h. h ≡ header_of bytes.now) }
    ensures accepted { IfOk result (λ _. old_header_refusal bytes.now ≡ None) }
    ensures refused { IfErr result (λ e. old_header_refusal bytes.now ≡ Some e) }
{
    read_header_by(bytes, &VERSION_1)
}

/// Where a bank begins in an image of version 1.
pub fn old_place_of(bank: u8) -> u32
    requires from { 1 ≤ bank }
    requires to { bank ≤ OLD_MOST_BANKS }
    ensures { result ≡ old_place_of bank }
{
    size_by(&VERSION_1, bank - 1)
}

/// How many bytes an image of version 1 with that many banks has.
pub fn old_image_size(banks: u8) -> u32
    ensures { result ≡ old_image_size banks }
{
    size_by(&VERSION_1, banks)
}

/// What a bank of version 1 holds.
#[tactic(auto, using(crate::proofs::ReadableLemmas::version_1_is_readable))]
pub fn old_bank_view(bank: &[u8; OLD_BANK_SIZE]) -> BankView
    ensures { result ≡ old_bank_view bank.now }
{
    bank_view_by(bank, &VERSION_1)
}
