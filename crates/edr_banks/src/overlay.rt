//! Laying an image over a device: byte 0 is put last, so no crash leaves the magic over anything but the image as it was or
//! the new one.
ghost use Rattle.std.specs.Prelude.{◌≤◌, OnOk};
ghost use Rattle.edr_device.specs.Lent.{Lent};
ghost use Rattle.edr_image.specs.declared.places.TheConstants.{MOST_BANKS};
ghost use Rattle.edr_banks.specs.Laying.{AllFilled, AllLaid, AllOver, BareMeanwhile, FirstMeanwhile, FromBare, FromFirst, HasPlace, IsBared, IsImageOf, IsUnmarked, IsUnmarking, Lays, PartlyOver, full_size};

use crate::FormatFault;
use crate::image::Image;
use edr_device::{Failed, Nvm, write_settled};
use edr_layout::{BankNumber, MAGIC, image_size, not_magic};

// Puts another byte over the first of the magic.
fn unmark<N: Nvm>(nvm: &mut N, first: u8) -> Result<(), Failed>
    requires { 1 ≤ N.extent nvm.old }
    ensures lent { Lent N.Nvm nvm.old nvm.new result }
    ensures later { N.clock nvm.old ≤ N.clock nvm.new }
    ensures bare { OnOk result (FromFirst N.Nvm first IsBared nvm.old nvm.new) }
    ensures any_moment { FirstMeanwhile N.Nvm first IsUnmarking nvm.old nvm.new }
{
    if first == MAGIC[0] {
        return write_settled(nvm, 0, &[0]);
    }
    Ok(())
}

// Writes the image but its first byte, and settles nothing.
fn lay_image<N: Nvm, I: Image>(nvm: &mut N, image: &I) -> Result<(), Failed>
    requires { HasPlace I.Image image.now (N.extent nvm.old) }
    ensures lent { Lent N.Nvm nvm.old nvm.new result }
    ensures later { N.clock nvm.old ≤ N.clock nvm.new }
    ensures laid { OnOk result (FromBare N.Nvm (AllLaid I.Image image.now) nvm.old nvm.new) }
    ensures any_moment { BareMeanwhile N.Nvm (IsUnmarked (full_size I.Image image.now)) nvm.old nvm.new }
{
    let front = image.front();
    nvm.write(1, &front[1..])?;
    for k in 0..image.banks() {
        let bank = BankNumber::from_index(k);
        let piece = image.bank(bank);
        nvm.write(bank.place(), &piece)?;
    }
    Ok(())
}

// Writes the image but its first byte, and settles it.
fn fill_image<N: Nvm, I: Image>(nvm: &mut N, image: &I) -> Result<(), Failed>
    requires { HasPlace I.Image image.now (N.extent nvm.old) }
    ensures lent { Lent N.Nvm nvm.old nvm.new result }
    ensures later { N.clock nvm.old ≤ N.clock nvm.new }
    ensures filled { OnOk result (FromBare N.Nvm (AllFilled I.Image image.now) nvm.old nvm.new) }
    ensures any_moment { BareMeanwhile N.Nvm (IsUnmarked (full_size I.Image image.now)) nvm.old nvm.new }
{
    lay_image(nvm, image)?;
    nvm.sync()
}

// Writes the image, its first byte last.
fn put_image<N: Nvm, I: Image>(nvm: &mut N, image: &I) -> Result<(), Failed>
    requires { HasPlace I.Image image.now (N.extent nvm.old) }
    ensures lent { Lent N.Nvm nvm.old nvm.new result }
    ensures later { N.clock nvm.old ≤ N.clock nvm.new }
    ensures done { OnOk result (FromBare N.Nvm (AllOver I.Image image.now) nvm.old nvm.new) }
    ensures any_moment { BareMeanwhile N.Nvm (PartlyOver I.Image image.now) nvm.old nvm.new }
{
    fill_image(nvm, image)?;
    write_settled(nvm, 0, &MAGIC[..1])
}

// Lays the image over a device whose first byte is this one.
fn write_image<N: Nvm, I: Image>(nvm: &mut N, first: u8, image: &I) -> Result<(), Failed>
    requires { HasPlace I.Image image.now (N.extent nvm.old) }
    ensures lent { Lent N.Nvm nvm.old nvm.new result }
    ensures later { N.clock nvm.old ≤ N.clock nvm.new }
    ensures done { OnOk result (FromFirst N.Nvm first (AllOver I.Image image.now) nvm.old nvm.new) }
    ensures any_moment { FirstMeanwhile N.Nvm first (PartlyOver I.Image image.now) nvm.old nvm.new }
{
    unmark(nvm, first)?;
    put_image(nvm, image)
}

/// Lays an image over a device, byte 0 last. What the device has past it stays, and a device that has an image already
/// stays as it is.
///
/// A crash inside the call leaves the bytes as they were, or without the magic, or the new image.
pub fn lay<N: Nvm, I: Image>(nvm: &mut N, image: &I) -> Result<(), FormatFault>
    requires told { I.is_told image.now }
    requires whole { IsImageOf (full_size I.Image image.now) (I.bytes image.now) }
    requires few { I.bank_count image.now ≤ MOST_BANKS }
    ensures { Lays N.Nvm I.Image image.now nvm.old nvm.new result }
{
    let size = nvm.size();
    let needed = image_size(image.banks());
    if size < needed {
        return Err(FormatFault::Short { size, needed });
    }
    let mut first = [0; MAGIC.len()];
    nvm.read(0, &mut first)?;
    if not_magic(&first).is_none() {
        return Err(FormatFault::Formatted);
    }
    write_image(nvm, first[0], image)?;
    Ok(())
}
