//! Values that stand in a part as one number each.

ghost use Rattle.std.specs.Prelude.{◌≡◌, ℕ, ℤ, ◌+◌, ◌*◌, ◌≤◌, ◌<◌, ◌^◌, ◌++◌, ◌∷◌, [], List, length, take, map, replicate};
ghost use Rattle.std.specs.List.{flat_map};
ghost use Rattle.byteorder.specs.Endian.{big_bytes};
ghost use Rattle.edr_image.specs.PartBytes.{number_at, numbers_at, unless, switch_from, signed_value, slot_bytes, switch_byte, signed_bytes};

use byteorder::{BigEndian, ByteOrder};

/// A value that stands in a part as a number of that many bytes.
pub(crate) trait PartValue: Copy + Default {
    // How many bytes the number has.
    ghost size: { ℕ };

    // The value that a number stands for.
    ghost value_of: { ℕ → Self };

    // The bytes of a value.
    ghost bytes_of: { Self → List ℕ };

    /// How many bytes the number has.
    fn size() -> usize
        ensures { result ≡ size };

    /// The value whose bytes begin at a place.
    fn read_at(bytes: &[u8], at: usize) -> Self
        requires { at + size ≤ length bytes.now }
        ensures { result ≡ value_of (number_at bytes.now at size) };

    /// Writes the value over the bytes that begin at a place. Of those after it nothing is said: a part is written from
    /// its first byte to its last.
    fn put_at(self, out: &mut [u8], at: usize)
        requires { at + size ≤ length out.old }
        ensures { take (at + size) out.new ≡ take at out.old ++ bytes_of self };
}

/// Writes bytes over those from a place on.
pub(crate) fn put_bytes(out: &mut [u8], at: usize, bytes: &[u8])
    requires { at + length bytes.now ≤ length out.old }
    ensures { take (at + length bytes.now) out.new ≡ take at out.old ++ bytes.now }
{
    out[at..at + bytes.len()].copy_from_slice(bytes);
}

/// Writes bytes of 0 over those from a place on.
pub(crate) fn put_zeros(out: &mut [u8], at: usize, count: usize)
    requires { at + count ≤ length out.old }
    ensures { take (at + count) out.new ≡ take at out.old ++ replicate count 0 }
{
    out[at..at + count].fill(0);
}

impl PartValue for u32 {
    ghost size = { 4 };

    ghost value_of = { λ n. n };

    ghost bytes_of = { big_bytes 4 };

    fn size() -> usize {
        4
    }

    fn read_at(bytes: &[u8], at: usize) -> u32 {
        BigEndian::read_u32(&bytes[at..])
    }

    fn put_at(self, out: &mut [u8], at: usize) {
        BigEndian::write_u32(&mut out[at..], self);
    }
}

impl PartValue for u16 {
    ghost size = { 2 };

    ghost value_of = { λ n. n };

    ghost bytes_of = { big_bytes 2 };

    fn size() -> usize {
        2
    }

    fn read_at(bytes: &[u8], at: usize) -> u16 {
        BigEndian::read_u16(&bytes[at..])
    }

    fn put_at(self, out: &mut [u8], at: usize) {
        BigEndian::write_u16(&mut out[at..], self);
    }
}

impl PartValue for i16 {
    ghost size = { 2 };

    ghost value_of = { signed_value };

    ghost bytes_of = { signed_bytes };

    fn size() -> usize {
        2
    }

    fn read_at(bytes: &[u8], at: usize) -> i16 {
        BigEndian::read_i16(&bytes[at..])
    }

    fn put_at(self, out: &mut [u8], at: usize) {
        BigEndian::write_i16(&mut out[at..], self);
    }
}

impl PartValue for Option<u16> {
    ghost size = { 2 };

    ghost value_of = { unless 0xffff };

    ghost bytes_of = { slot_bytes 2 };

    fn size() -> usize {
        2
    }

    fn read_at(bytes: &[u8], at: usize) -> Option<u16> {
        let number = BigEndian::read_u16(&bytes[at..]);
        (number != 0xffff).then_some(number)
    }

    fn put_at(self, out: &mut [u8], at: usize) {
        BigEndian::write_u16(&mut out[at..], self.unwrap_or(0xffff));
    }
}

impl PartValue for Option<u8> {
    ghost size = { 1 };

    ghost value_of = { unless 0xff };

    ghost bytes_of = { slot_bytes 1 };

    fn size() -> usize {
        1
    }

    fn read_at(bytes: &[u8], at: usize) -> Option<u8> {
        (bytes[at] != 0xff).then_some(bytes[at])
    }

    fn put_at(self, out: &mut [u8], at: usize) {
        out[at] = self.unwrap_or(0xff);
    }
}

impl PartValue for Option<bool> {
    ghost size = { 1 };

    ghost value_of = { switch_from };

    ghost bytes_of = { λ s. switch_byte s ∷ [] };

    fn size() -> usize {
        1
    }

    fn read_at(bytes: &[u8], at: usize) -> Option<bool> {
        match bytes[at] {
            0xff => None,
            number => Some(number == 1),
        }
    }

    fn put_at(self, out: &mut [u8], at: usize) {
        out[at] = match self {
            Some(is_on) => u8::from(is_on),
            None => 0xff,
        };
    }
}

/// So many values, one after the other, whose bytes begin at a place.
pub(crate) fn read_all<P: PartValue, const N: usize>(bytes: &[u8], at: usize) -> [P; N]
    requires { at + P.size * N ≤ length bytes.now }
    ensures { result ≡ map P.value_of (numbers_at bytes.now at P.size N) }
{
    let mut values = [P::default(); N];
    for (k, value) in values.iter_mut().enumerate() {
        *value = P::read_at(bytes, at + P::size() * k);
    }
    values
}

/// Writes values one after the other over the bytes that begin at a place.
pub(crate) fn put_all<P: PartValue>(values: &[P], out: &mut [u8], at: usize)
    requires few { length values.now < 2 ^ 16 }
    requires room { at + P.size * length values.now ≤ length out.old }
    ensures { take (at + P.size * length values.now) out.new ≡ take at out.old ++ flat_map P.bytes_of values.now }
{
    for (k, value) in values.iter().enumerate() {
        value.put_at(out, at + P::size() * k);
    }
}
