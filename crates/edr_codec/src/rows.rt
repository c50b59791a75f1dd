//! The tables of the parts: rows of fields, and the first byte at which bytes don't fit them.

ghost use Rattle.std.specs.Prelude.{◌≡◌, ◌+◌, ◌*◌, ◌^◌, ◌<◌, ◌≤◌, length, sum_by, All, None, Some, nat_le, nat_lt, ◌&&◌, IfSome, IsTrue, OnOk, IfErr, slice_index};
ghost use Rattle.std.specs.List.{flat_map};
ghost use Rattle.edr_image.specs.PartBytes.{can_be_in, damage_of_field, damage_of_fields};
ghost use Rattle.edr_codec.specs.Rows.{ranges_of, fields_of, row_size};

use crate::Damaged;

/// Numbers from the first to the second.
pub(crate) type Range = (u32, u32);

/// Fields of one kind, one after the other: how many there are, how many bytes each has, and in which ranges its number
/// may lie.
#[derive(Clone, Copy, Debug)]
pub(crate) struct FieldRow {
    pub(crate) count: usize,
    pub(crate) size: usize,
    pub(crate) values: Range,
    pub(crate) others: Option<Range>,
}

// Some number from the first to below the last lies in the range.
fn meets(range: Range, first: u64, last: u64) -> bool
    ensures { result ≡ (nat_le first range.1 && nat_lt range.0 last) }
{
    first <= u64::from(range.1) && u64::from(range.0) < last
}

impl FieldRow {
    /// Fields whose numbers lie in one range.
    pub(crate) fn of(count: usize, size: usize, values: Range) -> FieldRow
        ensures { result ≡ record { count = count; size = size; values = values; others = None } }
    {
        FieldRow {
            count,
            size,
            values,
            others: None,
        }
    }

    /// Fields whose numbers lie in one of two ranges.
    pub(crate) fn either(count: usize, size: usize, values: Range, others: Range) -> FieldRow
        ensures { result ≡ record { count = count; size = size; values = values; others = Some others } }
    {
        FieldRow {
            count,
            size,
            values,
            others: Some(others),
        }
    }

    // Some number in the ranges begins so, with this many bytes of it still to come.
    fn can_begin(&self, begun: u64, left: usize) -> bool
        requires few { left ≤ 3 }
        requires small { begun < 2 ^ 32 }
        ensures { result ≡ can_be_in (ranges_of self.now) begun left }
    {
        let span = 256u64.pow(left as u32);
        let first = begun * span;
        let last = (begun + 1) * span;
        meets(self.values, first, last) || self.others.is_some_and(|r| meets(r, first, last))
    }

    // The number lies in one of the ranges.
    fn has(&self, number: u64) -> bool
        requires small { number < 2 ^ 16 }
        ensures { result ≡ can_be_in (ranges_of self.now) number 0 }
    {
        meets(self.values, number, number + 1)
            || self.others.is_some_and(|r| meets(r, number, number + 1))
    }

    // The field at a place has one byte or two, and its number lies in one of the ranges. So it is in nearly each field of a whole
    // part, and no byte need be looked at alone.
    fn is_whole(&self, bytes: &[u8], at: usize) -> bool
        requires size { self.now.size ≤ 4 }
        requires room { at + self.now.size ≤ length bytes.now }
        ensures { IsTrue result → damage_of_field (ranges_of self.now) bytes.now at 0 self.now.size ≡ None }
    {
        match self.size {
            1 => self.has(u64::from(bytes[at])),
            2 => self.has(u64::from(bytes[at]) * 256 + u64::from(bytes[at + 1])),
            _ => false,
        }
    }

    // The first byte with which the field at a place has no number any more.
    fn damage_of_field(&self, bytes: &[u8], at: usize) -> Option<usize>
        requires size { self.now.size ≤ 4 }
        requires room { at + self.now.size ≤ length bytes.now }
        ensures value { result ≡ damage_of_field (ranges_of self.now) bytes.now at 0 self.now.size }
        ensures within { IfSome result (λ k. k < length bytes.now) }
    {
        if self.is_whole(bytes, at) {
            return None;
        }
        self.damaged_byte(bytes, at)
    }

    // The same, byte after byte.
    #[inline(never)]
    fn damaged_byte(&self, bytes: &[u8], at: usize) -> Option<usize>
        requires size { self.now.size ≤ 4 }
        requires room { at + self.now.size ≤ length bytes.now }
        ensures value { result ≡ damage_of_field (ranges_of self.now) bytes.now at 0 self.now.size }
        ensures within { IfSome result (λ k. k < length bytes.now) }
    {
        let mut begun = 0;
        for k in 0..self.size {
            begun = begun * 256 + u64::from(bytes[at + k]);
            if !self.can_begin(begun, self.size - 1 - k) {
                return Some(at + k);
            }
        }
        None
    }

    // The same of all fields of the row, which begins at a place.
    fn damage_of_row(&self, bytes: &[u8], at: usize) -> Option<usize>
        requires size { self.now.size ≤ 4 }
        requires room { at + row_size self.now ≤ length bytes.now }
        ensures value { result ≡ damage_of_fields bytes.now at (fields_of self.now) }
        ensures within { IfSome result (λ k. k < length bytes.now) }
    {
        for k in 0..self.count {
            let damage = self.damage_of_field(bytes, at + self.size * k);
            if damage.is_some() {
                return damage;
            }
        }
        None
    }
}

// The first place at which bytes don't fit the rows, if there is one.
fn damage_of_rows(bytes: &[u8], rows: &[FieldRow]) -> Option<usize>
    requires sizes { All (λ r. r.size ≤ 4) rows.now }
    requires room { sum_by row_size rows.now ≤ length bytes.now }
    ensures value { result ≡ damage_of_fields bytes.now 0 (flat_map fields_of rows.now) }
    ensures within { IfSome result (λ k. k < length bytes.now) }
{
    let mut at = 0;
    for row in rows {
        let damage = row.damage_of_row(bytes, at);
        if damage.is_some() {
            return damage;
        }
        at += row.size * row.count;
    }
    None
}

/// Whether bytes fit the rows, and where they stop to fit.
pub(crate) fn check_rows(bytes: &[u8], rows: &[FieldRow]) -> Result<(), Damaged>
    requires sizes { All (λ r. r.size ≤ 4) rows.now }
    requires room { sum_by row_size rows.now ≤ length bytes.now }
    requires few { length bytes.now < 2 ^ 16 }
    ensures whole { OnOk result (damage_of_fields bytes.now 0 (flat_map fields_of rows.now) ≡ None) }
    ensures damaged { IfErr result (λ d. damage_of_fields bytes.now 0 (flat_map fields_of rows.now) ≡ Some d.offset) }
    ensures found { IfErr result (λ d. d.found ≡ slice_index bytes.now d.offset) }
{
    match damage_of_rows(bytes, rows) {
        Some(place) => Err(Damaged {
            offset: place as u16,
            found: bytes[place],
        }),
        None => Ok(()),
    }
}
