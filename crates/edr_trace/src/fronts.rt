//! What stands in front of the bytes at a record's beginning: a row as a writer puts it there, or what is no row.

ghost use Rattle.std.specs.Prelude.{◌≡◌, ◌≢◌, ◌++◌, ◌∷◌, [], ◌≤◌, ◌<◌, ◌-◌, ◌^◌, ◌↔◌, length, IfSome, IsTrue, ◌&&◌, false, slice_index};
ghost use Rattle.std.specs.List.{list_any};
ghost use Rattle.edr_text.specs.Numbers.{numeral};
ghost use Rattle.edr_spell.specs.Rows.{spelling_of, IsRow};
ghost use Rattle.edr_spell.specs.Lines.{value_text, is_special};
ghost use Rattle.edr_trace.specs.Fronts.{EndsLine, IsFieldIn, IsRecordIn, IsRowIn, IsNoRow};

use edr_items::{Item, Sensor};
use edr_spell::{Row, WORDS, Word};

// The digits of a number of 32 bits, and what stands after them.
const MOST_STEPS: usize = 11;

// The byte order mark.
const MARK: [u8; 3] = [0xEF, 0xBB, 0xBF];

// What stands after these bytes, if they are in front.
#[inline(always)]
fn after<'a>(bytes: &'a [u8], front: &[u8]) -> Option<&'a [u8]>
    ensures { IfSome result (λ rest. bytes.now ≡ front.now ++ rest.now) }
{
    bytes.strip_prefix(front)
}

// Whether these four bytes are those, by one comparison of whole numbers.
#[inline(always)]
fn are_four(bytes: [u8; 4], those: [u8; 4]) -> bool
    ensures { IsTrue result ↔ (bytes ≡ those) }
{
    u32::from_le_bytes(bytes) == u32::from_le_bytes(those)
}

// The same of two bytes.
#[inline(always)]
fn are_two(bytes: [u8; 2], those: [u8; 2]) -> bool
    ensures { IsTrue result ↔ (bytes ≡ those) }
{
    u16::from_le_bytes(bytes) == u16::from_le_bytes(those)
}

/// What stands after the word `along` and a comma, if they are in front.
#[inline(always)]
pub(crate) fn after_along(bytes: &[u8]) -> Option<&[u8]>
    ensures { IfSome result (λ rest. bytes.now ≡ spelling_of (Word.Of Sensor.Along) ++ 44 ∷ rest.now) }
{
    match bytes {
        [a, b, c, d, e, f, rest @ ..]
            if are_four([*a, *b, *c, *d], *b"alon") && are_two([*e, *f], *b"g,") => { Some(rest) }
        _ => None,
    }
}

/// The same of the word `across`.
#[inline(always)]
pub(crate) fn after_across(bytes: &[u8]) -> Option<&[u8]>
    ensures { IfSome result (λ rest. bytes.now ≡ spelling_of (Word.Of Sensor.Across) ++ 44 ∷ rest.now) }
{
    match bytes {
        [a, b, c, d, e, f, g, rest @ ..]
            if are_four([*a, *b, *c, *d], *b"acro") && are_two([*e, *f], *b"ss") && *g == b',' => {
            Some(rest)
        }
        _ => None,
    }
}

/// The same of the value 0 and a line feed.
#[inline(always)]
pub(crate) fn after_zero(bytes: &[u8]) -> Option<&[u8]>
    ensures { IfSome result (λ rest. bytes.now ≡ 48 ∷ 10 ∷ rest.now) }
{
    match bytes {
        [a, b, rest @ ..] if are_two([*a, *b], *b"0\n") => Some(rest),
        _ => None,
    }
}

// The same of any word. The comma is looked for first, since after few words of another row it would be in its place.
#[inline(always)]
fn after_word(bytes: &[u8], word: Word) -> Option<&[u8]>
    ensures { IfSome result (λ rest. bytes.now ≡ spelling_of word ++ 44 ∷ rest.now) }
{
    let spelling = word.spelling().as_bytes();
    if bytes.get(spelling.len()) != Some(&b',') {
        return None;
    }
    let rest = after(bytes, spelling)?;
    after(rest, b",")
}

// The word in front of a comma, and what stands after the comma.
#[inline(always)]
fn word_in_front(bytes: &[u8]) -> Option<(Word, &[u8])>
    ensures { IfSome result (λ p. bytes.now ≡ spelling_of p.0 ++ 44 ∷ p.1.now) }
{
    for word in WORDS {
        if let Some(rest) = after_word(bytes, word) {
            return Some((word, rest));
        }
    }
    None
}

/// The number in front of fewer digits than that, the byte that ends it, and what stands after that byte. One pass finds the
/// number and its end, with one comparison a digit.
#[inline(always)]
pub(crate) fn number_within(bytes: &[u8], most: usize) -> Option<(u64, u8, &[u8])>
    requires within { most ≤ length bytes.now }
    requires few { most ≤ 18 }
    ensures number { IfSome result (λ p. bytes.now ≡ numeral p.0 ++ p.1 ∷ p.2.now) }
    ensures fits { IfSome result (λ p. p.0 < 10 ^ (most - 1)) }
{
    let mut value = 0u64;
    for i in 0..most {
        let digit = bytes[i].wrapping_sub(b'0');
        if digit >= 10 {
            if i == 0 {
                return None;
            }
            return Some((value, bytes[i], &bytes[i + 1..]));
        }
        // A digit stands after a 0 in front.
        if i == 1 && value == 0 {
            return None;
        }
        value = 10 * value + u64::from(digit);
    }
    None
}

// The same of a number of 32 bits. Where the bytes are long enough, as those of most rows are, the number of steps is
// known when this is compiled.
#[inline(always)]
fn number_in_front(bytes: &[u8]) -> Option<(u64, u8, &[u8])>
    ensures { IfSome result (λ p. bytes.now ≡ numeral p.0 ++ p.1 ∷ p.2.now) }
{
    if bytes.len() >= MOST_STEPS {
        number_within(bytes, MOST_STEPS)
    } else {
        number_within(bytes, bytes.len())
    }
}

// The moment in front of a comma, and what stands after the comma.
#[inline(always)]
fn moment_in_front(bytes: &[u8]) -> Option<(u32, &[u8])>
    ensures { IfSome result (λ p. bytes.now ≡ numeral p.0 ++ 44 ∷ p.1.now) }
{
    let (n, end, rest) = number_in_front(bytes)?;
    if end != b',' || n > u64::from(u32::MAX) {
        return None;
    }
    Some((n as u32, rest))
}

// The value in front, or none, the byte that ends it, and what stands after that byte.
#[inline(always)]
fn value_in_front(bytes: &[u8]) -> Option<(Option<i32>, u8, &[u8])>
    ensures { IfSome result (λ p. bytes.now ≡ value_text p.0 ++ p.1 ∷ p.2.now) }
{
    // The value of most rows is 0.
    if let Some(rest) = after_zero(bytes) {
        return Some((Some(0), b'\n', rest));
    }
    match bytes {
        [b'\n', rest @ ..] => Some((None, b'\n', rest)),
        [b'\r', rest @ ..] => Some((None, b'\r', rest)),
        [b'-', digits @ ..] => {
            let (n, end, rest) = number_in_front(digits)?;
            if n == 0 || n > 2_147_483_648 {
                return None;
            }
            Some((Some((0 - n as i64) as i32), end, rest))
        }
        _ => {
            let (n, end, rest) = number_in_front(bytes)?;
            if n > 2_147_483_647 {
                return None;
            }
            Some((Some(n as i32), end, rest))
        }
    }
}

/// What stands after the end of a line that begins with this byte.
#[inline(always)]
pub(crate) fn after_line(end: u8, bytes: &[u8]) -> Option<&[u8]>
    ensures { IfSome result (λ rest. EndsLine (end ∷ bytes.now) rest.now) }
{
    if end == b'\n' {
        return Some(bytes);
    }
    if end != b'\r' {
        return None;
    }
    match after(bytes, b"\n") {
        Some(rest) => Some(rest),
        None => Some(bytes),
    }
}

// A row of these parts.
#[inline(always)]
fn sample_row(sensor: Sensor, moment: u32, value: Option<i32>) -> Row
    ensures is { result ≡ Row.Sample sensor (record { moment = moment; value = value }) }
    ensures row { IsRow result }
{
    let item = Item { moment, value };
    Row::Sample { sensor, item }
}

// The sample of that sensor whose moment and value are in front, and what stands after its line.
#[inline(always)]
fn sample_in_front(sensor: Sensor, bytes: &[u8]) -> Option<(Row, &[u8])>
    ensures { IfSome result (λ p. IsRowIn p.0 (spelling_of (Word.Of sensor) ++ 44 ∷ bytes.now) p.1.now) }
{
    let (moment, rest) = moment_in_front(bytes)?;
    let (value, end, rest) = value_in_front(rest)?;
    let rest = after_line(end, rest)?;
    Some((sample_row(sensor, moment, value), rest))
}

/// The row of the sensor `along` in front of the bytes and the bytes after it, if it is spelled without quotes.
#[inline(always)]
pub(crate) fn along_row(bytes: &[u8]) -> Option<(Row, &[u8])>
    ensures { IfSome result (λ p. IsRowIn p.0 bytes.now p.1.now) }
{
    let rest = after_along(bytes)?;
    sample_in_front(Sensor::Along, rest)
}

/// The same of the sensor `across`.
#[inline(always)]
pub(crate) fn across_row(bytes: &[u8]) -> Option<(Row, &[u8])>
    ensures { IfSome result (λ p. IsRowIn p.0 bytes.now p.1.now) }
{
    let rest = after_across(bytes)?;
    sample_in_front(Sensor::Across, rest)
}

/// The same of each sensor. Where all rows have quotes, no word is looked for in vain.
pub(crate) fn any_row(bytes: &[u8]) -> Option<(Row, &[u8])>
    ensures { IfSome result (λ p. IsRowIn p.0 bytes.now p.1.now) }
{
    if let [b'"', ..] = bytes {
        return None;
    }
    let (word, rest) = word_in_front(bytes)?;
    match word {
        Word::Of(sensor) => sample_in_front(sensor, rest),
        _ => None,
    }
}

// The bytes up to the first comma, quote, carriage return or line feed, and that byte with those after it.
fn plain_in_front(bytes: &[u8]) -> Option<(&[u8], &[u8])>
    ensures plain { IfSome result (λ p. list_any is_special p.0.now ≡ false) }
    ensures parts { IfSome result (λ p. bytes.now ≡ p.0.now ++ p.1.now) }
{
    for i in 0..bytes.len() {
        let b = bytes[i];
        if b == b',' || b == b'"' || b == b'\r' || b == b'\n' {
            return Some((&bytes[..i], &bytes[i..]));
        }
    }
    None
}

// The field in front that stands between quotes, and what stands after them.
fn quoted_in_front(bytes: &[u8]) -> Option<(&[u8], &[u8])>
    ensures { IfSome result (λ p. IsFieldIn p.0.now bytes.now p.1.now) }
{
    let inside = after(bytes, b"\"")?;
    let (field, rest) = plain_in_front(inside)?;
    let rest = after(rest, b"\"")?;
    Some((field, rest))
}

// The field in front, with quotes or without, and what stands after it.
fn field_in_front(bytes: &[u8]) -> Option<(&[u8], &[u8])>
    ensures { IfSome result (λ p. IsFieldIn p.0.now bytes.now p.1.now) }
{
    match bytes {
        [b'"', ..] => quoted_in_front(bytes),
        _ => plain_in_front(bytes),
    }
}

// The first byte, if it isn't that of a byte order mark.
fn bare_first(bytes: &[u8]) -> Option<u8>
    ensures is { IfSome result (λ b. b ≡ slice_index bytes.now 0) }
    ensures bare { IfSome result (λ b. b ≢ 239) }
{
    if bytes.is_empty() || bytes[0] == 0xEF {
        return None;
    }
    Some(bytes[0])
}

/// The three fields of a line, and what stands after the line.
#[derive(Clone, Copy, Debug)]
pub(crate) struct ThreeFields<'a> {
    pub first: &'a [u8],
    pub second: &'a [u8],
    pub third: &'a [u8],
    pub rest: &'a [u8],
}

/// The line of three fields in front of the bytes, each with quotes or without, if its first byte isn't that of a byte
/// order mark.
pub(crate) fn line_in_front(bytes: &[u8]) -> Option<ThreeFields<'_>>
    ensures { IfSome result (λ l. IsRecordIn (l.first.now ∷ l.second.now ∷ l.third.now ∷ []) bytes.now l.rest.now) }
{
    bare_first(bytes)?;
    let (first, rest) = field_in_front(bytes)?;
    let (second, rest) = field_in_front(after(rest, b",")?)?;
    let (third, rest) = field_in_front(after(rest, b",")?)?;
    let (end, rest) = rest.split_first()?;
    let rest = after_line(*end, rest)?;
    Some(ThreeFields {
        first,
        second,
        third,
        rest,
    })
}

/// What stands after a byte of a blank line in front, or after a byte order mark that no byte was taken before.
pub(crate) fn after_no_row(bytes: &[u8], begun: bool) -> Option<&[u8]>
    ensures { IfSome result (λ rest. IsNoRow begun bytes.now rest.now) }
{
    match bytes {
        [b'\n', rest @ ..] => Some(rest),
        [b'\r', rest @ ..] => Some(rest),
        _ if begun => None,
        _ => after(bytes, &MARK),
    }
}
