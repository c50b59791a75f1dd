//! Numbers in their one spelling, and lines of a report.
#![tactic(auto)]

ghost use Rattle.std.specs.Prelude.{◌≡◌, ◌↔◌, decimal, ℕ, ◌+◌, ◌-◌, ◌*◌, ◌^◌, ◌<◌, ◌≤◌, ℤ, pos, List, length, ◌++◌, Some, None, option_map, OnOk, OnErr};
ghost use Rattle.edr_text.specs.Numbers.{natural_in, integer_in, negative_of, below, within_i32, within_u64, numeral, signed_numeral, StartsAsNumeral};
ghost use Rattle.edr_text.specs.Lines.{line_of};

use std::alloc::AllocError as OutOfMemory;

/// As many decimal digits as always fit a `u64`.
const SAFE_DIGITS: usize = 19;

/// Why bytes are not read as a number.
#[derive(Clone, Copy, Debug, PartialEq, Eq)]
pub enum NumberRefused {
    /// They are not the one spelling of a number.
    NotANumber,
    /// They are, of a number outside the type.
    TooLarge,
}

/// The `u32` that the bytes spell.
pub fn read_u32(bytes: &[u8]) -> Result<u32, NumberRefused>
    ensures { result ≡ below (2 ^ 32) (natural_in bytes.now) }
{
    match read_u64(bytes) {
        Ok(n) if n <= u64::from(u32::MAX) => Ok(n as u32),
        Ok(_) => Err(NumberRefused::TooLarge),
        Err(refused) => Err(refused),
    }
}

/// The `u64` that the bytes spell.
#[tactic(auto, unfolding(crate::specs::Numbers::natural_in))]
pub fn read_u64(bytes: &[u8]) -> Result<u64, NumberRefused>
    ensures { result ≡ below (2 ^ 64) (natural_in bytes.now) }
{
    if bytes.is_empty() {
        return Err(NumberRefused::NotANumber);
    }
    if bytes[0] == b'0' && bytes.len() > 1 {
        return Err(NumberRefused::NotANumber);
    }
    if bytes.len() <= SAFE_DIGITS {
        return read_short(bytes);
    }
    read_long(bytes)
}

/// The `i32` that the bytes spell.
#[tactic(auto, unfolding(crate::specs::Numbers::integer_in))]
pub fn read_i32(bytes: &[u8]) -> Result<i32, NumberRefused>
    ensures { result ≡ within_i32 (integer_in bytes.now) }
{
    if bytes.is_empty() {
        return Err(NumberRefused::NotANumber);
    }
    if bytes[0] == b'-' {
        return read_negative(&bytes[1..]);
    }
    read_positive(bytes)
}

// The `i32` that these digits spell.
fn read_positive(digits: &[u8]) -> Result<i32, NumberRefused>
    ensures { result ≡ within_i32 (option_map pos (natural_in digits.now)) }
{
    match read_u64(digits) {
        Ok(n) if n <= 2_147_483_647 => Ok(n as i32),
        Ok(_) => Err(NumberRefused::TooLarge),
        Err(refused) => Err(refused),
    }
}

// The `i32` that these digits spell after a `-`.
fn read_negative(digits: &[u8]) -> Result<i32, NumberRefused>
    ensures { result ≡ within_i32 (negative_of (natural_in digits.now)) }
{
    match read_u64(digits) {
        Ok(0) => Err(NumberRefused::NotANumber),
        Ok(n) if n <= 2_147_483_648 => Ok((0 - n as i64) as i32),
        Ok(_) => Err(NumberRefused::TooLarge),
        Err(refused) => Err(refused),
    }
}

// The number of so few digits that it is below 2 ^ 64: no step needs a test, which makes this the fast one.
#[tactic(auto, unfolding(crate::specs::Numbers::natural_in))]
fn read_short(bytes: &[u8]) -> Result<u64, NumberRefused>
    requires front { StartsAsNumeral bytes.now }
    requires short { length bytes.now ≤ SAFE_DIGITS }
    ensures { result ≡ below (2 ^ 64) (natural_in bytes.now) }
{
    let mut value = 0u64;
    for b in bytes {
        if *b < b'0' || *b > b'9' {
            return Err(NumberRefused::NotANumber);
        }
        value = 10 * value + u64::from(*b - b'0');
    }
    Ok(value)
}

// The number of any digits.
#[tactic(auto, unfolding(crate::specs::Numbers::natural_in))]
fn read_long(bytes: &[u8]) -> Result<u64, NumberRefused>
    requires { StartsAsNumeral bytes.now }
    ensures { result ≡ below (2 ^ 64) (natural_in bytes.now) }
{
    let mut value = Some(0u64);
    for b in bytes {
        if *b < b'0' || *b > b'9' {
            return Err(NumberRefused::NotANumber);
        }
        value = with_digit(value, *b - b'0');
    }
    value.ok_or(NumberRefused::TooLarge)
}

// The number with one more digit, if it is below 2 ^ 64.
fn with_digit(value: Option<u64>, digit: u8) -> Option<u64>
    ensures { (n : ℕ) → value ≡ within_u64 n → result ≡ within_u64 (10 * n + digit) }
{
    value?.checked_mul(10)?.checked_add(u64::from(digit))
}

/// Each number has one spelling, and `{n}` writes it.
pub fn one_spelling()
    ensures natural { (bs : List ℕ) (n : ℕ) → (natural_in bs ≡ Some n) ↔ (bs ≡ numeral n) }
    ensures whole { (bs : List ℕ) (z : ℤ) → (integer_in bs ≡ Some z) ↔ (bs ≡ signed_numeral z) }
    ensures written { (n : ℕ) → n < 2 ^ 64 → decimal n ≡ numeral n }
{}

/// Appends `name: value` and a line feed, or nothing.
pub fn put_line(out: &mut Vec<u8>, name: &[u8], value: &[u8]) -> Result<(), OutOfMemory>
    ensures ok { OnOk result (out.new.items ≡ out.old.items ++ line_of name.now value.now) }
    ensures err { OnErr result (out.new.items ≡ out.old.items) }
{
    let before = out.len();
    let put = put_pieces(out, name, value);
    if put.is_err() {
        out.truncate(before);
    }
    put
}

// The pieces of a line, or the first few of them.
fn put_pieces(out: &mut Vec<u8>, name: &[u8], value: &[u8]) -> Result<(), OutOfMemory>
    ensures ok { OnOk result (out.new.items ≡ out.old.items ++ line_of name.now value.now) }
    ensures begins { (more : List ℕ) × (out.new.items ≡ out.old.items ++ more) }
{
    out.extend_from_slice(name)?;
    out.extend_from_slice(b": ")?;
    out.extend_from_slice(value)?;
    out.push(b'\n')?;
    Ok(())
}
