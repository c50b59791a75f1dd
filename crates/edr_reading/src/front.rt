//! What stands in front of bytes.

ghost use Rattle.std.specs.{Prelude.{◌≡◌, ◌≤◌, ◌++◌, true, ℕ, List, length, take, drop, decimal, IfSome, MatchOption, ◌≢◌, ◌<◌, ◌^◌}, Bool.MatchBool};
ghost use Rattle.std.specs.List.{list_all};
ghost use Rattle.edr_text.specs.Numbers.{is_digit};
ghost use Rattle.edr_reading.specs.Answers.{AreUpTo, EndsNumber, IsFromTo, Reads, ReadsAfter, ReadsFront, ReadsTwo, number_after, two_numbers};

use edr_text::read_u32;

/// The bytes are this word.
pub(crate) fn is_word(bytes: &[u8], word: &[u8]) -> bool
    ensures { MatchBool result (bytes.now ≡ word.now) (bytes.now ≢ word.now) }
{
    bytes == word
}

/// What stands after these bytes, if they are in front.
pub(crate) fn after<'a>(bytes: &'a [u8], front: &[u8]) -> Option<&'a [u8]>
    ensures read { IfSome result (λ rest. bytes.now ≡ front.now ++ rest.now) }
    ensures whole { (more : List ℕ) → bytes.now ≡ front.now ++ more → MatchOption result ⊥ (λ rest. rest.now ≡ more) }
{
    match bytes.strip_prefix(front) {
        Some(rest) => Some(rest),
        None => None,
    }
}

// How many digits stand in front.
fn digits_in_front(bytes: &[u8]) -> usize
    ensures within { result ≤ length bytes.now }
    ensures digits { list_all is_digit (take result bytes.now) ≡ true }
    ensures ends { EndsNumber (drop result bytes.now) }
{
    for i in 0..bytes.len() {
        if bytes[i] < b'0' || bytes[i] > b'9' {
            return i;
        }
    }
    bytes.len()
}

// The number in front of the bytes, and what stands after it.
fn number_in_front(bytes: &[u8]) -> Option<(u32, &[u8])>
    ensures { ReadsFront decimal (λ n. n < 2 ^ 32) bytes.now result }
{
    let (digits, rest) = bytes.split_at(digits_in_front(bytes));
    match read_u32(digits) {
        Ok(n) => Some((n, rest)),
        Err(_) => None,
    }
}

/// The number after these bytes, where it is `low` to `high`, and what stands after it.
pub(crate) fn within_after<'a>(
    bytes: &'a [u8],
    front: &[u8],
    low: u32,
    high: u32,
) -> Option<(u32, &'a [u8])>
    ensures { ReadsAfter front.now decimal (IsFromTo low high) bytes.now result }
{
    let (n, rest) = number_in_front(after(bytes, front)?)?;
    (low <= n && n <= high).then_some((n, rest))
}

/// The number between these bytes, where it is `low` to `high`.
pub(crate) fn within(bytes: &[u8], front: &[u8], back: &[u8], low: u32, high: u32) -> Option<u32>
    requires { EndsNumber back.now }
    ensures { Reads (λ n. front.now ++ (decimal n ++ back.now)) (IsFromTo low high) bytes.now result }
{
    let (n, rest) = within_after(bytes, front, low, high)?;
    is_word(rest, back).then_some(n)
}

/// The number after these bytes, where it is `low` to `high`, with nothing after it.
pub(crate) fn last_within(bytes: &[u8], front: &[u8], low: u32, high: u32) -> Option<u32>
    ensures { Reads (number_after front.now) (IsFromTo low high) bytes.now result }
{
    within(bytes, front, b"", low, high)
}

/// The two numbers between these bytes, where they are at most `high`.
pub(crate) fn two_within(bytes: &[u8], middle: &[u8], back: &[u8], high: u32) -> Option<(u32, u32)>
    requires middle { (more : List ℕ) → EndsNumber (middle.now ++ more) }
    requires back { EndsNumber back.now }
    ensures { ReadsTwo (two_numbers middle.now back.now) (AreUpTo high) bytes.now result }
{
    let (m, rest) = within_after(bytes, b"", 0, high)?;
    let n = within(rest, middle, back, 0, high)?;
    Some((m, n))
}
