//! The pieces of the bytes that are audited.
ghost use Rattle.std.specs.Prelude.{◌≡◌, ◌≤◌, ◌<◌, ◌^◌, ◌∷◌, ◌++◌, ℕ, List, None, IfSome, length, nat_eq};
ghost use Rattle.std.specs.List.{position};
ghost use Rattle.edr_spell.specs.Spell.{largest_trace};
ghost use Rattle.edr_cli.specs.Audits.{ArePieces, lengths_line};
ghost use Rattle.edr_cli.specs.FirstLines.{Lacks};

use edr_text::read_u64;

// The most bytes of the first line, before its line feed.
const LONGEST_FIRST_LINE: usize = 21;

// Where the first of this kind stands.
fn place_of(bytes: &[u8], byte: u8) -> Option<usize>
    ensures place { result ≡ position (λ b. nat_eq b byte) bytes.now }
    ensures within { IfSome result (λ k. k < length bytes.now) }
{
    bytes.iter().position(|b| *b == byte)
}

// The bytes before the first of this kind, and those after it.
fn parted_by<'a>(bytes: &'a [u8], byte: u8) -> Option<(&'a [u8], &'a [u8])>
    ensures parts { IfSome result (λ p. bytes.now ≡ p.0.now ++ byte ∷ p.1.now) }
    ensures first { IfSome result (λ p. Lacks byte p.0.now) }
    ensures none { result ≡ None → Lacks byte bytes.now }
{
    let place = place_of(bytes, byte)?;
    Some((&bytes[..place], &bytes[place + 1..]))
}

// The two numbers of the first line.
fn lengths_in(line: &[u8]) -> Option<(u64, u64)>
    ensures some { IfSome result (λ n. line.now ≡ lengths_line n.0 n.1) }
    ensures none { result ≡ None → (a b : ℕ) → a < 2 ^ 64 → b < 2 ^ 64
        → line.now ≡ lengths_line a b → ⊥ }
{
    let (first, second) = parted_by(line, b' ')?;
    let first = read_u64(first).ok()?;
    let second = read_u64(second).ok()?;
    Some((first, second))
}

// As many first bytes, and the others.
fn cut_at<'a>(bytes: &'a [u8], count: u64) -> Option<(&'a [u8], &'a [u8])>
    ensures parts { IfSome result (λ p. bytes.now ≡ p.0.now ++ p.1.now) }
    ensures first { IfSome result (λ p. length p.0.now ≡ count) }
    ensures none { result ≡ None → length bytes.now < count }
{
    if (bytes.len() as u64) < count {
        return None;
    }
    Some(bytes.split_at(count as usize))
}

/// The bytes of an image, of a trace and of a report. A first line tells how long the image and the trace are.
#[derive(Drop)]
pub(crate) struct AuditPieces<'a> {
    pub before: &'a [u8],
    pub trace: &'a [u8],
    pub report: &'a [u8],
}

/// The pieces of these bytes, if they have such a first line and are as long as it tells.
pub(crate) fn pieces_of<'a>(bytes: &'a [u8]) -> Option<AuditPieces<'a>>
    requires { length bytes.now ≤ largest_trace }
    ensures some { IfSome result (λ p. ArePieces bytes.now p.before.now p.trace.now p.report.now) }
    ensures none { result ≡ None → (before trace report : List ℕ)
        → ArePieces bytes.now before trace report → ⊥ }
{
    let (line, rest) = parted_by(bytes, b'\n')?;
    if line.len() > LONGEST_FIRST_LINE {
        return None;
    }
    let (image_len, trace_len) = lengths_in(line)?;
    let (before, rest) = cut_at(rest, image_len)?;
    let (trace, report) = cut_at(rest, trace_len)?;
    Some(AuditPieces {
        before,
        trace,
        report,
    })
}
