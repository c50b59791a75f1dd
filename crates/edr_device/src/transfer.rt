//! Whole transfers: all bytes of a source, and all bytes into a sink.
ghost use Rattle.std.specs.Prelude.{◌≡◌, ◌≢◌, ◌+◌, ◌≤◌, ◌<◌, ◌^◌, ℕ, List, [], Some, length, min, vec_len, IfOk, IsOk, OnErr, OnOk};
ghost use Rattle.std.specs.Option.{ForSome};
ghost use Rattle.edr_device.specs.Faults.{HasCause, Rose};
ghost use Rattle.edr_device.specs.Stream.{Appends};
ghost use Rattle.edr_device.specs.Told.{Told};
ghost use Rattle.edr_device.specs.Transfer.{AppendsPart, Carries, GivesAll, GivesAtMost, GivesTooMany, IsAnswerWithin};

use crate::stream::{Failed, Sink, Source};
use std::alloc::{AllocError, Global};

/// Why the bytes of a source were not all taken.
#[derive(Clone, Copy, Debug, PartialEq, Eq)]
pub enum TakeFault {
    /// The source failed.
    Failed,
    /// It gave one byte more than the limit.
    TooLong,
    OutOfMemory,
}

impl From<Failed> for TakeFault {
    ghost use Rattle.edr_device.specs.declared.transfer.TakeFault.TheVariants as fault;

    ghost from_gives = { λ _ e. e ≡ fault.Failed };

    fn from(_: Failed) -> TakeFault {
        TakeFault::Failed
    }
}

impl From<AllocError> for TakeFault {
    ghost use Rattle.edr_device.specs.declared.transfer.TakeFault.TheVariants as fault;

    ghost from_gives = { λ _ e. e ≡ fault.OutOfMemory };

    fn from(_: AllocError) -> TakeFault {
        TakeFault::OutOfMemory
    }
}

// The most bytes that are asked for at once.
const LONGEST_PIECE: usize = 65_536;

/// How long a piece to ask a source for, where `wanted` bytes are wanted in all: as many, or 65,536.
pub fn piece_len(wanted: usize) -> usize
    requires { 1 ≤ wanted }
    ensures value { result ≡ min wanted 65_536 }
    ensures some { 1 ≤ result }
    ensures within { result ≤ wanted }
{
    wanted.min(LONGEST_PIECE)
}

// Carries one piece of the source to the end of `taken`, and answers how many bytes it had.
fn take_more<S: Source>(
    source: &mut S,
    buffer: &mut [u8],
    taken: &mut Vec<u8>,
) -> Result<usize, TakeFault>
    requires { 1 ≤ length buffer.old }
    ensures within { IfOk result (λ n. n ≤ length buffer.old) }
    ensures len { IfOk result (λ n. vec_len taken.new ≡ vec_len taken.old + n) }
    ensures carries { IfOk result (λ n. Told (Carries n taken.old.items taken.new.items) (S.left source.old) (S.left source.new)) }
    ensures err { OnErr result (Told (GivesAtMost (length buffer.old)) (S.left source.old) (S.left source.new)) }
    ensures later { S.faults source.old ≤ S.faults source.new }
    ensures failed { result ≡ Err TakeFault.Failed → Rose (S.faults source.old) (S.faults source.new) }
    ensures not_too_long { result ≢ Err TakeFault.TooLong }
{
    let n = source.take(buffer)?;
    taken.extend_from_slice(&buffer[..n])?;
    Ok(n)
}

/// Takes all bytes up to the end of the source. Where there are more than `limit` of them, it stops after one more.
pub fn take_all<S: Source>(
    alloc: Global,
    source: &mut S,
    limit: usize,
) -> Result<Vec<u8>, TakeFault>
    requires { limit < 2 ^ 32 }
    ensures all { IfOk result (λ v. Told (GivesAll v.items) (S.left source.old) (S.left source.new)) }
    ensures within { IfOk result (λ v. vec_len v ≤ limit) }
    ensures too_long { result ≡ Err TakeFault.TooLong → Told (GivesTooMany limit) (S.left source.old) (S.left source.new) }
    ensures failed { result ≡ Err TakeFault.Failed → Rose (S.faults source.old) (S.faults source.new) }
    ensures complete { ForSome (S.left source.old) (λ bytes.
        ¬ Rose (S.faults source.old) (S.faults source.new) → IsAnswerWithin limit bytes result) }
    ensures err { OnErr result (Told (GivesAtMost (limit + 1)) (S.left source.old) (S.left source.new)) }
    ensures later { S.faults source.old ≤ S.faults source.new }
{
    let mut taken = Vec::new(alloc);
    let mut buffer = vec![in alloc; 0; piece_len(limit + 1)]?;
    while taken.len() <= limit {
        let room = buffer.len().min(limit + 1 - taken.len());
        if take_more(source, &mut buffer[..room], &mut taken)? == 0 {
            return Ok(taken);
        }
    }
    Err(TakeFault::TooLong)
}

/// Puts all bytes into the sink.
pub fn put_all<K: Sink>(sink: &mut K, bytes: &[u8]) -> Result<(), Failed>
    ensures ok { OnOk result (Told (Appends bytes.now) (K.content sink.old) (K.content sink.new)) }
    ensures err { OnErr result (Told (AppendsPart bytes.now) (K.content sink.old) (K.content sink.new)) }
    ensures cause { HasCause (K.faults sink.old) (K.faults sink.new) result }
    ensures nothing { bytes.now ≡ [] → IsOk result × (sink.new ≡ sink.old) }
{
    let mut at = 0;
    while at < bytes.len() {
        at += sink.put(&bytes[at..])?;
    }
    Ok(())
}
