//! Memory that is filled from a source.
ghost use Rattle.std.specs.Prelude.{◌≡◌, ◌≢◌, ◌+◌, ◌≤◌, [], ◌++◌, take, length, IfOk, OnErr};
ghost use Rattle.edr_device.specs.Faults.{Rose};
ghost use Rattle.edr_device.specs.Told.{Told};
ghost use Rattle.edr_device.specs.Transfer.{Carries, GivesAtMost};
ghost use Rattle.edr_fleet.specs.Reading.{Fills, TakesPortion};

use edr_device::{Source, TakeFault};

/// So many bytes are taken before their frames are reported. Two such memories serve again and
/// again: to take fresh memory for all bytes costs more time than to read them.
const PORTION: usize = 2_097_152;

/// How many bytes a source gave, and whether it is at its end.
#[derive(Clone, Copy, Debug, PartialEq, Eq)]
pub(crate) struct Filled {
    pub(crate) taken: usize,
    pub(crate) is_end: bool,
}

// Appends one piece of the source, and answers how many bytes it had.
fn take_piece<S: Source>(
    source: &mut S,
    buffer: &mut [u8],
    held: &mut Vec<u8>,
) -> Result<usize, TakeFault>
    requires { 1 ≤ length buffer.old }
    ensures within { IfOk result (λ n. n ≤ length buffer.old) }
    ensures gained { IfOk result (λ n. held.new.items ≡ held.old.items ++ take n buffer.new) }
    ensures carries { IfOk result (λ n. Told (Carries n [] (take n buffer.new))
        (S.left source.old) (S.left source.new)) }
    ensures err { OnErr result (Told (GivesAtMost (length buffer.old))
        (S.left source.old) (S.left source.new)) }
    ensures later { S.faults source.old ≤ S.faults source.new }
    ensures failed { result ≡ Err TakeFault.Failed
        → Rose (S.faults source.old) (S.faults source.new) }
    ensures not_too_long { result ≢ Err TakeFault.TooLong }
{
    let n = source.take(buffer)?;
    held.extend_from_slice(&buffer[..n])?;
    Ok(n)
}

/// Appends a portion of what the source gives, and at most so many bytes. Once the source is at its
/// end, it is asked no more.
pub(crate) fn fill<S: Source>(
    source: &mut S,
    buffer: &mut [u8],
    held: &mut Vec<u8>,
    most: usize,
) -> Result<Filled, TakeFault>
    requires { 1 ≤ length buffer.old }
    ensures { TakesPortion most (λ f. f) (λ f. Fills f held.old.items held.new.items)
        (S.left source.old) (S.left source.new) (S.faults source.old) (S.faults source.new) result }
{
    let most_now = most.min(PORTION);
    let mut taken = 0;
    while taken < most_now {
        let room = buffer.len().min(most_now - taken);
        let n = take_piece(source, &mut buffer[..room], held)?;
        if n == 0 {
            return Ok(Filled {
                taken,
                is_end: true,
            });
        }
        taken += n;
    }
    Ok(Filled {
        taken,
        is_end: false,
    })
}
