//! What is counted.
ghost use Rattle.std.specs.Prelude.{◌≡◌};
ghost use Rattle.edr_large.specs.Counts.{counts_of, is_complete, is_done, is_event, is_kept, is_locked, is_not_kept, many};

use edr_image::{Ack, Applied, BankView, Found};

/// What a run came to.
#[derive(Clone, Copy, Debug, PartialEq, Eq)]
pub struct Counts {
    /// Ignition cycles.
    pub cycles: u64,
    /// Rows of their trace.
    pub rows: u64,
    /// Events that were taken into a bank.
    pub takes: u64,
    /// Events that were locked in their bank.
    pub locks: u64,
    /// Events that were done in their bank.
    pub dones: u64,
    /// Commands that no bank kept.
    pub not_kept: u64,
    /// Events that the banks hold at the end.
    pub retrieved: u64,
    /// Those of them with every element.
    pub complete: u64,
}

fn count_kept(acks: &[Ack]) -> u64
    ensures { result ≡ many is_kept acks.now }
{
    let kept = |ack: &&Ack| matches!(ack.applied, Applied::Kept { .. });
    acks.iter().filter(kept).count() as u64
}

fn count_locked(acks: &[Ack]) -> u64
    ensures { result ≡ many is_locked acks.now }
{
    let locked = |ack: &&Ack| matches!(ack.applied, Applied::Locked { .. });
    acks.iter().filter(locked).count() as u64
}

fn count_done(acks: &[Ack]) -> u64
    ensures { result ≡ many is_done acks.now }
{
    let done = |ack: &&Ack| matches!(ack.applied, Applied::Done { .. });
    acks.iter().filter(done).count() as u64
}

fn count_not_kept(acks: &[Ack]) -> u64
    ensures { result ≡ many is_not_kept acks.now }
{
    let not_kept = |ack: &&Ack| matches!(ack.applied, Applied::NotKept);
    acks.iter().filter(not_kept).count() as u64
}

fn count_events(found: &[Found]) -> u64
    ensures { result ≡ many is_event found.now }
{
    let is_event = |found: &&Found| matches!(found.view, BankView::Event(_));
    found.iter().filter(is_event).count() as u64
}

fn is_complete(found: &Found) -> bool
    ensures { result ≡ is_complete found.now }
{
    match found.view {
        BankView::Event(record) => record.complete(),
        _ => false,
    }
}

fn count_complete(found: &[Found]) -> u64
    ensures { result ≡ many is_complete found.now }
{
    let is_whole = |found: &&Found| is_complete(found);
    found.iter().filter(is_whole).count() as u64
}

/// Counts what was acknowledged and what was found.
pub(crate) fn counts_of(cycles: u32, rows: u64, acks: &[Ack], found: &[Found]) -> Counts
    ensures { result ≡ counts_of cycles rows acks.now found.now }
{
    Counts {
        cycles: u64::from(cycles),
        rows,
        takes: count_kept(acks),
        locks: count_locked(acks),
        dones: count_done(acks),
        not_kept: count_not_kept(acks),
        retrieved: count_events(found),
        complete: count_complete(found),
    }
}
