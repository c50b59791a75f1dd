//! The calls on an object in memory.
ghost use Rattle.std.specs.Prelude.{◌≡◌, ◌≤◌, ◌⊎◌, ◌↔◌, false, is_ok, IsTrue, OnErr, OnOk};
ghost use Rattle.std.specs.List.{Contains};
ghost use Rattle.edr_device.specs.Faults.{last_number};

use crate::stream::Failed;

/// Which calls are to fail, by their numbers from 1, how many there were, and how many of them failed.
#[derive(Drop)]
pub(crate) struct Calls {
    pub(crate) fails: Vec<u32>,
    pub(crate) made: u64,
    pub(crate) faults: u64,
    ghost made_within: { made ≤ last_number },
    ghost faults_within: { faults ≤ last_number },
}

// Whether a number is among these.
pub(crate) fn is_numbered(numbers: &[u32], n: u64) -> bool
    ensures { IsTrue result ↔ Contains numbers.now n }
{
    match u32::try_from(n) {
        Ok(number) => numbers.contains(&number),
        Err(_) => false,
    }
}

impl Calls {
    ghost use Rattle.edr_device.specs.CallCounts.{IsToFail, after_call, counts_of, no_calls};

    pub(crate) fn new(fails: Vec<u32>) -> Calls
        ensures { counts_of result ≡ no_calls fails.items }
    {
        Calls {
            fails,
            made: 0,
            faults: 0,
        }
    }

    /// Counts a call. It fails where it is numbered, or where it can't be done.
    pub(crate) fn begin(&mut self, can_be_done: bool) -> Result<(), Failed>
        ensures ok { OnOk result (IsTrue can_be_done × ¬ IsToFail (counts_of self.old)) }
        ensures err { OnErr result ((can_be_done ≡ false) ⊎ IsToFail (counts_of self.old)) }
        ensures counts { counts_of self.new ≡ after_call (is_ok result) (counts_of self.old) }
    {
        self.made = self.made.saturating_add(1);
        if can_be_done && !is_numbered(&self.fails, self.made) {
            return Ok(());
        }
        self.faults = self.faults.saturating_add(1);
        Err(Failed)
    }
}
