//! A memory that keeps its bytes without power, as callers see it.
ghost use Rattle.std.specs.Prelude.{◌≡◌, ◌+◌, ◌≤◌, ◌<◌, ◌^◌, ℕ, Bool, List, Option, Some, length, IsErr, OnOk, OnErr};
ghost use Rattle.edr_device.specs.Device.{Across, CrashInSync, CrashInWrite, MayLeave, Repowered, Shows, Synced, Ticks, Unchanged, Wrote};
ghost use Rattle.edr_device.specs.Faults.{HasCause, last_number};
ghost use Rattle.edr_device.specs.declared.device.TheConstants.{LONGEST_WRITE};

use crate::stream::Failed;

/// The most bytes of one write.
pub const LONGEST_WRITE: usize = 1_024;

/// [`LONGEST_WRITE`] in numbers, since the clauses below cite it by name.
pub fn a_write_is_short()
    ensures { LONGEST_WRITE ≡ 1024 }
{}

/// A memory of fixed size, of bytes with the offsets 0 to size - 1. A sync settles what was written before it. A crash
/// keeps the settled bytes alone, and leaves anything at the other offsets.
///
/// A device may tell nothing of its bytes, as an adapter over a file does. Where it tells them, each clause holds of
/// them; the clock, the last good moment, the faults and the size it tells always.
///
/// A function that is lent a device says `goes_on nvm.old nvm.new` of it, so that a caller whose device stands round
/// another one still knows it.
pub trait Nvm {
    /// How many bytes it has. No call changes it.
    ghost extent: { Self → ℕ };

    /// What a read gives, if the device tells it.
    ghost content: { Self → Option (List ℕ) };

    /// Which offsets are settled.
    ghost settled: { Self → ℕ → Bool };

    /// What a crash at some moment from that one up to now may have left.
    ghost since: { Self → ℕ → List ℕ → Type 0 };

    /// How many writes and syncs were made, failed ones too. Its numbers are the moments.
    ghost clock: { Self → ℕ };

    /// The moment after the last of them that succeeded, 0 before one.
    ghost last_good: { Self → ℕ };

    /// How often it has failed.
    ghost faults: { Self → ℕ };

    /// What no call of this trait changes, as which device a device stands round.
    ghost goes_on: { Self → Self → Type 0 };

    /// How many bytes it has.
    fn size(&self) -> u32
        ensures { result ≡ extent self.now };

    /// Reads the bytes from `at` on. Neither a read nor a failed read changes the device, and a failed one leaves `into`
    /// as it was.
    fn read(&mut self, at: u32, into: &mut [u8]) -> Result<(), Failed>
        requires range { at + length into.old ≤ extent self.old }
        ensures size { extent self.new ≡ extent self.old }
        ensures bytes { OnOk result (Shows at into.new (content self.old)) }
        ensures into_stays { OnErr result (into.new ≡ into.old) }
        ensures stays { Unchanged content settled since self.old self.new }
        ensures clock { clock self.new ≡ clock self.old }
        ensures good { last_good self.new ≡ last_good self.old }
        ensures cause { HasCause (faults self.old) (faults self.new) result }
        ensures device { goes_on self.old self.new };

    /// Writes 1 to [`LONGEST_WRITE`] bytes from `at` on, which are not settled then. A failed write keeps each settled byte outside
    /// their range, and leaves anything elsewhere, settled or not. At the last number of the clock nothing is done.
    fn write(&mut self, at: u32, bytes: &[u8]) -> Result<(), Failed>
        requires range { at + length bytes.now ≤ extent self.old }
        requires piece { (1 ≤ length bytes.now) × (length bytes.now ≤ LONGEST_WRITE) }
        ensures size { extent self.new ≡ extent self.old }
        ensures told { Across content settled (Wrote at bytes.now result) self.old self.new }
        ensures time { Ticks (clock self.old) (clock self.new) (last_good self.old) (last_good self.new) result }
        // A crash inside the call leaves what is settled outside the range.
        ensures crash { CrashInWrite content settled since
            (clock self.old) at bytes.now self.old self.new }
        ensures full { clock self.old ≡ last_number
            → IsErr result × Unchanged content settled since self.old self.new }
        ensures cause { HasCause (faults self.old) (faults self.new) result }
        ensures device { goes_on self.old self.new };

    /// Settles all bytes. A failed sync keeps each settled byte, and leaves anything elsewhere, settled or not. At the
    /// last number of the clock nothing is done.
    fn sync(&mut self) -> Result<(), Failed>
        ensures size { extent self.new ≡ extent self.old }
        ensures told { Across content settled (Synced result) self.old self.new }
        ensures time { Ticks (clock self.old) (clock self.new) (last_good self.old) (last_good self.new) result }
        // A crash inside the call leaves what was settled.
        ensures crash { CrashInSync content settled since (clock self.old) self.old self.new }
        ensures full { clock self.old ≡ last_number
            → IsErr result × Unchanged content settled since self.old self.new }
        ensures cause { HasCause (faults self.old) (faults self.new) result }
        ensures device { goes_on self.old self.new };

    /// Takes the power away and gives it back: the bytes are then an image that a crash may leave, and all are settled.
    /// A failed power cycle changes nothing.
    fn power_cycle(&mut self) -> Result<(), Failed>
        ensures size { extent self.new ≡ extent self.old }
        ensures told { Repowered content settled since result self.old self.new }
        ensures no_more { (t : ℕ) (image : List ℕ) → t ≤ clock self.old
            → since self.new t image → since self.old t image }
        // What a crash may have left since a moment before the last good one stays. A power cycle has no moment of its
        // own, so the images of the present moment give way to the one that is left.
        ensures past_stays { (t : ℕ) (image : List ℕ) → t < last_good self.old
            → since self.old t image → since self.new t image }
        ensures clock { clock self.new ≡ clock self.old }
        ensures good { last_good self.new ≡ last_good self.old }
        ensures cause { HasCause (faults self.old) (faults self.new) result }
        ensures device { goes_on self.old self.new };

    /// What a crash now may leave counts since each moment up to now.
    ghost counts_now: { (device : Self) (t : ℕ) (image : List ℕ) → t ≤ clock device
        → MayLeave (content device) (settled device) image → since device t image };

    /// Since the present moment nothing more counts.
    ghost only_now: { (device : Self) (image : List ℕ) → since device (clock device) image
        → MayLeave (content device) (settled device) image };

    /// Since an earlier moment at least as much counts.
    ghost sooner: { (device : Self) (t u : ℕ) (image : List ℕ) → t ≤ u → u ≤ clock device
        → since device u image → since device t image };

    ghost told_size: { (device : Self) (bytes : List ℕ) → content device ≡ Some bytes
        → length bytes ≡ extent device };

    ghost extent_fits: { (device : Self) → extent device < 2 ^ 32 };

    ghost clock_fits: { (device : Self) → clock device ≤ last_number };

    ghost good_fits: { (device : Self) → last_good device ≤ clock device };

    ghost faults_fit: { (device : Self) → faults device ≤ last_number };

    ghost goes_on_self: { (device : Self) → goes_on device device };

    ghost goes_on_again: { (a b c : Self) → goes_on a b → goes_on b c → goes_on a c };
}
