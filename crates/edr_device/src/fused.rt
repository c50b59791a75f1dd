//! The planned power cut.
ghost use Rattle.std.specs.Prelude.{◌≡◌, ◌≢◌, ◌⊎◌, ◌+◌, ◌-◌, ◌<◌, ◌≤◌, ℕ, List, Some, min, true, false, is_ok, length, IsTrue, IsErr, OnOk, OnErr};
ghost use Rattle.edr_device.specs.Device.{Across, CrashInSync, CrashInWrite, IsSettled, Repowered, Shows, Synced, Ticks, Wrote};
ghost use Rattle.edr_device.specs.Faults.{HasCause, Rose, last_number};
ghost use Rattle.edr_device.specs.declared.device.TheConstants.{LONGEST_WRITE};

use crate::device::Nvm;
use crate::stream::Failed;
use std::snapshot::Snapshot;

/// A device round a device, with a clock of its own, that takes the power away at a planned call and then refuses all.
#[derive(Drop)]
pub struct Fused<'a, N: Nvm> {
    nvm: &'a mut N,
    // The device as it was when the clock began.
    start: Snapshot<N>,
    // The device as it was at the last stop, before the power went.
    middle: Snapshot<N>,
    ticks: u64,
    last_good: u64,
    faults: u64,
    // The faults when the clock began.
    calm: u64,
    // The changing call of this number after `armed_at` is the stop; 0 is none.
    armed: u32,
    armed_at: u64,
    spent: bool,
    // The clock right after the last stop.
    cut: u64,
    broken: bool,
    ghost exact: { spent ≡ false → N.clock nvm.now ≡ min (N.clock start.value + ticks) last_number },
    ghost later: { spent ≡ false → N.clock nvm.now ≤ N.clock start.value + ticks },
    ghost start_within: { N.clock start.value ≤ last_number },
    ghost counted: { ticks ≤ last_number },
    ghost good: { last_good ≤ ticks },
    ghost good_inside: { spent ≡ false → 0 < last_good → N.last_good nvm.now ≡ N.clock start.value + last_good },
    ghost faults_within: { faults ≤ last_number },
    ghost armed_before: { armed_at ≤ ticks },
    ghost waits: { spent ≡ false → 0 < armed → ticks < armed_at + armed },
    ghost after_cut: { spent ≡ true → cut ≤ ticks },
    ghost good_before: { spent ≡ true → last_good < cut },
    ghost planned: { spent ≡ true → armed_at < cut → cut ≡ armed_at + armed },
    ghost quiet: { spent ≡ true → broken ≡ false → (bytes : List ℕ) → N.content nvm.now ≡ Some bytes → IsSettled (N.settled nvm.now) },
    ghost blameless: { spent ≡ false → broken ≡ false → ticks < last_number → faults ≡ calm },
}

// How many of the planned calls are still to come after these.
fn waiting(armed: u32, passed: u64) -> u32
    ensures { result ≡ armed - passed }
{
    if passed < u64::from(armed) {
        armed - passed as u32
    } else {
        0
    }
}

impl<'a, N: Nvm> Fused<'a, N> {
    ghost use Rattle.edr_device.specs.FuseState.{FuseStays, IsDue, after_lift, after_refused_change, armed_for, fuse_state, new_fuse};

    /// A fuse round a device, which has no stop planned.
    pub fn new(nvm: &'a mut N) -> Fused<'a, N>
        ensures device { result.nvm.ghost_name ≡ nvm.entry.ghost_name }
        ensures now { result.nvm.now ≡ nvm.old }
        ensures state { fuse_state result ≡ new_fuse }
    {
        let start = Snapshot::of(&*nvm);
        let middle = Snapshot::of(&*nvm);
        Fused {
            nvm,
            start,
            middle,
            ticks: 0,
            last_good: 0,
            faults: 0,
            calm: 0,
            armed: 0,
            armed_at: 0,
            spent: false,
            cut: 0,
            broken: false,
        }
    }

    /// Plans the stop: the write or sync of this number from now on. 0 plans none.
    pub fn arm(&mut self, changing_calls: u32)
        ensures device { self.new.nvm.ghost_name ≡ self.old.nvm.ghost_name }
        ensures now { self.new.nvm.now ≡ self.old.nvm.now }
        ensures state { fuse_state self.new ≡ armed_for changing_calls (fuse_state self.old) }
        ensures stays { FuseStays self.old self.new }
    {
        self.armed = changing_calls;
        self.armed_at = self.ticks;
    }

    /// Ends a stop, and begins its clock anew. A plan that still waits stays.
    pub fn lift(&mut self)
        ensures device { self.new.nvm.ghost_name ≡ self.old.nvm.ghost_name }
        ensures now { self.new.nvm.now ≡ self.old.nvm.now }
        ensures state { fuse_state self.new ≡ after_lift (fuse_state self.old) }
    {
        self.armed = waiting(self.armed, self.ticks - self.armed_at);
        self.armed_at = 0;
        self.ticks = 0;
        self.last_good = 0;
        self.calm = self.faults;
        self.spent = false;
        self.cut = 0;
        self.start = Snapshot::of(&*self.nvm);
    }

    /// Whether it has stopped since it was made or last lifted.
    pub fn spent(&self) -> bool
        ensures { result ≡ self.now.spent }
    {
        self.spent
    }

    /// Whether a call of the device has failed since the fuse was made.
    pub fn broken(&self) -> bool
        ensures { result ≡ self.now.broken }
    {
        self.broken
    }

    /// Gives the device back. A caller calls it on each path: of a fuse that is merely let go, contracts don't say what
    /// became of the device.
    pub fn end(self)
        ensures { self.exit.0.now ≡ self.entry.nvm.now }
    {}

    // Whether the next write or sync is the stop.
    fn is_due(&self) -> bool
        requires { self.now.ticks < last_number }
        ensures due { result ≡ true → IsDue (fuse_state self.now) }
        ensures not_due { result ≡ false → ¬ IsDue (fuse_state self.now) }
    {
        self.armed != 0 && self.ticks + 1 - self.armed_at == u64::from(self.armed)
    }

    // Counts a write or sync that it refuses.
    fn refuse(&mut self) -> Failed
        requires { self.old.spent ≡ false → self.old.ticks ≡ last_number }
        ensures device { self.new.nvm.ghost_name ≡ self.old.nvm.ghost_name }
        ensures now { self.new.nvm.now ≡ self.old.nvm.now }
        ensures state { fuse_state self.new ≡ after_refused_change (fuse_state self.old) }
        ensures moments { (self.new.start.value ≡ self.old.start.value) × (self.new.middle.value ≡ self.old.middle.value) }
    {
        self.ticks = self.ticks.saturating_add(1);
        self.faults = self.faults.saturating_add(1);
        Failed
    }
}

impl<'a, N: Nvm> Nvm for Fused<'a, N> {
    ghost use Rattle.edr_device.specs.FuseLaws.{fuse_counts_now, fuse_goes_on_again, fuse_goes_on_self, fuse_only_now, fuse_sooner};
    ghost use Rattle.edr_device.specs.FuseState.{ForwardsChange, FuseGoesOn, FuseStays, IsPassing, IsRefusing, IsStopping, Passes, Refuses, RefusesChange, StopsSync, StopsWrite, fuse_state, fused_content, fused_extent, fused_settled, fused_since};

    ghost extent = { λ f. fused_extent f };

    ghost content = { λ f. fused_content f };

    ghost settled = { λ f. fused_settled f };

    ghost since = { λ f. fused_since f };

    ghost clock = { λ f. f.ticks };

    ghost last_good = { λ f. f.last_good };

    ghost faults = { λ f. f.faults };

    ghost goes_on = { λ a b. FuseGoesOn a b };

    ghost counts_now = { λ f t image le left. fuse_counts_now f t image (λ u within now. N.counts_now f.nvm.now u image within now) left };

    ghost only_now = { λ f image left. fuse_only_now f image (λ l. N.only_now f.nvm.now image l) left };

    ghost sooner = { λ f t u image le within left. fuse_sooner f t u image (λ d a b le within l. N.sooner d a b image le within l) le left };

    ghost told_size = { λ f bytes told. N.told_size f.nvm.now bytes told };

    ghost extent_fits = { λ f. N.extent_fits f.nvm.now };

    ghost clock_fits = { λ f. f.counted };

    ghost good_fits = { λ f. f.good };

    ghost faults_fit = { λ f. f.faults_within };

    ghost goes_on_self = { λ f. fuse_goes_on_self f (N.goes_on_self f.nvm.now) };

    ghost goes_on_again = { λ a b c p q. fuse_goes_on_again a b c (λ r s. N.goes_on_again a.nvm.now b.nvm.now c.nvm.now r s) p q };

    fn size(&self) -> u32 {
        self.nvm.size()
    }

    /// It fails exactly where the fuse is spent or the device fails.
    fn read(&mut self, at: u32, into: &mut [u8]) -> Result<(), Failed>
        requires range { at + length into.old ≤ fused_extent self.old }
        ensures size { fused_extent self.new ≡ fused_extent self.old }
        ensures bytes { OnOk result (Shows at into.new (fused_content self.old)) }
        ensures into_stays { OnErr result (into.new ≡ into.old) }
        ensures stays { FuseStays self.old self.new }
        ensures clock { self.new.ticks ≡ self.old.ticks }
        ensures good { self.new.last_good ≡ self.old.last_good }
        ensures cause { HasCause self.old.faults self.new.faults result }
        ensures device { FuseGoesOn self.old self.new }

        ensures refuses { self.old.spent ≡ true → Refuses self.old self.new result }
        ensures passes { self.old.spent ≡ false → Passes self.old self.new result }
    {
        if self.spent {
            self.faults = self.faults.saturating_add(1);
            return Err(Failed);
        }
        match self.nvm.read(at, into) {
            Ok(()) => Ok(()),
            Err(failed) => {
                self.broken = true;
                self.faults = self.faults.saturating_add(1);
                Err(failed)
            }
        }
    }

    /// It fails exactly where it is the stop, where the fuse is spent or its clock stands at the last number, or where
    /// the device fails.
    fn write(&mut self, at: u32, bytes: &[u8]) -> Result<(), Failed>
        requires range { at + length bytes.now ≤ fused_extent self.old }
        requires piece { (1 ≤ length bytes.now) × (length bytes.now ≤ LONGEST_WRITE) }
        ensures size { fused_extent self.new ≡ fused_extent self.old }
        ensures told { Across fused_content fused_settled
            (Wrote at bytes.now result) self.old self.new }
        ensures time { Ticks self.old.ticks self.new.ticks self.old.last_good self.new.last_good result }
        ensures crash { CrashInWrite fused_content fused_settled fused_since
            self.old.ticks at bytes.now self.old self.new }
        ensures full { self.old.ticks ≡ last_number → IsErr result × FuseStays self.old self.new }
        ensures cause { HasCause self.old.faults self.new.faults result }
        ensures device { FuseGoesOn self.old self.new }

        ensures refuses { IsRefusing (fuse_state self.old) → RefusesChange self.old self.new result }
        ensures passes { IsPassing (fuse_state self.old) → ForwardsChange self.old self.new result }
        ensures stops { IsStopping (fuse_state self.old)
            → StopsWrite at bytes.now self.old self.new result }
    {
        if self.spent || self.ticks == u64::MAX {
            return Err(self.refuse());
        }
        if self.is_due() {
            let written = self.nvm.write(at, bytes);
            self.middle = Snapshot::of(&*self.nvm);
            let cycled = self.nvm.power_cycle();
            self.broken = self.broken | written.is_err() | cycled.is_err();
            self.ticks += 1;
            self.cut = self.ticks;
            self.spent = true;
            self.faults = self.faults.saturating_add(1);
            return Err(Failed);
        }
        match self.nvm.write(at, bytes) {
            Ok(()) => {
                self.ticks += 1;
                self.last_good = self.ticks;
                Ok(())
            }
            Err(failed) => {
                self.ticks += 1;
                self.broken = true;
                self.faults = self.faults.saturating_add(1);
                Err(failed)
            }
        }
    }

    /// It fails exactly where it is the stop, where the fuse is spent or its clock stands at the last number, or where
    /// the device fails.
    fn sync(&mut self) -> Result<(), Failed>
        ensures size { fused_extent self.new ≡ fused_extent self.old }
        ensures told { Across fused_content fused_settled (Synced result) self.old self.new }
        ensures time { Ticks self.old.ticks self.new.ticks self.old.last_good self.new.last_good result }
        ensures crash { CrashInSync fused_content fused_settled fused_since
            self.old.ticks self.old self.new }
        ensures full { self.old.ticks ≡ last_number → IsErr result × FuseStays self.old self.new }
        ensures cause { HasCause self.old.faults self.new.faults result }
        ensures device { FuseGoesOn self.old self.new }

        ensures refuses { IsRefusing (fuse_state self.old) → RefusesChange self.old self.new result }
        ensures passes { IsPassing (fuse_state self.old) → ForwardsChange self.old self.new result }
        ensures stops { IsStopping (fuse_state self.old) → StopsSync self.old self.new result }
    {
        if self.spent || self.ticks == u64::MAX {
            return Err(self.refuse());
        }
        if self.is_due() {
            self.middle = Snapshot::of(&*self.nvm);
            let cut = self.nvm.power_cycle();
            self.broken = self.broken | cut.is_err();
            self.ticks += 1;
            self.cut = self.ticks;
            self.spent = true;
            self.faults = self.faults.saturating_add(1);
            return Err(Failed);
        }
        match self.nvm.sync() {
            Ok(()) => {
                self.ticks += 1;
                self.last_good = self.ticks;
                Ok(())
            }
            Err(failed) => {
                self.ticks += 1;
                self.broken = true;
                self.faults = self.faults.saturating_add(1);
                Err(failed)
            }
        }
    }

    /// It fails exactly where the fuse is spent or the device fails.
    fn power_cycle(&mut self) -> Result<(), Failed>
        ensures size { fused_extent self.new ≡ fused_extent self.old }
        ensures told { Repowered fused_content fused_settled fused_since
            result self.old self.new }
        ensures no_more { (t : ℕ) (image : List ℕ) → t ≤ self.old.ticks
            → fused_since self.new t image → fused_since self.old t image }
        ensures past_stays { (t : ℕ) (image : List ℕ) → t < self.old.last_good
            → fused_since self.old t image → fused_since self.new t image }
        ensures clock { self.new.ticks ≡ self.old.ticks }
        ensures good { self.new.last_good ≡ self.old.last_good }
        ensures cause { HasCause self.old.faults self.new.faults result }
        ensures device { FuseGoesOn self.old self.new }

        ensures refuses { self.old.spent ≡ true → Refuses self.old self.new result }
        ensures passes { self.old.spent ≡ false → Passes self.old self.new result }
    {
        if self.spent {
            self.faults = self.faults.saturating_add(1);
            return Err(Failed);
        }
        match self.nvm.power_cycle() {
            Ok(()) => Ok(()),
            Err(failed) => {
                self.broken = true;
                self.faults = self.faults.saturating_add(1);
                Err(failed)
            }
        }
    }
}
