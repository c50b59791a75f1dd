//! A memory in memory.
ghost use Rattle.std.specs.Prelude.{◌≡◌, ◌+◌, ◌<◌, ◌≤◌, ◌^◌, ℕ, List, Some, length, min, slice_get, vec_capacity, slice_index, true, false, is_ok, IsOk, IsErr, OnOk, OnErr, IfOk, IsTrue};
ghost use Rattle.edr_device.specs.Device.{Across, CrashInSync, CrashInWrite, Repowered, Shows, Synced, Ticks, Wrote};
ghost use Rattle.edr_device.specs.Faults.{HasCause, last_number};
ghost use Rattle.edr_device.specs.Past.{MayBeLeft, settled_at};
ghost use Rattle.edr_device.specs.Numbers.{NoneYet};
ghost use Rattle.edr_device.specs.declared.device.TheConstants.{LONGEST_WRITE};
ghost use Rattle.edr_device.specs.declared.moment.Call.{Call};

use crate::calls::is_numbered;
use crate::device::Nvm;
use crate::moment::{Call, HeldBytes};
use crate::stream::Failed;
use std::alloc::{AllocError as OutOfMemory, Global};
use std::snapshot::Snapshot;

/// A memory that fails at some of its calls. Of each past moment it keeps snapshots, which take no bytes.
#[derive(Drop)]
pub struct MemNvm {
    state: HeldBytes,
    // The bytes as they were when they were last settled.
    stored: Vec<u8>,
    past: Vec<Call>,
    // How many writes and syncs it takes.
    calls: u32,
    fails: Vec<u32>,
    read_fails: Vec<u32>,
    pick: u64,
    clock: u64,
    last_good: u64,
    reads: u64,
    faults: u64,
    ghost room: { calls ≤ vec_capacity past },
    ghost kept: { length past.items ≡ min clock calls },
    ghost good: { last_good ≤ clock },
    ghost clock_within: { clock ≤ last_number },
    ghost faults_within: { faults ≤ last_number },
    ghost stored_size: { length stored.items ≡ length state.image.items },
    ghost stored_is: { (i : ℕ) → i < length state.image.items → settled_at state i ≡ true → slice_index stored.items i ≡ slice_index state.image.items i },
    // What a crash now may leave was there at the last good call too.
    ghost good_kept: { last_good ≤ length past.items },
    ghost covered: { (k : ℕ) (c : Call) (image : List ℕ) → last_good ≡ k + 1 → slice_get past.items k ≡ Some c → MayBeLeft state image → MayBeLeft c.after.value image },
    // It fails only where a call is numbered, or where none is left.
    ghost blameless: { NoneYet fails.items clock → NoneYet read_fails.items reads → clock ≤ calls → faults ≡ 0 },
}

impl MemNvm {
    ghost use Rattle.edr_device.specs.Memory.{ChangeFails, Remembers, after_failed_change, memory_image, memory_state, new_memory};

    /// A memory with these bytes, all settled. It takes `calls` writes and syncs, and each one past them fails. So do
    /// the writes and syncs that are numbered in `fails`, and the reads that are numbered in `read_fails`, from 1. By
    /// `pick` a power cycle gives each byte that is not settled its last settled value (0), leaves it (1), or draws it.
    pub fn new(
        alloc: Global,
        image: Vec<u8>,
        calls: u32,
        fails: Vec<u32>,
        read_fails: Vec<u32>,
        pick: u64,
    ) -> Result<MemNvm, OutOfMemory>
        requires { length image.items < 2 ^ 32 }
        ensures { IfOk result (λ m. memory_state m ≡ new_memory image.items calls fails.items read_fails.items pick) }
    {
        let settled = vec![in alloc; true; image.len()]?;
        let stored = image.to_vec(alloc)?;
        let past = Vec::with_capacity(alloc, calls as usize)?;
        let state = HeldBytes { image, settled };
        Ok(MemNvm {
            state,
            stored,
            past,
            calls,
            fails,
            read_fails,
            pick,
            clock: 0,
            last_good: 0,
            reads: 0,
            faults: 0,
        })
    }

    /// The bytes that a read gives.
    pub fn image(&self) -> &[u8]
        ensures { result.now ≡ memory_image self.now }
    {
        &self.state.image
    }

    // Whether the next write or sync succeeds.
    fn takes_call(&self) -> bool
        ensures takes { IsTrue result → (self.now.clock < self.now.calls) × ¬ ChangeFails (memory_state self.now) }
        ensures refuses { result ≡ false → ChangeFails (memory_state self.now) }
    {
        self.clock < u64::from(self.calls) && !is_numbered(&self.fails, self.clock + 1)
    }

    // Counts a write or sync that fails, and the fault.
    fn refuse(&mut self) -> Failed
        requires { ChangeFails (memory_state self.old) }
        ensures state { self.new.state ≡ self.old.state }
        ensures after { memory_state self.new ≡ after_failed_change (memory_state self.old) }
        ensures past { Remembers self.old self.new }
        ensures full { self.old.clock ≡ last_number → self.new.past.items ≡ self.old.past.items }
    {
        self.faults = self.faults.saturating_add(1);
        if self.clock >= u64::from(self.calls) {
            self.clock = self.clock.saturating_add(1);
            return Failed;
        }
        let before = Snapshot::of(&self.state);
        let after = Snapshot::of(&self.state);
        self.past.push_reserved(Call { before, after });
        self.clock += 1;
        Failed
    }
}

impl Nvm for MemNvm {
    ghost use Rattle.std.specs.Prelude.{length};
    ghost use Rattle.std.proofs.Common.{inl};
    ghost use Rattle.edr_device.specs.Past.{left_sooner, only_this};
    ghost use Rattle.edr_device.specs.Memory.{ChangeFails, MemoryStays, ReadFails, SameChoices, after_power_cycle, after_read, after_sync, after_write, memory_content, memory_image, memory_settled, memory_since, memory_state, past_within, same_choices_again, same_choices_self, told_length};

    ghost extent = { λ m. length (memory_image m) };

    ghost content = { λ m. memory_content m };

    ghost settled = { λ m. memory_settled m };

    ghost since = { λ m. memory_since m };

    ghost clock = { λ m. m.clock };

    ghost last_good = { λ m. m.last_good };

    ghost faults = { λ m. m.faults };

    ghost goes_on = { λ a b. SameChoices a b };

    ghost counts_now = { λ m t image le now. inl now };

    ghost only_now = { λ m image left. only_this m.past.items m.state m.clock image (past_within m) left };

    ghost sooner = { λ m t u image le within left. left_sooner m.past.items m.state t u image le left };

    ghost told_size = { λ m bytes told. told_length m.state.image.items bytes told };

    ghost extent_fits = { λ m. m.state.sizes.1 };

    ghost clock_fits = { λ m. m.clock_within };

    ghost good_fits = { λ m. m.good };

    ghost faults_fit = { λ m. m.faults_within };

    ghost goes_on_self = { λ m. same_choices_self m };

    ghost goes_on_again = { λ a b c p q. same_choices_again a b c p q };

    fn size(&self) -> u32 {
        self.state.image.len() as u32
    }

    /// It fails exactly where the read is numbered.
    fn read(&mut self, at: u32, into: &mut [u8]) -> Result<(), Failed>
        requires range { at + length into.old ≤ length (memory_image self.old) }
        ensures size { length (memory_image self.new) ≡ length (memory_image self.old) }
        ensures bytes { OnOk result (Shows at into.new (memory_content self.old)) }
        ensures into_stays { OnErr result (into.new ≡ into.old) }
        ensures stays { MemoryStays self.old self.new }
        ensures clock { self.new.clock ≡ self.old.clock }
        ensures good { self.new.last_good ≡ self.old.last_good }
        ensures cause { HasCause self.old.faults self.new.faults result }
        ensures device { SameChoices self.old self.new }

        ensures succeeds { OnOk result (¬ ReadFails (memory_state self.old)) }
        ensures fails { OnErr result (ReadFails (memory_state self.old)) }
        ensures after { memory_state self.new ≡ after_read (is_ok result) (memory_state self.old) }
    {
        self.reads = self.reads.saturating_add(1);
        if is_numbered(&self.read_fails, self.reads) {
            self.faults = self.faults.saturating_add(1);
            return Err(Failed);
        }
        let at = at as usize;
        into.copy_from_slice(&self.state.image[at..at + into.len()]);
        Ok(())
    }

    /// It fails exactly where the call is numbered or none is left, and then changes no byte.
    fn write(&mut self, at: u32, bytes: &[u8]) -> Result<(), Failed>
        requires range { at + length bytes.now ≤ length (memory_image self.old) }
        requires piece { (1 ≤ length bytes.now) × (length bytes.now ≤ LONGEST_WRITE) }
        ensures size { length (memory_image self.new) ≡ length (memory_image self.old) }
        ensures told { Across memory_content memory_settled
            (Wrote at bytes.now result) self.old self.new }
        ensures time { Ticks self.old.clock self.new.clock self.old.last_good self.new.last_good result }
        ensures crash { CrashInWrite memory_content memory_settled memory_since
            self.old.clock at bytes.now self.old self.new }
        ensures full { self.old.clock ≡ last_number → IsErr result × MemoryStays self.old self.new }
        ensures cause { HasCause self.old.faults self.new.faults result }
        ensures device { SameChoices self.old self.new }

        ensures succeeds { OnOk result (¬ ChangeFails (memory_state self.old)) }
        ensures fails { OnErr result (ChangeFails (memory_state self.old)) }
        ensures after { memory_state self.new ≡ after_write (is_ok result) at bytes.now (memory_state self.old) }
    {
        if !self.takes_call() {
            return Err(self.refuse());
        }
        let before = Snapshot::of(&self.state);
        self.state.put(at as usize, bytes);
        let after = Snapshot::of(&self.state);
        self.past.push_reserved(Call { before, after });
        self.clock += 1;
        self.last_good = self.clock;
        Ok(())
    }

    /// It fails exactly where the call is numbered or none is left, and then settles nothing.
    fn sync(&mut self) -> Result<(), Failed>
        ensures size { length (memory_image self.new) ≡ length (memory_image self.old) }
        ensures told { Across memory_content memory_settled (Synced result) self.old self.new }
        ensures time { Ticks self.old.clock self.new.clock self.old.last_good self.new.last_good result }
        ensures crash { CrashInSync memory_content memory_settled memory_since
            self.old.clock self.old self.new }
        ensures full { self.old.clock ≡ last_number → IsErr result × MemoryStays self.old self.new }
        ensures cause { HasCause self.old.faults self.new.faults result }
        ensures device { SameChoices self.old self.new }

        ensures succeeds { OnOk result (¬ ChangeFails (memory_state self.old)) }
        ensures fails { OnErr result (ChangeFails (memory_state self.old)) }
        ensures after { memory_state self.new ≡ after_sync (is_ok result) (memory_state self.old) }
    {
        if !self.takes_call() {
            return Err(self.refuse());
        }
        let before = Snapshot::of(&self.state);
        self.state.settle();
        let after = Snapshot::of(&self.state);
        self.past.push_reserved(Call { before, after });
        self.stored.copy_from_slice(&self.state.image);
        self.clock += 1;
        self.last_good = self.clock;
        Ok(())
    }

    /// It never fails. It leaves the image that was picked.
    fn power_cycle(&mut self) -> Result<(), Failed>
        ensures size { length (memory_image self.new) ≡ length (memory_image self.old) }
        ensures told { Repowered memory_content memory_settled memory_since
            result self.old self.new }
        ensures no_more { (t : ℕ) (image : List ℕ) → t ≤ self.old.clock
            → memory_since self.new t image → memory_since self.old t image }
        ensures past_stays { (t : ℕ) (image : List ℕ) → t < self.old.last_good
            → memory_since self.old t image → memory_since self.new t image }
        ensures clock { self.new.clock ≡ self.old.clock }
        ensures good { self.new.last_good ≡ self.old.last_good }
        ensures cause { HasCause self.old.faults self.new.faults result }
        ensures device { SameChoices self.old self.new }

        ensures succeeds { IsOk result }
        ensures after { memory_state self.new ≡ after_power_cycle (memory_state self.old) }
    {
        self.state.come_back(&self.stored, self.pick);
        self.stored.copy_from_slice(&self.state.image);
        Ok(())
    }
}
