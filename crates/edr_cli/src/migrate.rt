//! Serves `migrate`: takes over the records of an old image, one of version 1, which the source gives.
ghost use Rattle.std.specs.Prelude.{◌≡◌, ◌+◌, ◌≤◌, IfOk, IfErr, IfSome, OnOk, length};
ghost use Rattle.edr_device.specs.Faults.{Rose};
ghost use Rattle.edr_device.specs.Lent.{GoesOn};
ghost use Rattle.edr_device.specs.Told.{Told};
ghost use Rattle.edr_device.specs.Transfer.{GivesAtMost};
ghost use Rattle.edr_spell.specs.Spell.{largest_trace};
ghost use Rattle.edr_cli.specs.Migrations.{IsMigrateCause, IsTakingCause, IsPartlyTaken, MigrateIs, Migrates};
ghost use Rattle.edr_cli.specs.Outside.{FailsBy, IsAtEnd, OfMemory, OfRun};
ghost use Rattle.edr_cli.specs.Steps.{IsTakenOver};
ghost use Rattle.edr_cli.specs.Crashes.{KeepsImage, OfCrash};

use crate::endings::{tell, write};
use crate::fault::Fault;
use crate::status::Status;
use edr_device::{Nvm, Sink, Source, take_all};
use edr_migrate::{check, migrate};
use edr_report::{ShortLine, migrate_line};
use edr_trace::LARGEST_TRACE;
use std::alloc::Global;

// Takes over what an old image holds, and makes the line that tells of it. The old image is looked
// at and the line is built before the device is touched.
fn take_over<N: Nvm>(nvm: &mut N, old: &[u8]) -> Result<ShortLine, Fault>
    requires { length old.now ≤ largest_trace }
    ensures lent { GoesOn N.Nvm nvm.old nvm.new }
    ensures taken { IfOk result (λ line. OfMemory N.Nvm (IsTakenOver old.now)
        nvm.old nvm.new line) }
    ensures cause { IfErr result (OfMemory N.Nvm (IsTakingCause (λ AreSuch. AreSuch old.now))
        nvm.old nvm.new) }
    ensures crash { OfCrash N.Nvm nvm.old nvm.new (IsPartlyTaken old.now) }
    // An image that is there stays.
    ensures stays { KeepsImage N.Nvm nvm.old nvm.new }
{
    let migrated = check(old)?;
    let line = migrate_line(migrated.events, migrated.count);
    nvm.sync()?;
    migrate(nvm, old)?;
    Ok(line)
}

// Takes over what the source gives.
fn migrate_source<S: Source, N: Nvm>(
    alloc: Global,
    source: &mut S,
    nvm: &mut N,
) -> Result<ShortLine, Fault>
    ensures takes { Told (GivesAtMost (largest_trace + 1)) (S.left source.old) (S.left source.new) }
    ensures source_later { S.faults source.old ≤ S.faults source.new }
    ensures lent { GoesOn N.Nvm nvm.old nvm.new }
    ensures end { OnOk result (IsAtEnd (S.left source.new)) }
    ensures text { IfOk result (λ line. OfRun S.Source N.Nvm MigrateIs
        source.old nvm.old nvm.new line) }
    ensures cause { FailsBy S.Source N.Nvm IsMigrateCause source.old source.new nvm.old nvm.new result }
    ensures crash { OfCrash N.Nvm nvm.old nvm.new
        (λ b i. IfSome (S.left source.old) (λ old. IsPartlyTaken old b i)) }
    ensures stays { KeepsImage N.Nvm nvm.old nvm.new }
{
    let old = take_all(alloc, source, LARGEST_TRACE as usize)?;
    take_over(nvm, &old)
}

/// Takes over the records of the old image that the source gives, and writes the line that tells of them.
pub(crate) fn serve_migrate<S: Source, K: Sink, N: Nvm>(
    alloc: Global,
    source: &mut S,
    sink: &mut K,
    nvm: &mut N,
) -> Status
    ensures migrates { Migrates S.Source K.Sink N.Nvm result
        source.old source.new sink.old sink.new nvm.old nvm.new }
    ensures write_fault { result ≡ Status.WriteFault
        → Rose (K.faults sink.old) (K.faults sink.new) }
    ensures sink_later { K.faults sink.old ≤ K.faults sink.new }
    ensures takes { Told (GivesAtMost (largest_trace + 1)) (S.left source.old) (S.left source.new) }
    ensures source_later { S.faults source.old ≤ S.faults source.new }
    ensures lent { GoesOn N.Nvm nvm.old nvm.new }
{
    match migrate_source(alloc, source, nvm) {
        Ok(line) => write(sink, line.as_bytes(), Status::Ok),
        Err(fault) => tell(sink, fault),
    }
}
