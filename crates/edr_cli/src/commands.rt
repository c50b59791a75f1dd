//! The top call.
ghost use Rattle.std.specs.Prelude.{◌≡◌, ◌≤◌, ◌+◌};
ghost use Rattle.edr_device.specs.Faults.{Rose};
ghost use Rattle.edr_device.specs.Lent.{GoesOn};
ghost use Rattle.edr_device.specs.Told.{Told};
ghost use Rattle.edr_device.specs.Transfer.{GivesAtMost};
ghost use Rattle.edr_spell.specs.Spell.{largest_trace};
ghost use Rattle.edr_cli.specs.Audits.{ServesAudit};
ghost use Rattle.edr_cli.specs.Words.{IsUsageCause, AreOther, ReadNothing, UseNoMemory};
ghost use Rattle.edr_cli.specs.Dialogs.{ServesDialog};
ghost use Rattle.edr_cli.specs.Endings.{TellsCut, TellsWhole};
ghost use Rattle.edr_cli.specs.Formats.{ServesFormat};
ghost use Rattle.edr_cli.specs.Texts.{ServesGenerate, ServesLarge};
ghost use Rattle.edr_cli.specs.Migrations.{ServesMigrate};
ghost use Rattle.edr_cli.specs.Replays.{ServesReplay};
ghost use Rattle.edr_cli.specs.Reports.{ServesReport};

use crate::audit::serve_audit;
use crate::dialog::serve_dialog;
use crate::endings::tell;
use crate::fault::Fault;
use crate::format::serve_format;
use crate::generate::serve_generate;
use crate::large::serve_large;
use crate::migrate::serve_migrate;
use crate::replay::serve_replay;
use crate::report::serve_report;
use crate::status::Status;
use edr_device::{Nvm, Sink, Source};
use edr_words::{Job, Words};
use std::alloc::{AllocError as OutOfMemory, Global};

/// Serves the words `format B C`, `replay [text|csv]`, `report [text|csv]`, `generate N M`,
/// `large N M`, `migrate`, `dialog` and `audit`.
///
/// `replay` reads a trace from the source, runs its ignition cycles over the device, each up to its
/// planned power cut, and writes what was acknowledged and every record that the device holds then.
/// `report` writes the records that the device holds. `format` makes a new image on the device, and
/// writes the line that tells of it. `generate` writes a trace that is made from a number, and
/// `large` counts what its cycles come to over a memory of their own. `migrate` reads an image of
/// version 1 from the source, and makes one on the device that holds the same records. `dialog`
/// reads requests from the source, and writes the reply to each before it reads on. `audit` reads
/// an image, a trace and a report from the source, and writes whether the report and what the
/// device holds come from them. A fault writes its one line and nothing else, but for the replies
/// of a dialog before it.
pub fn command<S: Source, K: Sink, N: Nvm>(
    alloc: Global,
    words: &Words,
    source: &mut S,
    sink: &mut K,
    nvm: &mut N,
) -> Status
    // What is lent is handed back as it was lent: the same device of the same size, which tells its
    // bytes if it did, and no count of faults that falls. Of the source no more is taken than tells
    // that it gives too much. Where a write fails, the sink counted it.
    ensures takes { Told (GivesAtMost (largest_trace + 1)) (S.left source.old) (S.left source.new) }
    ensures lent { GoesOn N.Nvm nvm.old nvm.new }
    ensures source_later { S.faults source.old ≤ S.faults source.new }
    ensures sink_later { K.faults sink.old ≤ K.faults sink.new }
    ensures write_fault { result ≡ Status.WriteFault
        → Rose (K.faults sink.old) (K.faults sink.new) }

    // Other words are a fault of usage, unless memory runs out. A word that needs no source takes
    // nothing of it, and a word that needs no device leaves it as it was.
    ensures usage { AreOther words.now → TellsWhole K.Sink IsUsageCause result sink.old sink.new }
    ensures usage_part { AreOther words.now → TellsCut K.Sink IsUsageCause result
        sink.old sink.new }
    ensures reads { ReadNothing words.now → source.new ≡ source.old }
    ensures uses { UseNoMemory words.now → nvm.new ≡ nvm.old }

    // Each word by its status. With Ok the sink gained exactly its text, with another status
    // exactly the line of a fault that has its cause, and where a write failed a part of either.
    // Only `dialog` may have replies before that line, or Dialog without one, and only `audit` has
    // Audit, with the line of a difference.
    //
    // `replay`: with Ok the report of a run of the cycles that the source spelled, from what the
    // device told at first to what it holds, with nothing pending. What holds of each run stands
    // with it: each record is from its own window and cycle, and no locked event is lost.
    ensures replay { ServesReplay S.Source K.Sink N.Nvm words.now result
        source.old source.new sink.old sink.new nvm.old nvm.new }
    // `report`: that of what the device holds, and its bytes stay.
    ensures report { ServesReport K.Sink N.Nvm words.now result sink.old sink.new nvm.old nvm.new }
    // `format`: a line. The device had no image and holds the new one, and a refusal leaves its bytes.
    ensures format { ServesFormat K.Sink N.Nvm words.now result sink.old sink.new nvm.old nvm.new }
    // `generate`: the trace of the number.
    ensures generate { ServesGenerate K.Sink words.now result sink.old sink.new }
    // `large`: the counts of a run over the cycles that this trace spells.
    ensures large { ServesLarge K.Sink words.now result sink.old sink.new }
    // `migrate`: a line. The device had no image and holds one that says what the old image says,
    // and a refusal leaves its bytes.
    ensures migrate { ServesMigrate S.Source K.Sink N.Nvm words.now result
        source.old source.new sink.old sink.new nvm.old nvm.new }
    // `dialog`: the replies to the bytes that were taken, over what the device holds, and its bytes stay.
    ensures dialog { ServesDialog S.Source K.Sink N.Nvm words.now result
        source.old source.new sink.old sink.new nvm.old nvm.new }
    // `audit`: with Ok and with Audit the line of the verdict on the pieces that the source told
    // and what the device told, whose bytes stay.
    ensures audit { ServesAudit S.Source K.Sink N.Nvm words.now result
        source.old source.new sink.old sink.new nvm.old nvm.new }
{
    let job = match words.job(alloc) {
        Ok(job) => job,
        Err(OutOfMemory) => return tell(sink, Fault::OutOfMemory),
    };
    match job {
        Some(Job::Replay { form }) => serve_replay(alloc, source, sink, nvm, form),
        Some(Job::Report { form }) => serve_report(alloc, sink, nvm, form),
        Some(Job::Format { header }) => serve_format(sink, nvm, header),
        Some(Job::Generate { number, cycles }) => serve_generate(sink, number, cycles),
        Some(Job::Large { number, cycles }) => serve_large(alloc, sink, number, cycles),
        Some(Job::Migrate) => serve_migrate(alloc, source, sink, nvm),
        Some(Job::Dialog) => serve_dialog(alloc, source, sink, nvm),
        Some(Job::Audit) => serve_audit(alloc, source, sink, nvm),
        Some(Job::Drive { .. } | Job::DriveLive { .. } | Job::Fleet { .. }) | None => {
            tell(sink, Fault::Usage)
        }
    }
}
