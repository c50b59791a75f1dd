//! One ignition cycle by threads, beside which a reader sees the banks.

ghost use Rattle.std.specs.Prelude.{◌≡◌, ◌≤◌, true, IfOk, OnErr};
ghost use Rattle.std.specs.Arc.{arc_value};
ghost use Rattle.edr_device.specs.Faults.{Rose};
ghost use Rattle.edr_device.specs.Lent.{GoesOn};
ghost use Rattle.edr_items.specs.SensorLists.{IsLevel, horizon_of};
ghost use Rattle.edr_image.specs.Image.{image_size};
ghost use Rattle.edr_cycle.specs.Ends.{MeetsCycleOn};
ghost use Rattle.edr_drive.specs.Crews.{crew_feeds};
ghost use Rattle.edr_drive.specs.Live.{IsLastOf};
ghost use Rattle.edr_drive.specs.Reading.{HasReadOn};
ghost use Rattle.edr_drive.specs.Shown.{CanRunOver, HasShownNothing, MeetsOpenedOn};

use crate::beginning::{OpenedCycle, begin};
use crate::live_cycle::{ShownCycle, drive_shown};
use crate::live_news::News;
use crate::live_reader::{ReaderDesk, ReadingOn};
use crate::threads::Crew;
use edr_banks::Banks;
use edr_board::Watch;
use edr_cycle::{CycleEnd, Started};
use edr_device::Nvm;
use edr_items::Feeds;
use edr_live::{Live, LiveReader, LiveView, open};
use edr_loops::Gate;
use std::alloc::{AllocError as OutOfMemory, Global};
use std::snapshot::Snapshot;
use std::sync::{Arc, Wait};
use std::thread::{Builder, Threads};

/// How a cycle ended beside which a reader saw the banks.
#[derive(Drop)]
pub struct LiveEnd {
    pub end: CycleEnd,
    /// The banks after the first commands of the log, with how many these are.
    pub last: LiveView,
    /// Memory ran out in showing a command: neither that one was shown nor a later one.
    pub cut: bool,
}

// Both ends of what is shown, and both of the board on which the reader sleeps.
struct Readership {
    live: Live,
    news: News,
    watch: Watch,
}

// The writer is opened last: it is ended by `close` alone, so no `?` may stand after it.
fn open_readership<R: Wait>(rt: &R, alloc: Global, banks: &Banks) -> Result<Readership, OutOfMemory>
    ensures { IfOk result (λ r. HasShownNothing banks.now r.live.writer) }
{
    let (news, watch) = News::open(alloc)?;
    let live = open(rt, alloc, banks)?;
    Ok(Readership { live, news, watch })
}

// How many bytes of stack the reader's thread gets, as the others of a cycle. It has some copies of all banks on it, of 30 KB each.
const STACK: usize = 1 << 20;

// Runs a cycle while a reader reads in a thread of its own, which is started first and joined last. Where it can't be started, its
// closure comes back with the reader, and is called here at the end.
fn drive_beside<
    R: Threads + Wait + Copy + Send + 'static,
    G: Gate + Drop + Send + Sync + 'static,
    N: Nvm,
>(
    crew: &Crew<'_, R, G>,
    number: u32,
    beginning: OpenedCycle,
    readership: Readership,
    nvm: &mut N,
) -> LiveEnd
    requires can { CanRunOver (crew_feeds crew.now) (N.extent nvm.old) beginning }
    requires none { HasShownNothing beginning.committer.ledger.banks readership.live.writer }
    ensures number { result.end.number ≡ number }
    ensures lent { GoesOn N.Nvm nvm.old nvm.new }
    ensures cause { result.end.failed ≡ true → Rose (N.faults nvm.old) (N.faults nvm.new) }
    ensures cycle { MeetsOpenedOn N.Nvm (crew_feeds crew.now) beginning
        result.end.failed result.end.log.acks nvm.old nvm.new }
    ensures last { IsLastOf beginning.committer.ledger.banks.store (crew_feeds crew.now)
        beginning.recording.desk.core.cycle result }
{
    let Readership { live, news, watch } = readership;
    let Live { writer, reader } = live;
    let promise = ReadingOn {
        before: Snapshot::of(&reader),
    };
    let desk = ReaderDesk { reader, watch };
    let inner = *crew.rt;
    let thread = Builder::new().stack_size(STACK).spawn_with(
        crew.rt,
        promise,
        move || -> LiveReader
            ensures { HasReadOn desk.reader result }
        { desk.follow(&inner) },
    );
    let ShownCycle {
        failed,
        log,
        mut writer,
        cut,
    } = drive_shown(crew, beginning, writer, news, nvm);
    let reader = match thread {
        Ok(child) => child.join(crew.rt),
        Err(refused) => (refused.value)(),
    };
    if let Some(mut another) = writer.tell() {
        let _ = another.read();
    }
    let last = writer.close(crew.rt, reader);
    let end = CycleEnd {
        number,
        failed,
        log: log.told(),
    };
    LiveEnd { end, last, cut }
}

/// Runs a cycle as `drive_cycle` does, and shows what each command did to the banks. A reader in a thread of its own reads
/// meanwhile, and the caller once more at the end.
///
/// Where the reader's thread can't be started, the cycle goes on without it. Where memory runs out in showing a command, the cycle
/// goes on and nothing more is shown.
pub fn drive_cycle_live<
    R: Threads + Wait + Copy + Send + 'static,
    N: Nvm,
    G: Gate + Drop + Send + Sync + 'static,
>(
    rt: &R,
    alloc: Global,
    started: Started,
    feeds: &Arc<Feeds>,
    workers: u8,
    nvm: &mut N,
    gate: &Arc<G>,
) -> Result<LiveEnd, OutOfMemory>
    requires workers { (1 ≤ workers) × (workers ≤ 8) }
    requires level { IsLevel (arc_value feeds.now) }
    requires ticks { horizon_of (arc_value feeds.now) ≤ started.ticks }
    requires size { image_size started.banks.store.header.banks ≤ N.extent nvm.old }
    ensures number { IfOk result (λ e. e.end.number ≡ started.number) }
    ensures nothing { OnErr result (nvm.new ≡ nvm.old) }
    ensures lent { GoesOn N.Nvm nvm.old nvm.new }
    ensures cause { IfOk result (λ e.
        e.end.failed ≡ true → Rose (N.faults nvm.old) (N.faults nvm.new)) }
    ensures cycle { IfOk result (λ e. MeetsCycleOn N.Nvm (arc_value feeds.now)
        started.number started.banks.store e.end.failed e.end.log.acks nvm.old nvm.new) }

    // What was shown last is the banks after the first commands of the log.
    ensures last { IfOk result (IsLastOf started.banks.store (arc_value feeds.now) started.number) }
{
    let number = started.number();
    let beginning = begin(alloc, started)?;
    let readership = open_readership(rt, alloc, &beginning.committer.ledger.banks)?;
    let crew = Crew {
        rt,
        workers: workers.into(),
        gate,
        feeds,
    };
    Ok(drive_beside(&crew, number, beginning, readership, nvm))
}
