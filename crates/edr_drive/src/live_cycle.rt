//! A cycle by threads over books whose commands are shown.

ghost use Rattle.std.specs.Prelude.{◌≡◌, true};
ghost use Rattle.edr_device.specs.Faults.{Rose};
ghost use Rattle.edr_device.specs.Lent.{GoesOn};
ghost use Rattle.edr_live.specs.Ends.{view_shown};
ghost use Rattle.edr_drive.specs.Crews.{crew_feeds};
ghost use Rattle.edr_drive.specs.Following.{IsShownOf};
ghost use Rattle.edr_drive.specs.Shown.{CanRunOver, HasShownNothing, MeetsOpenedOn};

use crate::beginning::OpenedCycle;
use crate::committer::CommitterDesk;
use crate::driving::drive;
use crate::live_books::{LiveBooks, Showing};
use crate::live_news::News;
use crate::threads::Crew;
use edr_cycle::CycleLog;
use edr_device::Nvm;
use edr_live::LiveWriter;
use edr_loops::Gate;
use std::sync::Wait;
use std::thread::Threads;

/// What is left of a cycle that was shown.
pub(crate) struct ShownCycle {
    pub(crate) failed: bool,
    pub(crate) log: CycleLog,
    pub(crate) writer: LiveWriter,
    pub(crate) cut: bool,
}

/// Runs a cycle over its feeds and shows what each command did. Then it tells the reader that nothing more will be shown: in each
/// case, also where no thread was started, the device failed, or memory ran out.
pub(crate) fn drive_shown<
    R: Threads + Wait + Copy + Send + 'static,
    G: Gate + Drop + Send + Sync + 'static,
    N: Nvm,
>(
    crew: &Crew<'_, R, G>,
    beginning: OpenedCycle,
    writer: LiveWriter,
    news: News,
    nvm: &mut N,
) -> ShownCycle
    requires can { CanRunOver (crew_feeds crew.now) (N.extent nvm.old) beginning }
    requires none { HasShownNothing beginning.committer.ledger.banks writer }
    ensures lent { GoesOn N.Nvm nvm.old nvm.new }
    ensures cause { result.failed ≡ true → Rose (N.faults nvm.old) (N.faults nvm.new) }
    ensures cycle { MeetsOpenedOn N.Nvm (crew_feeds crew.now) beginning
        result.failed result.log.acks nvm.old nvm.new }
    ensures shown { IsShownOf beginning.committer.ledger.banks.store (crew_feeds crew.now)
        beginning.recording.desk.core.cycle result.log.acks (view_shown result.writer) result.cut }
{
    let OpenedCycle {
        recording,
        committer,
    } = beginning;
    let mut desk = CommitterDesk {
        inbox: committer.inbox,
        watch: committer.watch,
        seat: committer.seat,
        ledger: LiveBooks::new(crew.rt, committer.ledger, writer, news),
    };
    let failed = drive(crew, recording, &mut desk, nvm).is_err();
    let CommitterDesk {
        inbox: _,
        watch: _,
        seat: _,
        ledger,
    } = desk;
    let LiveBooks {
        rt: _,
        books,
        showing,
        start: _,
    } = ledger;
    let Showing { writer, news, cut } = showing;
    news.end();
    ShownCycle {
        failed,
        log: books.log,
        writer,
        cut,
    }
}
