//! A cycle that runs on one thread.

ghost use Rattle.std.specs.Prelude.{◌≡◌, ◌≤◌, true};
ghost use Rattle.edr_device.specs.Lent.{GoesOn};
ghost use Rattle.edr_items.specs.SensorLists.{IsLevel, horizon_of};
ghost use Rattle.edr_device.specs.Faults.{Rose};
ghost use Rattle.edr_image.specs.Image.{image_size};
ghost use Rattle.edr_cycle.specs.Ends.{MeetsCycleOn};

use crate::cycle_run::run;
use crate::ledger::Books;
use crate::started::{CycleEnd, Parts, Started};
use edr_device::Nvm;
use edr_items::Feeds;

/// Runs a cycle that was started over its feeds: each tick's commands are applied to the banks, and logged as they are
/// acknowledged, up to the horizon or to a command that meets a fault of the device. It takes no memory.
///
/// The feeds have at most the ticks that the start was told, and the banks of the device are those that the start found.
///
/// ```
/// let started = start(alloc, nvm, feeds.horizon())?;
/// let end = run_alone(started, &feeds, nvm);
/// ```
pub fn run_alone<N: Nvm>(started: Started, feeds: &Feeds, nvm: &mut N) -> CycleEnd
    requires level { IsLevel feeds.now }
    requires ticks { horizon_of feeds.now ≤ started.ticks }
    requires size { image_size started.banks.store.header.banks ≤ N.extent nvm.old }
    ensures number { result.number ≡ started.number }
    ensures lent { GoesOn N.Nvm nvm.old nvm.new }
    ensures cause { result.failed ≡ true → Rose (N.faults nvm.old) (N.faults nvm.new) }
    ensures cycle { MeetsCycleOn N.Nvm feeds.now started.number started.banks.store
        result.failed result.log.acks nvm.old nvm.new }
{
    let number = started.number();
    let Parts { banks, core, log } = started.parts();
    let mut books = Books { banks, log };
    let failed = run(core, feeds, &mut books, nvm).is_err();
    CycleEnd {
        number,
        failed,
        log: books.log.told(),
    }
}
