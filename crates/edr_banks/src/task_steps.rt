//! A task on the device.
ghost use Rattle.std.specs.Prelude.{◌≡◌, ◌≤◌, [], IsOk};
ghost use Rattle.edr_image.specs.declared.places.TheConstants.{MOST_BANKS};
ghost use Rattle.edr_image.specs.Image.{image_size};
ghost use Rattle.edr_gates.specs.Taken.{TakesSteps};
ghost use Rattle.edr_banks.specs.Tasks.{IsBankWithin, steps_of};

use crate::tasks::Task;
use edr_device::{Failed, Nvm};
use edr_gates::{fill, finish, lock, replace, replace_locked};

/// Takes the steps of a task on a device that has that many banks. Where there is none, no call is made.
pub(crate) fn take_on<N: Nvm>(nvm: &mut N, task: &Task, banks: u8) -> Result<(), Failed>
    requires few { banks ≤ MOST_BANKS }
    requires room { image_size banks ≤ N.extent nvm.old }
    requires within { IsBankWithin banks task.now }
    ensures nothing { steps_of task.now ≡ [] → IsOk result × (nvm.new ≡ nvm.old) }
    ensures steps { TakesSteps N.Nvm (steps_of task.now) nvm.old nvm.new result }
{
    match task {
        Task::Nothing => Ok(()),
        Task::Fill { bank, pre } => fill(nvm, *bank, pre),
        Task::Replace { bank, pre } => replace(nvm, *bank, pre),
        Task::Lock { bank } => lock(nvm, *bank),
        Task::ReplaceLocked { bank, pre } => replace_locked(nvm, *bank, pre),
        Task::Finish { bank, crash } => finish(nvm, *bank, crash),
    }
}
