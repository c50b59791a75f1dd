//! Commands on the banks.
ghost use Rattle.std.specs.Prelude.{◌≤◌};
ghost use Rattle.edr_image.specs.Image.{image_size};
ghost use Rattle.edr_banks.specs.Applying.{Applies};

use crate::task_steps::take_on;
use crate::{Applied, ApplyFault, Banks, Command};
use edr_device::Nvm;

impl Banks {
    /// Takes the steps of a command on these banks and on the device, and tells what came of it.
    ///
    /// The clauses about bytes are for a device that tells them, on which nothing is pending and whose image says these
    /// banks. At `Ok` all steps are done there, with their writes and no others, and no crash takes them back. A crash at any
    /// moment of the call leaves the first of the steps done, for some number of them, and each byte that no step writes.
    /// After a `StoreFault`, in which r writes and syncs were made, a crash leaves what a stop in call r may leave; and each
    /// later command is answered `Ended`.
    pub fn apply<N: Nvm>(&mut self, nvm: &mut N, command: &Command) -> Result<Applied, ApplyFault>
        requires { image_size self.old.store.header.banks ≤ N.extent nvm.old }
        ensures { Applies N.Nvm self.old self.new command.now nvm.old nvm.new result }
    {
        if self.ended {
            return Err(ApplyFault::Ended);
        }
        let task = self.task(command);
        if take_on(nvm, &task, self.header.banks).is_err() {
            self.ended = true;
            return Err(ApplyFault::StoreFault);
        }
        self.note(&task);
        Ok(task.answer())
    }
}
