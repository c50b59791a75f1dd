//! One of the two copies of what is shown.
ghost use Rattle.std.specs.Prelude.{◌≡◌};
ghost use Rattle.edr_image.specs.Banks.{with_bank};
ghost use Rattle.edr_live.specs.Entries.{commands_in};
ghost use Rattle.edr_live.specs.Shown.{after_shown, shown_view};

use crate::entry::ShownEntry;
use crate::knowledge::Trail;
use crate::shown::{LiveView, ShownCommand};
use edr_banks::BankView;
use left_right::Absorb;
use std::alloc::AllocError;
use std::snapshot::Snapshot;

/// All banks. In proofs alone it has the banks at opening too, and the commands since.
#[derive(Drop)]
pub struct LiveCopy {
    pub(crate) view: LiveView,
    pub(crate) opening: Snapshot<LiveView>,
    pub(crate) shown: Vec<ShownEntry>,
    ghost stands: { view ≡ shown_view opening.value (commands_in shown.items) },
}

// Puts a view in a bank's place, if there is that bank.
fn put_view(views: &mut [BankView], bank: u8, view: BankView)
    ensures { views.new ≡ with_bank views.old bank view }
{
    let place = bank.saturating_sub(1) as usize;
    if place < views.len() {
        views[place] = view;
    }
}

// The banks after one more command, with how many commands there are then.
fn after_one(view: &LiveView, command: ShownCommand, applied: u64) -> LiveView
    ensures { result ≡ record view.now { applied = applied; views = after_shown view.now.views command } }
{
    let mut next = *view;
    next.applied = applied;
    match command {
        ShownCommand::Put { bank, view } => put_view(&mut next.views, bank, view),
        ShownCommand::Nothing => {}
    }
    next
}

impl Absorb<ShownCommand> for LiveCopy {
    type State = Trail;

    ghost use Rattle.edr_live.specs.Copies.{trail_after, trail_of};

    ghost state = { trail_of };

    ghost applied = { trail_after };

    fn absorb_first(
        &mut self,
        operation: &ShownCommand,
        _other: &LiveCopy,
    ) -> Result<(), AllocError> {
        let applied = self.shown.len() as u64 + 1;
        let next = after_one(&self.view, *operation, applied);
        let entry = ShownEntry {
            command: Snapshot::of(operation),
        };
        match self.shown.push(entry) {
            Ok(()) => {}
            Err(_) => return Err(AllocError),
        }
        self.view = next;
        Ok(())
    }

    fn absorb_second(
        &mut self,
        operation: ShownCommand,
        other: &LiveCopy,
    ) -> Result<(), ShownCommand> {
        let again = operation;
        match self.absorb_first(&operation, other) {
            Ok(()) => Ok(()),
            Err(_) => Err(again),
        }
    }
}
