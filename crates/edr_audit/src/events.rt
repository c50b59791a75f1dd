//! The events of a cycle, taken by walkers one after the other.
ghost use Rattle.std.specs.Prelude.{◌≡◌, ◌<◌, ◌^◌, [], ◌∷◌, OnOk, length};
ghost use Rattle.edr_definitions.specs.Commands.{locks_at};
ghost use Rattle.edr_audit.specs.Told.{ArePast, issue_at, walkers_through};
ghost use Rattle.edr_selection.specs.Found.{issues_with};

use crate::walker::{Telling, Walker, all_next};
use edr_items::Feeds;
use edr_record::{Command, Pre};
use edr_selection::{EventParts, parts_of, select};
use std::alloc::{AllocError as OutOfMemory, Global};

// The commands of a cycle: where they are told, and the tick up to which they are issued.
#[derive(Clone, Copy)]
struct CycleIssues<'a> {
    alloc: Global,
    telling: Telling<'a>,
    horizon: u32,
}

impl CycleIssues<'_> {
    // Each walker takes a command, if it is issued by the horizon.
    #[tactic(auto, using(crate::proofs::EventLemmas::one_past, crate::proofs::EventLemmas::none_past))]
    fn issue(
        &self,
        walkers: &mut Vec<Walker>,
        tick: u32,
        command: &Command,
    ) -> Result<(), OutOfMemory>
        requires { length self.now.telling.report.now < 2 ^ 32 }
        ensures { OnOk result (ArePast (issue_at tick command.now ∷ []) self.now walkers.old walkers.new) }
    {
        if tick <= self.horizon {
            all_next(self.alloc, &self.telling, walkers, tick, command)?;
        }
        Ok(())
    }

    // Each walker takes the Lock of a pre part, if there is one.
    #[tactic(auto, using(crate::proofs::EventLemmas::nothing_past))]
    fn issue_lock(
        &self,
        walkers: &mut Vec<Walker>,
        locked: Option<u32>,
        pre: &Pre,
    ) -> Result<(), OutOfMemory>
        requires { length self.now.telling.report.now < 2 ^ 32 }
        ensures { OnOk result (ArePast (locks_at pre.now locked) self.now walkers.old walkers.new) }
    {
        match locked {
            Some(tick) => self.issue(walkers, tick, &Command::Lock { pre: *pre }),
            None => Ok(()),
        }
    }

    // Each walker takes the commands of an event.
    fn all_parts(&self, walkers: &mut Vec<Walker>, parts: &EventParts) -> Result<(), OutOfMemory>
        requires { length self.now.telling.report.now < 2 ^ 32 }
        ensures { OnOk result (ArePast (issues_with parts.now) self.now walkers.old walkers.new) }
    {
        let pre = parts.pre;
        let crash = parts.crash;
        self.issue(walkers, parts.taken, &Command::Take { pre })?;
        self.issue_lock(walkers, parts.locked, &pre)?;
        self.issue(walkers, parts.closed, &Command::Done { crash })
    }
}

/// Each walker takes the commands of a cycle with these lists.
pub fn walk_events(
    alloc: Global,
    telling: &Telling<'_>,
    feeds: &Feeds,
    walkers: &mut Vec<Walker>,
) -> Result<(), OutOfMemory>
    requires { length telling.now.report.now < 2 ^ 32 }
    ensures { OnOk result (walkers.new.items ≡ walkers_through telling.now feeds.now walkers.old.items) }
{
    let issues = CycleIssues {
        alloc,
        telling: *telling,
        horizon: feeds.horizon(),
    };
    let events = select(alloc, feeds)?;
    for event in &events {
        let parts = parts_of(feeds, 1, event);
        issues.all_parts(walkers, &parts)?;
    }
    Ok(())
}
