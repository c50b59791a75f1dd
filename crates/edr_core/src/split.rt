//! The core that is told no value of a slow sensor: it asks for the parts of each time zero.

ghost use Rattle.std.specs.Prelude.{◌≡◌, ◌↔◌, ◌+◌, ◌≤◌, ◌<◌, true, false, Some, None, is_some, IfOk, IfErr, IsOk, IsSome, IsTrue, OnOk, OnErr};
ghost use Rattle.edr_definitions.specs.Schedule.{Give, IsAllowed};

use crate::ask::{AskPlace, PartRefused, pre_of};
use crate::candidate::{Candidate, Issued, TickRow, grow, issue, passes_by};
use edr_capture::Part;
use edr_detect::Detect;
use edr_items::{Item, LONGEST_GAP, Sensor, check};
use edr_link::Link;
use edr_merge::{Merge, MergeRefused, Next};
use edr_record::{Crash, Key, Pre};
use std::alloc::{AllocError as OutOfMemory, Global};
use std::marker::Model;

/// What a split core answers to the wish for the next tick.
#[derive(Clone, Copy, Debug, PartialEq, Eq)]
pub enum SplitStep {
    /// The next tick can't be closed: this sensor may still give an item of it.
    Waiting {
        sensor: Sensor,
    },
    /// The next tick is a time zero, whose parts are asked for from here on. It isn't closed yet.
    Ask {
        zero: u32,
    },
    /// The next tick is a time zero, and this sensor's part is missing.
    Parts {
        sensor: Sensor,
    },
    /// The next tick is closed. `take` is the pre part of an event that is confirmed there, `lock` that of one whose
    /// first locking deployment it is, and `done` the crash part of one whose close it is.
    Closed {
        tick: u32,
        take: Option<Pre>,
        lock: Option<Pre>,
        done: Option<Crash>,
    },
}

/// What a split core answers where it puts aside what a tick issues.
#[derive(Clone, Copy, Debug, PartialEq, Eq)]
pub enum SplitClosing {
    /// The next tick can't be closed: this sensor may still give an item of it.
    Waiting { sensor: Sensor },
    /// The next tick is a time zero, whose parts are asked for from here on.
    Ask { zero: u32 },
    /// The next tick is a time zero, and this sensor's part is missing.
    Parts { sensor: Sensor },
    /// The next tick is closed. It issues what was put aside, or nothing where `issues` is false.
    Closed { tick: u32, issues: bool },
}

// What is looked at where an event is searched for, and is too large to be moved with a core.
#[derive(Drop)]
pub(crate) struct Events {
    detect: Detect,
    candidate: Option<Candidate>,
    ask: AskPlace,
}

/// The core of the recorder in one ignition cycle, but for the values of the slow sensors: of these it takes the moments of items,
/// and the parts of each time zero that it asks for.
///
/// All memory is taken when it is opened. A call takes none and has a bounded number of steps.
#[derive(Drop)]
pub struct SplitCore {
    cycle: u32,
    closed: u32,
    merge: Merge,
    link: Link,
    // Whether an ask is open: one byte, which is looked at in each tick.
    asking: bool,
    events: Box<Events>,
}

impl Model for SplitCore {
    ghost use Rattle.edr_core.specs.SplitContents.{SplitContents};

    ghost Value = { SplitContents };

    ghost use Rattle.edr_core.specs.SplitFields.{split_contents, IsSplit};

    ghost view = { split_contents };

    ghost invariant = { IsSplit };
}

impl SplitCore {
    ghost use Rattle.edr_merge.specs.Answers.{give_refusal_of};
    ghost use Rattle.edr_core.specs.SplitHistory.{History, start_of, after_item, after_part, due};
    ghost use Rattle.edr_core.specs.SplitStandsFor.{SplitCoreStandsFor};
    ghost use Rattle.edr_core.specs.SplitAnswers.{answer_of, after_split, split_step_of, IsSplitQuiet, part_refusal_of};
    ghost use Rattle.edr_core.specs.Calls.{IsWhyRefused, SplitFollows, GivesTheCommands, GivesTheIssues};
    ghost use Rattle.edr_core.specs.Still.{CanPassStill, SplitPassesStill};

    /// A core for the ignition cycle of that number, to which no sensor has given an item, and of which no tick is closed.
    pub fn open(alloc: Global, cycle: u32) -> Result<SplitCore, OutOfMemory>
        requires { 1 ≤ cycle }
        ensures { IfOk result (λ c. SplitCoreStandsFor c (start_of cycle)) }
    {
        let none = Events {
            detect: Detect::new(),
            candidate: None,
            ask: AskPlace::closed(),
        };
        Ok(SplitCore {
            cycle,
            closed: 0,
            merge: Merge::new(alloc)?,
            link: Link::new(),
            asking: false,
            events: Box::new(alloc, none)?,
        })
    }

    /// The tick up to which all are closed.
    pub fn closed(&self) -> u32
        ensures { (h : History) → SplitCoreStandsFor self.now h → result ≡ h.past.closed }
    {
        self.closed
    }

    /// Takes one more item of that sensor. Of a slow sensor its moment alone counts, and an item without a value does.
    #[inline(always)]
    pub fn accept(&mut self, sensor: Sensor, item: Item) -> Result<(), MergeRefused>
        ensures ok { OnOk result (SplitFollows (after_item sensor item) self.old self.new) }
        ensures err { OnErr result (self.new ≡ self.old) }

        // An item is taken exactly where the schedule allows it, also while parts are asked for.
        ensures allowed { (h : History) → SplitCoreStandsFor self.old h → IsOk result ↔ IsAllowed (Give sensor item) h.past }
        ensures why { (h : History) → SplitCoreStandsFor self.old h → IfErr result (IsWhyRefused sensor item h.past) }
    {
        if item.moment > self.closed + LONGEST_GAP && self.asking {
            return Err(self.ahead(sensor, item));
        }
        self.take(sensor, item)
    }

    // The same of an item that isn't too far ahead while parts are asked for.
    #[inline(always)]
    pub(crate) fn take(&mut self, sensor: Sensor, item: Item) -> Result<(), MergeRefused>
        requires { is_some self.old.ask ≡ true → item.moment ≤ self.old.closed + LONGEST_GAP }
        ensures ok { OnOk result (SplitFollows (after_item sensor item) self.old self.new) }
        ensures err { OnErr result (self.new ≡ self.old) }
        ensures allowed { (h : History) → SplitCoreStandsFor self.old h → IsOk result ↔ IsAllowed (Give sensor item) h.past }
        ensures why { (h : History) → SplitCoreStandsFor self.old h → IfErr result (IsWhyRefused sensor item h.past) }
    {
        self.merge.accept(sensor, item)?;
        Ok(())
    }

    // Why an item is refused that is too far ahead while parts are asked for: the merge has closed their time zero already.
    #[inline(never)]
    fn ahead(&self, sensor: Sensor, item: Item) -> MergeRefused
        requires { self.now.closed + LONGEST_GAP < item.moment }
        ensures { (h : History) → SplitCoreStandsFor self.now h → give_refusal_of sensor item h.past ≡ Some result }
    {
        match check(sensor, self.merge.mark(sensor), &item) {
            Err(refused) => MergeRefused::Item(refused),
            Ok(()) => MergeRefused::Ahead {
                closed: self.closed,
            },
        }
    }

    /// Closes the next tick and gives what it issues, if no sensor can give an item of it any more. Where it is a time zero, it
    /// first asks for the parts of it, and closes it once they are taken.
    pub fn step(&mut self) -> SplitStep
        // A tick that is closed is the next one, and the commands up to it are those before it and then the ones that it carries,
        // where each pre part has the slots of the parts that were taken for its time zero.
        ensures commands { GivesTheCommands self.old result }
        ensures ticks { GivesTheIssues self.old result }
        ensures stands { SplitFollows (λ h. after_split h result) self.old self.new }

        // It waits as the schedule says, asks at each time zero, lacks parts up to the last of them, and closes else.
        ensures answer { (h : History) → SplitCoreStandsFor self.old h → answer_of result ≡ due h }
    {
        let mut issued = Issued::none();
        match self.close(&mut issued) {
            SplitClosing::Waiting { sensor } => SplitStep::Waiting { sensor },
            SplitClosing::Ask { zero } => SplitStep::Ask { zero },
            SplitClosing::Parts { sensor } => SplitStep::Parts { sensor },
            SplitClosing::Closed { tick, .. } => SplitStep::Closed {
                tick,
                take: issued.take,
                lock: issued.lock,
                done: issued.done,
            },
        }
    }

    /// The same step, for a caller that steps often: what the tick issues is put into `issued`, which is left as it is where no
    /// candidate is open.
    #[inline(always)]
    pub fn close(&mut self, issued: &mut Issued) -> SplitClosing
        ensures commands { GivesTheCommands self.old (split_step_of result issued.new) }
        ensures ticks { GivesTheIssues self.old (split_step_of result issued.new) }
        ensures stands { SplitFollows (λ h. after_split h (split_step_of result issued.new)) self.old self.new }
        ensures answer { (h : History) → SplitCoreStandsFor self.old h → answer_of (split_step_of result issued.new) ≡ due h }
        ensures quiet { IsSplitQuiet result → issued.new ≡ issued.old }
        ensures idle { self.old.candidate ≡ None → self.old.ask ≡ None → issued.new ≡ issued.old }
    {
        if self.asking {
            return self.close_asked(issued);
        }
        self.close_free(issued)
    }

    // The same where no parts are asked for.
    #[inline(always)]
    pub(crate) fn close_free(&mut self, issued: &mut Issued) -> SplitClosing
        requires { is_some self.old.ask ≡ false }
        ensures commands { GivesTheCommands self.old (split_step_of result issued.new) }
        ensures ticks { GivesTheIssues self.old (split_step_of result issued.new) }
        ensures stands { SplitFollows (λ h. after_split h (split_step_of result issued.new)) self.old self.new }
        ensures answer { (h : History) → SplitCoreStandsFor self.old h → answer_of (split_step_of result issued.new) ≡ due h }
        ensures quiet { IsSplitQuiet result → issued.new ≡ issued.old }
        ensures idle { self.old.candidate ≡ None → issued.new ≡ issued.old }
    {
        let (tick, row) = match self.merge.next() {
            Next::Waiting { sensor } => return SplitClosing::Waiting { sensor },
            Next::Row {
                tick,
                along,
                across,
                fired,
            } => (
                tick,
                TickRow {
                    along,
                    across,
                    fired,
                },
            ),
        };
        let events = &mut *self.events;
        let change = events
            .detect
            .tick(row.along.unwrap_or(0), row.across.unwrap_or(0), row.fired);
        if change.zero {
            self.asking = true;
            events.ask.open(row, change);
            return SplitClosing::Ask { zero: tick };
        }
        grow(&mut events.candidate, row);
        self.closed = tick;
        if passes_by(&events.candidate, change) {
            return SplitClosing::Closed {
                tick,
                issues: false,
            };
        }
        issue(&mut events.candidate, &mut self.link, tick, change, issued);
        SplitClosing::Closed { tick, issues: true }
    }

    // Closes the time zero that is asked for, once its parts are taken. Few ticks are one, and the places of the parts are large:
    // it stands apart.
    #[inline(never)]
    pub(crate) fn close_asked(&mut self, issued: &mut Issued) -> SplitClosing
        requires { IsSome self.old.ask }
        ensures commands { GivesTheCommands self.old (split_step_of result issued.new) }
        ensures ticks { GivesTheIssues self.old (split_step_of result issued.new) }
        ensures stands { SplitFollows (λ h. after_split h (split_step_of result issued.new)) self.old self.new }
        ensures answer { (h : History) → SplitCoreStandsFor self.old h → answer_of (split_step_of result issued.new) ≡ due h }
        ensures quiet { IsSplitQuiet result → issued.new ≡ issued.old }
    {
        let tick = self.closed + 1;
        let events = &mut *self.events;
        let Some(ask) = events.ask.get() else {
            unreachable!();
        };
        let key = Key {
            cycle: self.cycle,
            zero: tick,
        };
        let pre = match pre_of(&ask.parts, key) {
            Ok(pre) => pre,
            Err(sensor) => return SplitClosing::Parts { sensor },
        };
        let change = ask.change;
        events.candidate = Some(Candidate::begin(pre, ask.row));
        self.asking = false;
        events.ask.close();
        self.closed = tick;
        issue(&mut events.candidate, &mut self.link, tick, change, issued);
        SplitClosing::Closed { tick, issues: true }
    }

    /// Takes a part of the time zero that is asked for.
    pub fn part(&mut self, part: Part) -> Result<(), PartRefused>
        ensures ok { OnOk result (SplitFollows (after_part part) self.old self.new) }
        ensures err { OnErr result (self.new ≡ self.old) }

        // A part is taken exactly where nothing refuses it.
        ensures allowed { (h : History) → SplitCoreStandsFor self.old h → IsOk result ↔ (part_refusal_of part h ≡ None) }
        ensures why { (h : History) → SplitCoreStandsFor self.old h → IfErr result (λ e. part_refusal_of part h ≡ Some e) }
    {
        let asked = self.closed + 1;
        self.events.ask.take(asked, part)?;
        Ok(())
    }

    /// Takes a sample of 0 of the next tick from each axis, and closes the tick, where it needs nothing else and the search is at
    /// rest. It says whether it did; the tick issues nothing then.
    #[inline(always)]
    pub fn pass_still(&mut self) -> bool
        ensures answer { (h : History) → SplitCoreStandsFor self.old h → IsTrue result ↔ CanPassStill self.old h.past }
        ensures passes { IsTrue result → (h : History) → SplitCoreStandsFor self.old h → SplitPassesStill h self.new }
        ensures stays { result ≡ false → self.new ≡ self.old }
    {
        let events = &mut *self.events;
        if self.asking || events.candidate.is_some() || !events.detect.is_at_rest() {
            return false;
        }
        if !self.merge.pass_still() {
            return false;
        }
        events.detect.pass_still();
        self.closed += 1;
        true
    }
}
