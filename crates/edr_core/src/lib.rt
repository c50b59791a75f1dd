//! The core of the recorder: it takes items of the sensors in any order of sensors, closes one tick after the other,
//! and issues the commands of each tick.
#![tactic(auto)]

mod ask;
mod candidate;
mod captures;
mod parts;
mod slots;
mod split;

ghost use Rattle.std.specs.Prelude.{◌≡◌, ◌↔◌, ℕ, ◌≤◌, false, IfOk, IfErr, IsOk, IsTrue, OnOk, OnErr};
ghost use Rattle.edr_items.specs.SensorLists.{no_items};
ghost use Rattle.edr_definitions.specs.Schedule.{Progress, Give, Close, IsAllowed, after_step};

pub use ask::PartRefused;
pub use candidate::Issued;
pub use captures::Captures;
use edr_items::{Item, Sensor};
use edr_merge::MergeRefused;
use edr_record::{Crash, Pre};
pub use parts::parts_make_the_commands;
pub use split::{SplitClosing, SplitCore, SplitStep};
use std::alloc::{AllocError as OutOfMemory, Global};
use std::marker::Model;

/// What a core answers to the wish for the next tick.
#[derive(Clone, Copy, Debug, PartialEq, Eq)]
pub enum Step {
    /// The next tick can't be closed: this sensor may still give an item of it.
    Waiting {
        sensor: Sensor,
    },
    /// The next tick is closed. `take` is the pre part of an event that is confirmed there, `lock` that of one whose
    /// first locking deployment it is, and `done` the crash part of one whose close it is.
    Closed {
        tick: u32,
        take: Option<Pre>,
        lock: Option<Pre>,
        done: Option<Crash>,
    },
}

/// What a core answers where it puts aside what a tick issues.
#[derive(Clone, Copy, Debug, PartialEq, Eq)]
pub enum Closing {
    /// The next tick can't be closed: this sensor may still give an item of it.
    Waiting { sensor: Sensor },
    /// The next tick is closed. It issues what was put aside, or nothing where `issues` is false, as it is while no candidate
    /// is open.
    Closed { tick: u32, issues: bool },
}

/// The core of the recorder in one ignition cycle. It keeps what later ticks can still need: the last 21 s of each slow
/// sensor, the sums of the search, and one open candidate.
///
/// All memory is taken when it is opened. A call takes none and has a bounded number of steps.
#[derive(Drop)]
pub struct Core {
    split: SplitCore,
    captures: Captures,
}

impl Model for Core {
    ghost use Rattle.edr_core.specs.Contents.{CoreContents};

    ghost Value = { CoreContents };

    ghost use Rattle.edr_core.specs.Fields.{contents_of, HasHistory};

    ghost view = { contents_of };

    ghost invariant = { HasHistory };
}

impl Core {
    ghost use Rattle.edr_merge.specs.Answers.{waited_for};
    ghost use Rattle.edr_core.specs.StandsFor.{CoreIsFor};
    ghost use Rattle.edr_core.specs.Answers.{IsClosed, PutsNothingAside, awaited_sensor, after_answer, step_of, HasTheCommands, HasTheIssues};
    ghost use Rattle.edr_core.specs.Calls.{IsWhyRefused, CoreFollows};
    ghost use Rattle.edr_core.specs.Still.{CanPassStill, CorePassesStill};

    /// A core for the ignition cycle of that number, to which no sensor has given an item, and of which no tick is closed.
    pub fn open(alloc: Global, cycle: u32) -> Result<Core, OutOfMemory>
        requires { 1 ≤ cycle }
        ensures { IfOk result (λ c. CoreIsFor c cycle (record { given = no_items; closed = 0 })) }
    {
        Ok(Core {
            split: SplitCore::open(alloc, cycle)?,
            captures: Captures::new(alloc)?,
        })
    }

    /// The tick up to which all are closed.
    pub fn closed(&self) -> u32
        ensures { (n : ℕ) (p : Progress) → CoreIsFor self.now n p → result ≡ p.closed }
    {
        self.split.closed()
    }

    /// Takes one more item of that sensor.
    ///
    /// ```
    /// let mut core = Core::open(alloc, 1)?;
    /// core.accept(Sensor::Along, Item { moment: 1, value: Some(-4000) })?;
    /// ```
    #[inline(always)]
    pub fn accept(&mut self, sensor: Sensor, item: Item) -> Result<(), MergeRefused>
        ensures ok { OnOk result (CoreFollows (λ p. after_step p (Give sensor item)) self.old self.new) }
        ensures err { OnErr result (self.new ≡ self.old) }

        // An item is taken exactly where the schedule allows it.
        ensures allowed { (n : ℕ) (p : Progress) → CoreIsFor self.old n p → IsOk result ↔ IsAllowed (Give sensor item) p }
        ensures why { (n : ℕ) (p : Progress) → CoreIsFor self.old n p → IfErr result (IsWhyRefused sensor item p) }
    {
        self.split.take(sensor, item)?;
        self.captures.push(sensor, item);
        Ok(())
    }

    /// Closes the next tick and gives what it issues, if no sensor can give an item of it any more.
    pub fn step(&mut self) -> Step
        // A tick that is closed is the next one, and the commands up to it are those before it and then the ones that it carries.
        ensures commands { (n : ℕ) (p : Progress) → CoreIsFor self.old n p → HasTheCommands n p result }
        ensures ticks { (n : ℕ) (p : Progress) → CoreIsFor self.old n p → HasTheIssues n p result }
        ensures stands { CoreFollows (λ p. after_answer p result) self.old self.new }

        // A tick is closed exactly where the schedule allows it; else the sensor is the lowest-numbered that it waits for.
        ensures allowed { (n : ℕ) (p : Progress) → CoreIsFor self.old n p → IsClosed result ↔ IsAllowed Close p }
        ensures waits { (n : ℕ) (p : Progress) → CoreIsFor self.old n p → awaited_sensor result ≡ waited_for p }
    {
        let mut issued = Issued::none();
        match self.close(&mut issued) {
            Closing::Waiting { sensor } => Step::Waiting { sensor },
            Closing::Closed { tick, .. } => Step::Closed {
                tick,
                take: issued.take,
                lock: issued.lock,
                done: issued.done,
            },
        }
    }

    /// The same step, for a caller that steps often: what the tick issues is put into `issued`, which is left as it is where
    /// no candidate is open. Records are large, and most ticks move none then.
    #[inline(always)]
    pub fn close(&mut self, issued: &mut Issued) -> Closing
        // The answer and what was put aside are a step, of which all stands that stands of one.
        ensures commands { (n : ℕ) (p : Progress) → CoreIsFor self.old n p → HasTheCommands n p (step_of result issued.new) }
        ensures ticks { (n : ℕ) (p : Progress) → CoreIsFor self.old n p → HasTheIssues n p (step_of result issued.new) }
        ensures stands { CoreFollows (λ p. after_answer p (step_of result issued.new)) self.old self.new }
        ensures allowed { (n : ℕ) (p : Progress) → CoreIsFor self.old n p → IsClosed (step_of result issued.new) ↔ IsAllowed Close p }
        ensures waits { (n : ℕ) (p : Progress) → CoreIsFor self.old n p → awaited_sensor (step_of result issued.new) ≡ waited_for p }
        ensures quiet { PutsNothingAside result → issued.new ≡ issued.old }
    {
        match self.split.close_free(issued) {
            SplitClosing::Waiting { sensor } => Closing::Waiting { sensor },
            SplitClosing::Closed { tick, issues } => Closing::Closed { tick, issues },
            SplitClosing::Ask { zero } => {
                self.captures.give_parts(&mut self.split, zero);
                match self.split.close_asked(issued) {
                    SplitClosing::Closed { tick, issues } => Closing::Closed { tick, issues },
                    _ => unreachable!(),
                }
            }
            SplitClosing::Parts { .. } => unreachable!(),
        }
    }

    /// Takes a sample of 0 of the next tick from each axis, and closes the tick, where it needs nothing else and the search is at
    /// rest. It says whether it did; the tick issues nothing then.
    #[inline(always)]
    pub fn pass_still(&mut self) -> bool
        ensures answer { (n : ℕ) (p : Progress) → CoreIsFor self.old n p → IsTrue result ↔ CanPassStill self.old.split p }
        ensures passes { IsTrue result → (n : ℕ) (p : Progress) → CoreIsFor self.old n p → CorePassesStill n p self.new }
        ensures stays { result ≡ false → self.new ≡ self.old }
    {
        self.split.pass_still()
    }
}
