//! The open candidate: what is kept of it from tick to tick, and what a tick issues of it.

ghost use Rattle.std.specs.Prelude.{◌≡◌, ◌↔◌, Option, IsTrue, IfSome, option_map};
ghost use Rattle.edr_detect.specs.Stages.{told_of};
ghost use Rattle.edr_core.specs.Candidate.{IsRowInRange, IsShort, CanBeTold, PassesBy, begun_candidate, grown_candidate, told_candidate, next_link, issued_of, no_issues, candidate_after, link_after, issued_after};

use edr_crashpart::OpenCrash;
use edr_detect::Change;
use edr_items::Restraints;
use edr_link::Link;
use edr_record::{Crash, Pre};

// What was given of a tick: the sample of each axis, if there is one, and the restraints that fire.
#[derive(Clone, Copy)]
pub struct TickRow {
    pub along: Option<i32>,
    pub across: Option<i32>,
    pub fired: Restraints,
}

// A candidate from its time zero up to its close, or up to its end if it is dropped there.
#[derive(Drop)]
pub struct Candidate {
    // Frozen at time zero. The place is that of the event once it is confirmed.
    pub pre: Pre,
    pub crash: OpenCrash,
    // The end once it has come, and time zero before that.
    pub end: u32,
}

/// What a tick issues.
#[derive(Clone, Copy, Debug, PartialEq, Eq)]
pub struct Issued {
    /// The pre part of an event that is confirmed there.
    pub take: Option<Pre>,
    /// That of an event whose first locking deployment it is.
    pub lock: Option<Pre>,
    /// The crash part of an event whose close it is.
    pub done: Option<Crash>,
}

impl Issued {
    ghost use Rattle.edr_core.specs.Candidate.{no_issues};

    /// Nothing.
    pub fn none() -> Issued
        ensures { result ≡ no_issues }
    {
        Issued {
            take: None,
            lock: None,
            done: None,
        }
    }
}

impl Candidate {
    /// Freezes what stood before time zero. The row is that of time zero, of which only the restraints count.
    pub fn begin(pre: Pre, row: TickRow) -> Candidate
        ensures { result ≡ begun_candidate pre row }
    {
        let zero = pre.key.zero;
        Candidate {
            pre,
            crash: OpenCrash::begin(zero, row.fired),
            end: zero,
        }
    }

    /// Gives the crash part one tick more, of 1 ms: the samples in steps of 0.0001 km/h, and the restraints that fire.
    pub fn grow(&mut self, row: TickRow)
        requires short { IsShort self.old }
        requires in_range { IsRowInRange row }
        ensures { self.new ≡ grown_candidate row self.old }
    {
        self.crash.tick(row.along, row.across, row.fired);
    }

    /// What the memory is to do at a tick of the cycle, in ms. At its confirmation the event gets its place in the pair.
    pub fn tell(&mut self, tick: u32, change: Change, link: &mut Link) -> Issued
        requires { CanBeTold tick (told_of change) link.old self.old }
        ensures candidate { self.new ≡ told_candidate tick (told_of change) link.old self.old }
        ensures link { link.new ≡ next_link (told_of change) link.old self.new }
        ensures issued { result ≡ issued_of (told_of change) self.new }
    {
        if change.confirmed {
            self.pre.place = link.next(self.pre.key.zero);
        }
        if change.ended {
            self.end = tick;
        }
        Issued {
            take: change.confirmed.then_some(self.pre),
            lock: change.locked.then_some(self.pre),
            done: if change.closed {
                Some(self.crash.finish(self.end))
            } else {
                None
            },
        }
    }
}

// Gives the open candidate its row.
#[inline(always)]
pub fn grow(candidate: &mut Option<Candidate>, row: TickRow)
    requires short { IfSome candidate.old IsShort }
    requires in_range { IsRowInRange row }
    ensures { candidate.new ≡ option_map (grown_candidate row) candidate.old }
{
    if let Some(open) = candidate {
        open.grow(row);
    }
}

// The tick issues nothing, and leaves what is open as it is.
#[inline(always)]
pub fn passes_by(candidate: &Option<Candidate>, change: Change) -> bool
    ensures { IsTrue result ↔ PassesBy (told_of change) candidate.now }
{
    if change.confirmed || change.locked || change.ended || change.dropped || change.closed {
        return candidate.is_none();
    }
    true
}

// Puts what a tick issues into `issued`, once it is told to the open candidate. One that is dropped or closed there is open
// no longer. Records are large: it stands apart, so that other ticks don't clear their places.
#[inline(never)]
pub fn issue(
    candidate: &mut Option<Candidate>,
    link: &mut Link,
    tick: u32,
    change: Change,
    issued: &mut Issued,
)
    requires { IfSome candidate.old (CanBeTold tick (told_of change) link.old) }
    ensures candidate { candidate.new ≡ candidate_after tick (told_of change) link.old candidate.old }
    ensures link { link.new ≡ link_after tick (told_of change) link.old candidate.old }
    ensures issued { issued.new ≡ issued_after tick (told_of change) link.old candidate.old }
{
    let Some(open) = candidate else {
        *issued = Issued::none();
        return;
    };
    *issued = open.tell(tick, change, link);
    if change.dropped || change.closed {
        *candidate = None;
    }
}
