//! The rule of what is shown. The shown commands begin with each list that an end knows, and the banks at opening are
//! those that it knows.
use crate::copy::LiveCopy;
use crate::knowledge::Knowledge;
use crate::shown::ShownCommand;
use atomic_table::{Join, Split};
use crossbeam_utils::rule::{Outcome, Protocol};
use left_right::reader::Reader;
use left_right::writer::Writer;

/// The rule.
pub struct ShowsInOrder;

impl Protocol<LiveCopy, Knowledge> for ShowsInOrder {
    ghost use Rattle.edr_live.specs.Rule.{KeepsShown, newcomer};

    ghost holds = { KeepsShown };

    ghost first = { newcomer };
}

/// A reader that looks.
pub struct Looks;

impl Outcome<LiveCopy, Knowledge> for Looks {
    ghost use Rattle.edr_live.specs.Rule.{Learns};

    ghost then = { Learns };
}

/// A writer that shows.
pub struct ShowsOn;

impl Outcome<LiveCopy, Knowledge> for ShowsOn {
    ghost use Rattle.edr_live.specs.Rule.{KnowsAll};

    ghost then = { KnowsAll };
}

/// A note, which has all that the writer knows.
pub struct Notes;

impl Split<Knowledge> for Notes {
    ghost left = { λ v. v };

    ghost right = { λ v. v };
}

/// A reader that knows nothing yet, and takes its first note.
pub struct Welcomes;

impl Join<Knowledge> for Welcomes {
    ghost use Rattle.edr_live.specs.Rule.{newcomer};

    ghost both = { λ _ w. w };

    ghost spent = { newcomer };
}

pub type CopyReader = Reader<LiveCopy, Knowledge, ShowsInOrder>;

pub type CopyWriter = Writer<LiveCopy, ShownCommand, Knowledge, ShowsInOrder>;
