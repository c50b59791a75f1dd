//! A reader in a thread of its own, which reads each time that there is news.

ghost use Rattle.edr_drive.specs.Reading.{HasReadOn};

use edr_board::Watch;
use edr_live::LiveReader;
use std::snapshot::Snapshot;
use std::sync::Wait;
use std::thread::Promise;

/// What a reader's thread owns.
#[derive(Drop)]
pub(crate) struct ReaderDesk {
    pub(crate) reader: LiveReader,
    pub(crate) watch: Watch,
}

/// A reader's thread hands back its reader, which has read on.
#[derive(Drop)]
pub(crate) struct ReadingOn {
    pub(crate) before: Snapshot<LiveReader>,
}

impl Promise<LiveReader> for ReadingOn {
    ghost use Rattle.edr_drive.specs.Reading.{HasReadOn};

    ghost kept_by = { λ p reader. HasReadOn p.before.value reader };
}

impl ReaderDesk {
    /// Reads each time that there is news, and once more when nothing more will be shown. It hands the reader back.
    ///
    /// The board is read first: what was shown before a post is in the view that is read after it. So the last view is that of all
    /// that was shown.
    ///
    /// It sleeps at the number that it read, as the committer does, and not at a bell. There are some three commands in a cycle of
    /// many seconds. At a bell it would stay on the processor at first, and then wake a thousand times a second. And it needs no
    /// bound: the number is the news, so a post between the read and the sleep isn't missed.
    pub(crate) fn follow<R: Wait>(self, rt: &R) -> LiveReader
        ensures { HasReadOn self.reader result }
    {
        let ReaderDesk {
            mut reader,
            mut watch,
        } = self;
        for _ in rt.forever() {
            let news = watch.read();
            let _ = reader.read();
            if news.stopped {
                return reader;
            }
            watch.sleep_at(rt, news.closed);
        }
        unreachable!()
    }
}
