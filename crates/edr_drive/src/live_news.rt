//! The board of a reader: how it learns that there is something new to read, and that there will be nothing more.

ghost use Rattle.std.specs.Prelude.{◌≡◌};
ghost use Rattle.edr_board.specs.Seats.{closed_posted};

use edr_board::{Board, CommitterSeat, Opened, RecorderSeat, Watch};
use std::alloc::{AllocError as OutOfMemory, Global};

/// The end that posts. Its board is one of the reader's own: on that of the cycle nobody posts where the recorder couldn't be
/// started, and nothing wakes a reader at a command that is committed after the threads.
#[derive(Drop)]
pub(crate) struct News {
    // The closed tick of this board is the number of commands that were shown.
    seat: RecorderSeat,
    stop: CommitterSeat,
    told: u32,
    ghost posted: { closed_posted seat ≡ told },
}

// No number of shown commands is this one, so whoever sleeps at one of them wakes.
const NO_MORE: u32 = u32::MAX;

impl News {
    /// A board on which nothing is told yet, and the watch of its reader.
    pub(crate) fn open(alloc: Global) -> Result<(News, Watch), OutOfMemory> {
        let Opened {
            board: _,
            recorder,
            committer,
            watch,
        } = Board::open(alloc)?;
        let news = News {
            seat: recorder,
            stop: committer,
            told: 0,
        };
        Ok((news, watch))
    }

    /// One more command was shown.
    pub(crate) fn tell(&mut self) {
        if self.told < NO_MORE - 1 {
            self.told += 1;
            self.seat.post_closed(self.told);
            self.seat.wake();
        }
    }

    /// Nothing more will be shown. A reader that looked before the first post, and sleeps after it, finds another number and doesn't
    /// sleep.
    pub(crate) fn end(self) {
        let News {
            mut seat,
            mut stop,
            told: _,
        } = self;
        stop.post_stopped();
        seat.post_closed(NO_MORE);
        seat.wake();
    }
}
