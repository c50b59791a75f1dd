//! The bells: where a thread sleeps that found nothing to do, and how it is woken.
//!
//! A bell is a word of its own, beside those of the board. It is 1 where somebody is about to sleep at it or does. Whoever rings sets it
//! to 0 and wakes all. Nothing that is proved rests on a bell, since each sleep is short and whoever wakes looks at everything again.

ghost use Rattle.std.specs.Prelude.{◌≡◌};
ghost use Rattle.edr_board.specs.Bells.{most_rounds, rounds_after};

use std::hint::spin_loop;
use std::sync::Wait;
use std::sync::atomic::{AtomicU64, Ordering};
use std::time::Duration;

/// Whose sleep it is.
#[derive(Clone, Copy, Debug, PartialEq, Eq)]
pub enum Bell {
    /// The recorder's. A worker rings that has sent or kept something.
    Recorder,
    /// That of a worker whose fast sensors have items left. The recorder rings when it has taken items.
    Room,
    /// That of any other worker. The recorder rings when it has granted moments.
    Grants,
}

impl Bell {
    // After how many rounds that found nothing whoever waits there sleeps.
    const fn rounds(self) -> u32
        ensures { result ≡ most_rounds self }
    {
        match self {
            Bell::Recorder => RECORDER_ROUNDS,
            Bell::Room | Bell::Grants => ROUNDS,
        }
    }
}

/// All bells.
#[derive(Drop)]
pub(crate) struct Bells {
    recorder: AtomicU64,
    room: AtomicU64,
    grants: AtomicU64,
}

// The word of a bell at which somebody sleeps.
const ASLEEP: u32 = 1;

// After this many rounds that found nothing a thread sleeps. With what a round looks at, they take some ten microseconds. More rounds
// keep the processor from those that have work, where there are more threads than processors or other programs.
pub const ROUNDS: u32 = 10;

// After this many the recorder does. There is one, and all others wait for it: a sleep of it costs each of them more than it saves.
pub const RECORDER_ROUNDS: u32 = 40;

// For how long a thread stays on the processor in each of these rounds. It doesn't yield: where other work keeps the processors busy, a
// thread that yields loses its turn for milliseconds.
const PAUSES: u32 = 10;

// How many milliseconds the longest sleep takes.
const LONGEST_SLEEP: u64 = 1;

impl Bells {
    // Bells at which nobody sleeps.
    pub(crate) const fn new() -> Bells {
        Bells {
            recorder: AtomicU64::new(0),
            room: AtomicU64::new(0),
            grants: AtomicU64::new(0),
        }
    }

    fn word(&self, bell: Bell) -> &AtomicU64 {
        match bell {
            Bell::Recorder => &self.recorder,
            Bell::Room => &self.room,
            Bell::Grants => &self.grants,
        }
    }

    // Wakes whoever sleeps there. Where nobody does, it only reads the word.
    pub(crate) fn ring(&self, bell: Bell) {
        let word = self.word(bell);
        if word.load(Ordering::SeqCst) == u64::from(ASLEEP) {
            word.store(0, Ordering::SeqCst);
            word.wake_all();
        }
    }

    // What a thread does after a round that found nothing, with the number of those before it, and the number of them to go on with.
    // First it looks again soon. Then it says that it will sleep, and looks once more; so it has seen whatever was done before a ring
    // that found nobody. Then it sleeps.
    pub(crate) fn rest<R: Wait>(&self, rt: &R, bell: Bell, rounds: u32) -> u32
        ensures { result ≡ rounds_after bell rounds }
    {
        let most = bell.rounds();
        if rounds < most {
            for _ in 0..PAUSES {
                spin_loop();
            }
            return rounds + 1;
        }
        let word = self.word(bell);
        if rounds == most {
            word.store(u64::from(ASLEEP), Ordering::SeqCst);
            return rounds + 1;
        }
        word.park_timeout(rt, ASLEEP, Duration::from_millis(LONGEST_SLEEP));
        most
    }
}
