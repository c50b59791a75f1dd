//! Books whose commands are shown.

ghost use Rattle.std.specs.Prelude.{◌≡◌, ◌≤◌, [], ◌∷◌, ◌++◌, None, true, false, length};
ghost use Rattle.edr_banks.specs.Opened.{state_of};
ghost use Rattle.edr_live.specs.Ends.{has_ended, opened_by, shown_by, view_shown};
ghost use Rattle.edr_live.specs.Shown.{padded};
ghost use Rattle.edr_live.specs.Writing.{DifferBy, IsOneOf, bank_named, shown_for};
ghost use Rattle.edr_drive.specs.Following.{state_from, views_from};
ghost use Rattle.edr_drive.specs.Shown.{HasShownNothing};

use crate::live_news::News;
use edr_banks::{Applied, Banks, Command};
use edr_cycle::{Books, Ledger};
use edr_device::{Failed, Nvm};
use edr_live::LiveWriter;
use std::snapshot::Snapshot;
use std::sync::Wait;

/// What shows the commands to a reader.
pub(crate) struct Showing {
    pub(crate) writer: LiveWriter,
    pub(crate) news: News,
    // Memory ran out in a show, and nothing more is shown.
    pub(crate) cut: bool,
    ghost told: { has_ended writer ≡ cut },
}

/// Books whose commands are shown. What is shown are the banks of the start after the first commands of the log; and unless memory
/// ran out, these are all of them.
pub(crate) struct LiveBooks<'a, R> {
    pub(crate) rt: &'a R,
    pub(crate) books: Books,
    pub(crate) showing: Showing,
    // The banks that it began with, in proofs alone.
    pub(crate) start: Snapshot<Banks>,
    ghost count: { (opened_by showing.writer).banks ≡ start.value.store.header.banks },
    ghost stands: { state_of books.banks ≡ state_from start.value.store books.log.commands },
    ghost within: { length (shown_by showing.writer) ≤ length books.log.commands },
    ghost views: { (view_shown showing.writer).views
        ≡ views_from start.value.store books.log.commands (length (shown_by showing.writer)) },
    ghost all: { showing.cut ≡ false
        → length (shown_by showing.writer) ≡ length books.log.commands },
}

impl Showing {
    // Shows what came of a command and tells the reader, unless memory has run out before.
    fn show<R: Wait>(&mut self, rt: &R, applied: Applied, banks: &Banks)
        requires count { banks.now.store.header.banks ≡ (opened_by self.old.writer).banks }
        requires named { self.old.cut ≡ false
            → IsOneOf banks.now.store.header.banks (bank_named applied) }
        requires views { self.old.cut ≡ false
            → DifferBy (bank_named applied) (view_shown self.old.writer) banks.now }
        ensures opening { opened_by self.new.writer ≡ opened_by self.old.writer }
        ensures stays { self.old.cut ≡ true → self.new.cut ≡ true }
        ensures shown { self.new.cut ≡ false → shown_by self.new.writer ≡ shown_by self.old.writer
            ++ shown_for (bank_named applied) banks.now.store.banks ∷ [] }
        ensures views { self.new.cut ≡ false
            → (view_shown self.new.writer).views ≡ padded 16 banks.now.store.banks }
        ensures none { self.new.cut ≡ true → shown_by self.new.writer ≡ shown_by self.old.writer }
    {
        if self.cut {
            return;
        }
        match self.writer.show(rt, applied, banks) {
            Ok(()) => self.news.tell(),
            Err(_) => self.cut = true,
        }
    }
}

impl<'a, R: Wait> LiveBooks<'a, R> {
    /// Books with an empty log, of whose banks nothing is shown yet.
    pub(crate) fn new(rt: &'a R, books: Books, writer: LiveWriter, news: News) -> LiveBooks<'a, R>
        requires rests { books.banks.held ≡ None }
        requires empty { books.log.commands ≡ [] }
        requires shown { HasShownNothing books.banks writer }
        ensures start { result.start.value ≡ books.banks }
        ensures books { (result.books.banks ≡ books.banks) × (result.books.log ≡ books.log) }
    {
        let start = Snapshot::of(&books.banks);
        LiveBooks {
            rt,
            books,
            showing: Showing {
                writer,
                news,
                cut: false,
            },
            start,
        }
    }
}

impl<'a, R: Wait> Ledger for LiveBooks<'a, R> {
    ghost use Rattle.edr_drive.specs.Marks.{marked};

    ghost banks = { λ b. b.books.banks };

    ghost log = { λ b. marked b.start.value b.books.log };

    fn commit<N: Nvm>(&mut self, nvm: &mut N, tick: u32, command: &Command) -> Result<(), Failed> {
        // The list of the banks is as long as their number says.
        let _ = self.books.banks.banks();
        let applied = self.books.commit_answered(nvm, tick, command)?;
        self.showing.show(self.rt, applied, &self.books.banks);
        Ok(())
    }

    fn spare(&self) -> u32 {
        self.books.spare()
    }
}
