//! The calls of a writer.
ghost use Rattle.std.specs.Prelude.{◌≡◌, [], ◌∷◌, ◌++◌, IfErr, IfSome, OnErr, OnOk, Err, Some, true, false};
ghost use Rattle.edr_live.specs.declared.writing.ShowRefused.TheVariants.{Ended};
ghost use Rattle.edr_live.specs.Ends.{has_ended, lists_known, opened_by, opening_known, shown_by, view_shown};
ghost use Rattle.edr_live.specs.Shown.{padded};
ghost use Rattle.edr_live.specs.Writing.{DifferBy, IsOneOf, bank_named, shown_for};

use crate::ends::{LiveReader, LiveWriter};
use crate::publishing::{publish, welcome};
use crate::reading::view_in;
use crate::shown::{LiveView, ShownCommand};
use core::mem::replace_with;
use edr_banks::{Applied, Banks};
use std::sync::Wait;

/// Why a command is not shown.
#[derive(Clone, Copy, Debug, PartialEq, Eq)]
pub enum ShowRefused {
    /// Memory ran out in an earlier call.
    Ended,
    /// Memory has run out.
    OutOfMemory,
}

// What is shown of a command with this answer.
fn shown_for(applied: Applied, banks: &Banks) -> ShownCommand
    requires { IsOneOf banks.now.store.header.banks (bank_named applied) }
    ensures { result ≡ shown_for (bank_named applied) banks.now.store.banks }
{
    match applied {
        Applied::Kept { bank } | Applied::Locked { bank } | Applied::Done { bank } => {
            ShownCommand::Put {
                bank,
                view: banks.view(bank),
            }
        }
        Applied::NotKept => ShownCommand::Nothing,
    }
}

impl LiveWriter {
    /// Shows what came of a command that these banks have taken: the view of the bank that its answer names, or none. It
    /// may wait for a reader that is inside [`LiveReader::read`].
    ///
    /// Where memory runs out nothing is shown, and each later call is answered [`ShowRefused::Ended`].
    ///
    /// ```
    /// let applied = banks.apply(nvm, &command)?;
    /// writer.show(rt, applied, &banks)?;
    /// ```
    pub fn show<R: Wait>(
        &mut self,
        rt: &R,
        applied: Applied,
        banks: &Banks,
    ) -> Result<(), ShowRefused>
        requires count { banks.now.store.header.banks ≡ (opened_by self.old).banks }
        requires named { IsOneOf banks.now.store.header.banks (bank_named applied) }
        // The views of the banks are the writer's, but for that bank's.
        requires views { DifferBy (bank_named applied) (view_shown self.old) banks.now }
        ensures shown { OnOk result (shown_by self.new
            ≡ shown_by self.old ++ shown_for (bank_named applied) banks.now.store.banks ∷ []) }
        ensures views { OnOk result ((view_shown self.new).views ≡ padded 16 banks.now.store.banks) }
        ensures refused { OnErr result (shown_by self.new ≡ shown_by self.old) }
        ensures ended { has_ended self.old ≡ true → result ≡ Err Ended }
        ensures why { IfErr result (λ e. e ≡ Ended → has_ended self.old ≡ true) }
        ensures after { OnErr result (has_ended self.new ≡ true) }
        ensures goes_on { OnOk result (has_ended self.new ≡ false) }
        ensures opening { opened_by self.new ≡ opened_by self.old }
    {
        if self.ended {
            return Err(ShowRefused::Ended);
        }
        let command = shown_for(applied, banks);
        self.ended = true;
        if self.writer.append(command).is_err() {
            return Err(ShowRefused::OutOfMemory);
        }
        match replace_with(&mut self.writer, rt, publish) {
            Ok(()) => {
                self.ended = false;
                Ok(())
            }
            Err(_) => Err(ShowRefused::OutOfMemory),
        }
    }

    /// One more reader, which is told of all that was shown. None comes where two readers are there already.
    ///
    /// ```
    /// let seen = writer.tell().and_then(|mut reader| reader.read());
    /// ```
    pub fn tell(&mut self) -> Option<LiveReader>
        ensures told { IfSome result (λ r. lists_known r ≡ shown_by self.old ∷ []) }
        ensures opening { IfSome result (λ r. opening_known r ≡ Some (opened_by self.old)) }
        ensures shown { shown_by self.new ≡ shown_by self.old }
        ensures banks { opened_by self.new ≡ opened_by self.old }
        ensures ended { has_ended self.new ≡ has_ended self.old }
    {
        let reader = welcome(&mut self.writer)?;
        Some(LiveReader { reader })
    }

    /// Ends the writer, and answers all banks as it has shown them. It may wait for a reader that is inside
    /// [`LiveReader::read`]; each later read is answered None.
    pub(crate) fn end<R: Wait>(self, rt: &R) -> LiveView
        ensures { result ≡ view_shown self }
    {
        let LiveWriter { writer, ended: _ } = self;
        let copy = writer.take(rt);
        view_in(&copy)
    }

    /// Ends both, and answers all banks as this writer has shown them. It shows nothing, and takes no memory. It may wait
    /// for a reader that is inside [`LiveReader::read`].
    pub fn close<R: Wait>(self, rt: &R, reader: LiveReader) -> LiveView
        ensures { result ≡ view_shown self }
    {
        drop(reader);
        self.end(rt)
    }
}
