//! Opening both ends.
ghost use Rattle.std.specs.Prelude.{◌≡◌, [], ◌∷◌, IfOk, Some, false};
ghost use Rattle.edr_live.specs.Copies.{commands_of_copy};
ghost use Rattle.edr_live.specs.Ends.{has_ended, lists_known, opened_by, opening_known, shown_by};
ghost use Rattle.edr_live.specs.Shown.{padded};
ghost use Rattle.edr_live.specs.Writing.{first_view};

use crate::copy::LiveCopy;
use crate::ends::{Live, LiveWriter};
use crate::publishing::publish;
use crate::rule::CopyWriter;
use crate::shown::LiveView;
use edr_banks::{BankView, Banks};
use std::alloc::{AllocError as OutOfMemory, Global};
use std::snapshot::Snapshot;
use std::sync::Wait;

// The views of the banks, and void ones past their number.
fn views_of(banks: &Banks) -> [BankView; 16]
    ensures { result ≡ padded 16 banks.now.store.banks }
{
    let mut views = [BankView::Void; 16];
    for bank in 0..banks.banks() {
        views[bank as usize] = banks.view(bank + 1);
    }
    views
}

// What is shown at first.
fn first_view(banks: &Banks) -> LiveView
    ensures { result ≡ first_view banks.now }
{
    LiveView {
        applied: 0,
        banks: banks.banks(),
        views: views_of(banks),
    }
}

// A copy with no command yet.
fn first_copy(alloc: Global, view: &LiveView) -> LiveCopy
    requires { view.now.applied ≡ 0 }
    ensures view { result.view ≡ view.now }
    ensures opening { result.opening.value ≡ view.now }
    ensures none { commands_of_copy result ≡ [] }
{
    LiveCopy {
        view: *view,
        opening: Snapshot::of(view),
        shown: Vec::new(alloc),
    }
}

// How many readers may be there at once: one in a thread of its own, and one of the caller's.
const READERS: usize = 2;

// A writer that has shown just this.
fn first_writer<R: Wait>(rt: &R, alloc: Global, view: &LiveView) -> Result<LiveWriter, OutOfMemory>
    requires { view.now.applied ≡ 0 }
    ensures opening { IfOk result (λ w. opened_by w ≡ view.now) }
    ensures none { IfOk result (λ w. shown_by w ≡ []) }
    ensures fresh { IfOk result (λ w. has_ended w ≡ false) }
{
    let first = first_copy(alloc, view);
    let second = first_copy(alloc, view);
    let writer: CopyWriter = CopyWriter::new(alloc, first, second, READERS)?;
    let (writer, shown) = publish(writer, rt);
    match shown {
        Ok(()) => Ok(LiveWriter {
            writer,
            ended: false,
        }),
        Err(_) => {
            writer.take(rt);
            Err(OutOfMemory)
        }
    }
}

/// A writer of these banks, and a reader that knows them. Nothing is shown yet.
///
/// Where no reader can be made, the writer is ended here. To end one is a call that may wait, so `open` takes the handle;
/// but there is no reader yet for which it could wait.
///
/// ```
/// let Live { mut writer, mut reader } = open(rt, alloc, &banks)?;
/// let applied = banks.apply(nvm, &command)?;
/// if writer.show(rt, applied, &banks).is_ok() {
///     let view = reader.read();
/// }
/// let last = writer.close(rt, reader);
/// ```
pub fn open<R: Wait>(rt: &R, alloc: Global, banks: &Banks) -> Result<Live, OutOfMemory>
    ensures banks { IfOk result (λ l. opened_by l.writer ≡ first_view banks.now) }
    ensures none { IfOk result (λ l. shown_by l.writer ≡ []) }
    ensures fresh { IfOk result (λ l. has_ended l.writer ≡ false) }
    ensures opening { IfOk result (λ l. opening_known l.reader ≡ Some (first_view banks.now)) }
    ensures known { IfOk result (λ l. lists_known l.reader ≡ [] ∷ []) }
{
    let view = first_view(banks);
    let mut writer = first_writer(rt, alloc, &view)?;
    match writer.tell() {
        Some(reader) => Ok(Live { writer, reader }),
        None => {
            writer.end(rt);
            Err(OutOfMemory)
        }
    }
}
