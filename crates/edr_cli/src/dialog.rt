//! Serves `dialog`: replies to requests about what the image holds.
ghost use Rattle.std.specs.Prelude.{◌≡◌, ◌+◌, ◌≤◌};
ghost use Rattle.edr_banks.specs.Opening.{view_when_opened};
ghost use Rattle.edr_device.specs.Faults.{Rose};
ghost use Rattle.edr_device.specs.Lent.{GoesOn};
ghost use Rattle.edr_device.specs.Told.{Told};
ghost use Rattle.edr_device.specs.Transfer.{GivesAtMost};
ghost use Rattle.edr_spell.specs.Spell.{largest_trace};
ghost use Rattle.edr_cli.specs.Dialogs.{TakesByte, Talked, Talks};

use crate::endings::tell;
use crate::fault::Fault;
use crate::report::open_settled;
use crate::status::Status;
use edr_banks::Banks;
use edr_device::{Failed, Nvm, Sink, Source, put_all};
use edr_dialog::{Dialog, Fed, LONGEST_REPLY};
use edr_trace::LARGEST_TRACE;
use std::alloc::Global;

// Takes one byte, so that nothing past a Bye is taken.
fn take_byte<S: Source>(source: &mut S) -> Result<Option<u8>, Failed>
    ensures takes { TakesByte S.Source result source.old source.new }
    ensures later { S.faults source.old ≤ S.faults source.new }
{
    let mut byte = [0];
    match source.take(&mut byte)? {
        0 => Ok(None),
        _ => Ok(Some(byte[0])),
    }
}

// Replies to the stream. Each reply is written before the next byte is taken.
fn talk<S: Source, K: Sink>(source: &mut S, sink: &mut K, banks: &Banks) -> Status
    ensures talked { Talked S.Source K.Sink (view_when_opened banks.now) result
        source.old source.new sink.old sink.new }
{
    let mut dialog = Dialog::new(banks);
    let mut out = [0; LONGEST_REPLY];
    let mut inside = false;
    for taken in 0..LARGEST_TRACE + 1 {
        let byte = match take_byte(source) {
            Ok(Some(byte)) => byte,
            Ok(None) if inside => return Status::Dialog,
            Ok(None) => return Status::Ok,
            Err(Failed) => return tell(sink, Fault::Read),
        };
        let fed = dialog.feed(byte, &mut out);
        match put_all(sink, &out[..fed.reply_len()]) {
            Ok(()) => {}
            Err(Failed) => return Status::WriteFault,
        }
        match fed {
            Fed::More => inside = true,
            Fed::Reply { .. } => inside = false,
            Fed::Bye { .. } => return Status::Ok,
            Fed::Refused { .. } => return Status::Dialog,
        }
    }
    tell(sink, Fault::TooLong)
}

/// Replies to the stream that the source gives, over what the device holds.
pub(crate) fn serve_dialog<S: Source, K: Sink, N: Nvm>(
    alloc: Global,
    source: &mut S,
    sink: &mut K,
    nvm: &mut N,
) -> Status
    ensures talks { Talks S.Source K.Sink N.Nvm result
        source.old source.new sink.old sink.new nvm.old nvm.new }
    ensures write_fault { result ≡ Status.WriteFault
        → Rose (K.faults sink.old) (K.faults sink.new) }
    ensures sink_later { K.faults sink.old ≤ K.faults sink.new }
    ensures takes { Told (GivesAtMost (largest_trace + 1)) (S.left source.old) (S.left source.new) }
    ensures source_later { S.faults source.old ≤ S.faults source.new }
    ensures lent { GoesOn N.Nvm nvm.old nvm.new }
{
    match open_settled(alloc, nvm) {
        Ok(banks) => talk(source, sink, &banks),
        Err(fault) => tell(sink, fault),
    }
}
