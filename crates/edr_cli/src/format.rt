//! Serves `format`: makes a new image on the memory of the records.
ghost use Rattle.std.specs.Prelude.{◌≡◌, ◌≤◌, IfSome, IfOk, IfErr, IsOk};
ghost use Rattle.edr_device.specs.Faults.{Rose};
ghost use Rattle.edr_device.specs.Lent.{GoesOn};
ghost use Rattle.edr_image.specs.declared.places.TheConstants.{FEWEST_BANKS, MOST_BANKS};
ghost use Rattle.edr_image.specs.Image.{image_size};
ghost use Rattle.edr_banks.specs.Formatting.{IsPartlyFormatted, LacksMagic};
ghost use Rattle.edr_report.specs.Format.{format_line};
ghost use Rattle.edr_cli.specs.Formats.{IsFormatCause, Formats, IsMade};
ghost use Rattle.edr_cli.specs.Outside.{OfMemory};
ghost use Rattle.edr_cli.specs.Crashes.{KeepsImage, OfCrash};

use crate::endings::{tell, write};
use crate::fault::Fault;
use crate::status::Status;
use edr_banks::{Banks, Header};
use edr_device::{Nvm, Sink};
use edr_report::{ShortLine, format_line};

// Makes a new image, and the line that tells of it. The line is built before the device is touched.
fn make_image<N: Nvm>(nvm: &mut N, header: Header) -> Result<ShortLine, Fault>
    requires from { FEWEST_BANKS ≤ header.banks }
    requires to { header.banks ≤ MOST_BANKS }
    ensures lent { GoesOn N.Nvm nvm.old nvm.new }
    ensures line { IfOk result (λ line. line ≡ format_line header) }
    ensures made { IfOk result (λ line. OfMemory N.Nvm (IsMade header) nvm.old nvm.new) }
    ensures cause { IfErr result (OfMemory N.Nvm (IsFormatCause header) nvm.old nvm.new) }
    ensures crash { OfCrash N.Nvm nvm.old nvm.new (IsPartlyFormatted header) }
    // An image that is there stays.
    ensures stays { KeepsImage N.Nvm nvm.old nvm.new }
    ensures complete { ¬ Rose (N.faults nvm.old) (N.faults nvm.new)
        → image_size header.banks ≤ N.extent nvm.old
        → IfSome (N.content nvm.old) (λ bytes. LacksMagic bytes → IsOk result) }
{
    let line = format_line(header);
    nvm.sync()?;
    Banks::format(nvm, header.banks, header.choice)?;
    Ok(line)
}

/// Makes a new image, and writes the line that tells of it.
pub(crate) fn serve_format<K: Sink, N: Nvm>(sink: &mut K, nvm: &mut N, header: Header) -> Status
    requires from { FEWEST_BANKS ≤ header.banks }
    requires to { header.banks ≤ MOST_BANKS }
    ensures formats { Formats K.Sink N.Nvm header result sink.old sink.new nvm.old nvm.new }
    ensures write_fault { result ≡ Status.WriteFault
        → Rose (K.faults sink.old) (K.faults sink.new) }
    ensures sink_later { K.faults sink.old ≤ K.faults sink.new }
    ensures lent { GoesOn N.Nvm nvm.old nvm.new }
{
    match make_image(nvm, header) {
        Ok(line) => write(sink, line.as_bytes(), Status::Ok),
        Err(fault) => tell(sink, fault),
    }
}
