//! The ways in which a call ends.
ghost use Rattle.std.specs.Prelude.{◌≡◌};
ghost use Rattle.edr_cli.specs.Faults.{number_of};

/// How a call ends. All but `Ok`, `WriteFault`, `Dialog` and `Audit` write the line of their fault:
/// alone, or after the replies of a dialog.
#[derive(Clone, Copy, Debug, PartialEq, Eq)]
pub enum Status {
    /// The source was read to its end, where the words ask for that, and the text was written whole.
    Ok,
    /// Other words than those that are served.
    Usage,
    /// The bytes of the source spell no trace.
    Trace,
    /// The source failed.
    ReadFault,
    /// The sink failed. It has a part of the text.
    WriteFault,
    /// The device failed.
    StoreFault,
    /// The image is refused; or it is formatted already, where it was to be formatted.
    Image,
    /// A cycle found no number left.
    Spent,
    /// There was no memory. Nothing was written but its line.
    OutOfMemory,
    /// The source gave more bytes than a trace may have.
    TooLong,
    /// The old image that the source gave is refused.
    OldImage,
    /// A dialog refused a kind or a length, or its stream ended inside a frame. Its replies were written, and no line.
    Dialog,
    /// An audit found a difference. Its line was written, which is no line of a fault.
    Audit,
    /// The bytes of the source end inside a frame of a fleet.
    Fleet,
}

impl Status {
    /// The exit status: 0 for `Ok`, and from 2 to 14 for the others in order.
    pub fn code(&self) -> u8
        ensures { result ≡ number_of self.now }
    {
        match self {
            Status::Ok => 0,
            Status::Usage => 2,
            Status::Trace => 3,
            Status::ReadFault => 4,
            Status::WriteFault => 5,
            Status::StoreFault => 6,
            Status::Image => 7,
            Status::Spent => 8,
            Status::OutOfMemory => 9,
            Status::TooLong => 10,
            Status::OldImage => 11,
            Status::Dialog => 12,
            Status::Audit => 13,
            Status::Fleet => 14,
        }
    }
}
