//! Writes what a call has to tell.
ghost use Rattle.std.specs.Prelude.{◌≡◌, ◌≢◌, ◌≤◌, IfOk, IfErr};
ghost use Rattle.edr_device.specs.Faults.{Rose};
ghost use Rattle.edr_cli.specs.Endings.{Gains};
ghost use Rattle.edr_cli.specs.Faults.{fault_line, status_of};

use crate::fault::Fault;
use crate::status::Status;
use edr_device::{Failed, Sink, put_all};

/// Writes the text of a call that would end with that status.
pub(crate) fn write<K: Sink>(sink: &mut K, text: &[u8], status: Status) -> Status
    requires { status ≢ Status.WriteFault }
    ensures gains { Gains K.Sink text.now status result sink.old sink.new }
{
    match put_all(sink, text) {
        Ok(()) => status,
        Err(Failed) => Status::WriteFault,
    }
}

/// Writes the line of the fault with which a call ends.
pub(crate) fn tell<K: Sink>(sink: &mut K, fault: Fault) -> Status
    ensures gains { Gains K.Sink (fault_line fault) (status_of fault) result sink.old sink.new }
{
    write(sink, fault.line().as_bytes(), fault.status())
}

/// Writes the text of a call, or the line of the fault for which there is none.
pub(crate) fn finish<K: Sink>(sink: &mut K, outcome: Result<Vec<u8>, Fault>) -> Status
    ensures text { IfOk outcome (λ text. Gains K.Sink text.items Status.Ok result
        sink.old sink.new) }
    ensures fault { IfErr outcome (λ f. Gains K.Sink (fault_line f) (status_of f) result
        sink.old sink.new) }
    ensures write_fault { result ≡ Status.WriteFault
        → Rose (K.faults sink.old) (K.faults sink.new) }
    ensures later { K.faults sink.old ≤ K.faults sink.new }
{
    match outcome {
        Ok(text) => write(sink, &text, Status::Ok),
        Err(fault) => tell(sink, fault),
    }
}
