//! Serves `generate`: writes the trace of a number.
ghost use Rattle.edr_cli.specs.Endings.{Gains};
ghost use Rattle.edr_gen.specs.Traces.{generated_trace};

use crate::status::Status;
use edr_device::{Failed, Sink};
use edr_gen::generate;

/// Writes the trace of the number with that many cycles, piece by piece.
pub(crate) fn serve_generate<K: Sink>(sink: &mut K, number: u64, cycles: u32) -> Status
    ensures gains { Gains K.Sink (generated_trace number cycles) Status.Ok result
        sink.old sink.new }
{
    match generate(number, cycles, sink) {
        Ok(()) => Status::Ok,
        Err(Failed) => Status::WriteFault,
    }
}
