//! Writes a generated trace.
ghost use Rattle.std.specs.Prelude.{◌≡◌, ◌+◌, ◌≤◌, ◌++◌, [], ◌∷◌, IfOk, OnErr, OnOk};
ghost use Rattle.arrayvec.specs.ArrayString.{array_string_len};
ghost use Rattle.edr_device.specs.Faults.{HasCause};
ghost use Rattle.edr_device.specs.Stream.{Appends};
ghost use Rattle.edr_device.specs.Told.{Told};
ghost use Rattle.edr_device.specs.Transfer.{AppendsPart};
ghost use Rattle.edr_spell.specs.Lines.{text_of};
ghost use Rattle.edr_spell.specs.declared.Row.TheVariants as row;
ghost use Rattle.edr_gen.specs.Traces.{generated_trace, rows_of};

use crate::draws::Draws;
use crate::gathered::Gathered;
use crate::pages::{PAGE, Page, TICKS_OF_PAGE, push_ticks};
use crate::plan::{Plan, TICKS};
use edr_device::{Failed, Sink, put_all};
use itoa::Buffer;
use std::alloc::{AllocError as OutOfMemory, Global};

// How many pages the ticks of a cycle fill.
const PAGES: u32 = TICKS / TICKS_OF_PAGE;

// As many bytes as the row that ends a cycle never exceeds.
const CUT_ROOM: usize = 16;

// Appends the row that ends a cycle.
fn push_cut(page: &mut Page, stop: u32)
    requires { array_string_len page.old + CUT_ROOM ≤ PAGE }
    ensures { page.new.bytes ≡ page.old.bytes ++ text_of (row.Cut stop ∷ []) }
{
    let mut buffer = Buffer::new();
    page.push_str("cut,");
    page.push_str(buffer.format(stop));
    page.push_str(",\n");
}

// Writes the rows of a cycle.
fn put_cycle<K: Sink>(sink: &mut K, plan: &Plan) -> Result<(), Failed>
    ensures ok { OnOk result (Told (Appends (text_of (rows_of plan.now))) (K.content sink.old) (K.content sink.new)) }
    ensures err { OnErr result (Told (AppendsPart (text_of (rows_of plan.now))) (K.content sink.old) (K.content sink.new)) }
    ensures cause { HasCause (K.faults sink.old) (K.faults sink.new) result }
{
    let mut page = Page::new();
    page.push_str("on,0,\n");
    for number in 0..PAGES {
        push_ticks(&mut page, plan, TICKS_OF_PAGE * number);
        put_all(sink, page.as_str().as_bytes())?;
        page.clear();
    }
    push_cut(&mut page, plan.stop);
    put_all(sink, page.as_str().as_bytes())
}

/// Writes the trace of the number with that many cycles, piece by piece. It takes no memory.
pub fn generate<K: Sink>(number: u64, cycles: u32, sink: &mut K) -> Result<(), Failed>
    ensures ok { OnOk result (Told (Appends (generated_trace number cycles)) (K.content sink.old) (K.content sink.new)) }
    ensures err { OnErr result (Told (AppendsPart (generated_trace number cycles)) (K.content sink.old) (K.content sink.new)) }
    ensures cause { HasCause (K.faults sink.old) (K.faults sink.new) result }
{
    let mut draws = Draws { state: number };
    for _done in 0..cycles {
        let plan = draws.next_plan();
        put_cycle(sink, &plan)?;
    }
    Ok(())
}

/// The bytes of that trace.
pub fn generate_into(alloc: Global, number: u64, cycles: u32) -> Result<Vec<u8>, OutOfMemory>
    ensures { IfOk result (λ bytes. bytes.items ≡ generated_trace number cycles) }
{
    let mut gathered = Gathered::new(alloc);
    match generate(number, cycles, &mut gathered) {
        Ok(()) => Ok(gathered.bytes),
        Err(Failed) => Err(OutOfMemory),
    }
}
