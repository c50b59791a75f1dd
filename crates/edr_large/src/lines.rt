//! The lines that tell of the counts.
ghost use Rattle.std.specs.Prelude.{◌≡◌, ◌++◌, decimal, IfOk, OnOk};
ghost use Rattle.edr_text.specs.Lines.{line_of};
ghost use Rattle.edr_large.specs.Counts.{counts_text};

use crate::counts::Counts;
use edr_text::put_line;
use itoa::Buffer;
use std::alloc::{AllocError as OutOfMemory, Global};

fn put_count(out: &mut Vec<u8>, name: &str, count: u64) -> Result<(), OutOfMemory>
    ensures { OnOk result (out.new.items ≡ out.old.items ++ line_of name.now (decimal count)) }
{
    let mut buffer = Buffer::new();
    put_line(out, name.as_bytes(), buffer.format(count).as_bytes())
}

/// Eight lines, `name: number` each.
pub fn text(alloc: Global, counts: &Counts) -> Result<Vec<u8>, OutOfMemory>
    ensures { IfOk result (λ out. out.items ≡ counts_text counts.now) }
{
    let mut out = Vec::new(alloc);
    put_count(&mut out, "cycles", counts.cycles)?;
    put_count(&mut out, "rows", counts.rows)?;
    put_count(&mut out, "takes", counts.takes)?;
    put_count(&mut out, "locks", counts.locks)?;
    put_count(&mut out, "dones", counts.dones)?;
    put_count(&mut out, "not kept", counts.not_kept)?;
    put_count(&mut out, "retrieved", counts.retrieved)?;
    put_count(&mut out, "complete", counts.complete)?;
    Ok(out)
}
