//! A generated run with ample memory, counted beside the memory of the records.

use super::{KEEP, check_run, kept_memory, new_image, run_of};
use edr_cli::Status;
use std::test::Fail;

// What a second program counts of one cycle of the number 1 over 16 banks.
const ONE_CYCLE: &str = "cycles: 1
rows: 36921
takes: 3
locks: 1
dones: 3
not kept: 0
retrieved: 3
complete: 0
";

#[test]
fn a_run_is_counted_beside_the_memory(rt: HostRuntime) -> Result<(), Fail> {
    let mut memory = kept_memory(rt.alloc())?;
    let large = run_of(&["large", "1", "1"], Status::Ok, ONE_CYCLE);
    check_run(&rt, large, &mut memory)?;
    assert_eq!(rt; memory.image(), new_image(2, KEEP).as_slice());
    Ok(())
}
