ghost use Rattle.std.specs.Prelude.{◌≤◌, unsigned_abs};

use edr_detect::Detect;
use edr_items::Restraints;
use std::alloc::{AllocError as OutOfMemory, Global};
use std::test::Fail;

// The ticks at which candidates are dropped where the car is pulled steadily for two seconds.
fn dropped(alloc: Global, change: i32) -> Result<Vec<u32>, OutOfMemory>
    requires { unsigned_abs change ≤ 100_000 }
{
    let mut detect = Detect::new();
    let mut dropped = Vec::new(alloc);
    for before in 0..3_000u32 {
        let along = if before < 2_000 { change } else { 0 };
        if detect.tick(along, 0, Restraints(0)).dropped {
            dropped.push(before + 1)?;
        }
    }
    Ok(dropped)
}

// What is dropped is told by no record: three candidates end by the reset and one quietly.
#[test]
fn candidates_of_a_steady_pull_are_dropped(rt: HostRuntime) -> Result<(), Fail> {
    assert!(rt; dropped(rt.alloc(), 400)?.is_empty());
    let ends = [520, 1040, 1560, 2001];
    assert_eq!(rt; dropped(rt.alloc(), 401)?.as_slice(), ends.as_slice());
    Ok(())
}
