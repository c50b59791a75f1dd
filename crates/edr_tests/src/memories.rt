//! The memory in memory and the fuse, by numbers.
ghost use Rattle.std.specs.Prelude.{◌≡◌, IfOk, length};
ghost use Rattle.edr_device.specs.Memory.{memory_image};

use edr_device::{Failed, Fused, MemNvm, Nvm, write_gated, write_settled};
use std::alloc::{AllocError, Global};
use std::process::Abort;
use std::test::Fail;

// The bytes 10 to 17, with these calls that fail.
fn eight_bytes(alloc: Global, fails: &[u32], pick: u64) -> Result<MemNvm, AllocError>
    ensures { IfOk result (λ m. length (memory_image m) ≡ 8) }
{
    let image = [10u8, 11, 12, 13, 14, 15, 16, 17].to_vec(alloc)?;
    MemNvm::new(
        alloc,
        image,
        20,
        fails.to_vec(alloc)?,
        Vec::new(alloc),
        pick,
    )
}

#[derive(Clone, Copy)]
enum NvmCall {
    Write(u32, [u8; 2]),
    Sync,
}

// One call, whether it fails or not; a write past the end is none.
fn make<N: Nvm>(nvm: &mut N, step: NvmCall) -> Result<(), Failed> {
    match step {
        NvmCall::Write(at, bytes) => {
            if u64::from(at) + 2 > u64::from(nvm.size()) {
                return Ok(());
            }
            nvm.write(at, &bytes)
        }
        NvmCall::Sync => nvm.sync(),
    }
}

// The memory after these steps and a power cut, by that pick.
fn cut_after(alloc: Global, steps: &[NvmCall], fails: &[u32], pick: u64) -> Result<MemNvm, Fail> {
    let mut memory = eight_bytes(alloc, fails, pick)?;
    for &step in steps {
        let _ = make(&mut memory, step);
    }
    memory.power_cycle()?;
    Ok(memory)
}

// These steps and then a power cut leave this image by the picks 0, 1 and 7.
fn check_images(
    rt: &impl Abort,
    alloc: Global,
    steps: &[NvmCall],
    fails: &[u32],
    images: [[u8; 8]; 3],
) -> Result<(), Fail> {
    for (i, pick) in [0u64, 1, 7].into_iter().enumerate() {
        let memory = cut_after(alloc, steps, fails, pick)?;
        assert_eq!(rt; memory.image(), images[i].as_slice(), "pick {pick}");
    }
    Ok(())
}

const BEGIN: [u8; 8] = [10, 11, 12, 13, 14, 15, 16, 17];

const FIRST: NvmCall = NvmCall::Write(2, [101, 102]);

const SECOND: NvmCall = NvmCall::Write(3, [111, 112]);

// Draws from state 7 give 94, 63, 49 and 145, in the order of the offsets.
#[test]
fn pick_gives_each_byte_that_is_not_settled(rt: HostRuntime) -> Result<(), Fail> {
    let alloc = rt.alloc();
    check_images(&rt, alloc, &[], &[], [BEGIN; 3])?;
    let one = [
        BEGIN,
        [10, 11, 101, 102, 14, 15, 16, 17],
        [10, 11, 94, 63, 14, 15, 16, 17],
    ];
    check_images(&rt, alloc, &[FIRST], &[], one)?;
    let two = [
        BEGIN,
        [10, 11, 101, 111, 112, 15, 16, 17],
        [10, 11, 94, 63, 49, 15, 16, 17],
    ];
    check_images(&rt, alloc, &[FIRST, SECOND], &[], two)?;
    let last_and_first = [NvmCall::Write(6, [101, 102]), NvmCall::Write(0, [111, 112])];
    let apart = [
        BEGIN,
        [111, 112, 12, 13, 14, 15, 101, 102],
        [94, 63, 12, 13, 14, 15, 49, 145],
    ];
    check_images(&rt, alloc, &last_and_first, &[], apart)
}

#[test]
fn failed_call_changes_nothing(rt: HostRuntime) -> Result<(), Fail> {
    let alloc = rt.alloc();
    let one = [
        BEGIN,
        [10, 11, 101, 102, 14, 15, 16, 17],
        [10, 11, 94, 63, 14, 15, 16, 17],
    ];
    check_images(&rt, alloc, &[FIRST, NvmCall::Sync], &[2], one)?;
    check_images(&rt, alloc, &[FIRST, SECOND], &[2], one)?;
    check_images(&rt, alloc, &[FIRST, NvmCall::Sync], &[1], [BEGIN; 3])
}

// What it keeps of past calls takes no memory.
#[test]
fn a_memory_takes_as_many_calls_as_there_are_numbers(rt: HostRuntime) -> Result<(), Fail> {
    let alloc = rt.alloc();
    let image = [1u8].to_vec(alloc)?;
    let mut many = MemNvm::new(alloc, image, u32::MAX, Vec::new(alloc), Vec::new(alloc), 0)?;
    assert_eq!(rt; write_settled(&mut many, 0, &[2]), Ok(()));
    assert_eq!(rt; many.image(), [2].as_slice());
    Ok(())
}

// A piece of three bytes and its gate over a stop in this call. Answers whether all was written.
fn gate_until(memory: &mut MemNvm, stop: u32) -> bool
    requires { length (memory_image memory.old) ≡ 8 }
{
    let mut fused = Fused::new(memory);
    fused.arm(stop);
    let written = write_gated(&mut fused, 2, &[101, 102, 103], 0, 0xA5);
    let whole = written.is_ok() && !fused.spent() && !fused.broken();
    let stopped = written.is_err() && fused.spent() && !fused.broken();
    fused.end();
    whole || !stopped
}

#[test]
fn stop_at_each_call_of_a_gated_piece(rt: HostRuntime) -> Result<(), Fail> {
    let piece = [10, 11, 101, 102, 103, 15, 16, 17];
    let all = [0xA5, 11, 101, 102, 103, 15, 16, 17];
    let in_piece = [BEGIN, piece, [10, 11, 94, 63, 49, 15, 16, 17]];
    let in_gate = [piece, all, [94, 11, 101, 102, 103, 15, 16, 17]];
    // An armed write is passed on, and an armed sync isn't.
    for (stop, images) in [
        (0, [all; 3]),
        (1, in_piece),
        (2, in_piece),
        (3, in_gate),
        (4, in_gate),
        (5, [all; 3]),
    ] {
        for (i, pick) in [0u64, 1, 7].into_iter().enumerate() {
            let mut memory = eight_bytes(rt.alloc(), &[], pick)?;
            let whole = gate_until(&mut memory, stop);
            assert_eq!(rt; whole, stop == 0 || stop == 5, "stop {stop}");
            assert_eq!(rt;
                memory.image(),
                images[i].as_slice(),
                "stop {stop}, pick {pick}"
            );
        }
    }
    Ok(())
}
