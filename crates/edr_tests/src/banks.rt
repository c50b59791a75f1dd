//! Commands that make no read: the device fails each read after the opening.
ghost use Rattle.std.specs.Prelude.{◌≡◌, ◌≤◌, ◌<◌, ◌^◌, IfOk, length};
ghost use Rattle.edr_device.specs.Memory.{memory_image};
ghost use Rattle.edr_image.specs.Image.{image_size};

use edr_banks::{ApplyFault, Banks, Choice, Command, OpenFault};
use edr_codec::read_crash;
use edr_device::MemNvm;
use edr_record::{Crash, Key, LONG_SLOTS, Place, Pre, Slots};
use std::alloc::{AllocError, Global};
use std::test::Fail;

// The pre part of an event of cycle 1, 2 or 3.
fn pre(cycle: u32) -> Pre
    requires from { 1 ≤ cycle }
    requires to { cycle ≤ 3 }
{
    Pre {
        key: Key {
            cycle,
            zero: 27_000,
        },
        place: Place::First,
        slots: Slots::Long {
            speed: [Some(50); LONG_SLOTS],
            throttle: [Some(20); LONG_SLOTS],
            brake: [Some(false); LONG_SLOTS],
        },
        belt: Some(true),
        lamp: Some(false),
    }
}

// A crash part that ends at 20 ms, without any change of speed.
fn crash() -> Result<Crash, Fail> {
    let mut bytes = [0; 160];
    bytes[1] = 20;
    bytes[120..136].copy_from_slice(&[0xff; 16]);
    Ok(read_crash(&bytes)?)
}

// A memory of zeros, in which these reads fail.
fn zeros(alloc: Global, size: usize, read_fails: &[u32]) -> Result<MemNvm, AllocError>
    requires { size < 2 ^ 32 }
    ensures { IfOk result (λ m. length (memory_image m) ≡ size) }
{
    let image = vec![in alloc; 0u8; size]?;
    let read_fails = read_fails.to_vec(alloc)?;
    MemNvm::new(alloc, image, 60, Vec::new(alloc), read_fails, 0)
}

// An event is taken, locked and done.
fn keep_locked(
    banks: &mut Banks,
    memory: &mut MemNvm,
    cycle: u32,
    crash: Crash,
) -> Result<(), ApplyFault>
    requires from { 1 ≤ cycle }
    requires to { cycle ≤ 3 }
    requires room { image_size banks.old.store.header.banks ≤ length (memory_image memory.old) }
    ensures header { banks.new.store.header ≡ banks.old.store.header }
    ensures size { length (memory_image memory.new) ≡ length (memory_image memory.old) }
{
    banks.apply(memory, &Command::Take { pre: pre(cycle) })?;
    banks.apply(memory, &Command::Lock { pre: pre(cycle) })?;
    banks.apply(memory, &Command::Done { crash })?;
    Ok(())
}

// Three events after each other, of three cycles.
fn keep_three(banks: &mut Banks, memory: &mut MemNvm) -> Result<(), Fail>
    requires { image_size banks.old.store.header.banks ≤ length (memory_image memory.old) }
{
    let crash = crash()?;
    keep_locked(banks, memory, 1, crash)?;
    keep_locked(banks, memory, 2, crash)?;
    keep_locked(banks, memory, 3, crash)?;
    Ok(())
}

// The formatting reads once, and the opening three times.
#[test]
fn commands_make_no_read(rt: HostRuntime) -> Result<(), Fail> {
    let mut memory = zeros(rt.alloc(), 2_144, &[5, 6, 7, 8, 9, 10])?;
    Banks::format(&mut memory, 2, Choice::Overwrite)?;
    let mut banks = Banks::open(rt.alloc(), &mut memory)?;
    keep_three(&mut banks, &mut memory)?;
    assert_eq!(rt; banks.retrieve(rt.alloc())?.len(), 2);
    let unread = Banks::open(rt.alloc(), &mut memory).err();
    assert_eq!(rt; unread, Some(OpenFault::StoreFault));
    Ok(())
}
