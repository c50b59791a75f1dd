//! A migration whose last call fails.
ghost use Rattle.std.specs.Prelude.{◌≡◌, IfOk, length};
ghost use Rattle.edr_device.specs.Memory.{memory_image};

use edr_device::{MemNvm, Nvm};
use edr_migrate::{MigrateFault, migrate};
use std::alloc::{AllocError, Global};
use std::test::Fail;

// The pre part of an event in version 1, up to its zeros.
const PRE: [u8; 58] = [
    0, 0, 0, 1, 0, 0, 0x17, 0x73, 1, 0, 0, 0, // key and place
    0, 50, 0, 50, 0, 50, 0, 50, 0, 50, 0, 50, 0, 50, 0, 50, 0, 50, 0, 50, 0, 50, // speed
    20, 20, 20, 20, 20, 20, 20, 20, 20, 20, 20, // throttle
    0, 0, 0, 0, 0, 0, 0, 0, 0, 0, 0, // brake
    1, 0, // belt and lamp
];

// The changes along of its crash part, every ten ticks.
const ALONG: [i16; 15] = [
    0, -4, -8, -12, -16, -20, -24, -28, -32, -36, -39, -39, -39, -39, -39,
];

// The 136 bytes of its crash part, of which none are zeros that a version has after them.
fn crash() -> [u8; 136] {
    let mut bytes = [0; 136];
    bytes[1] = 115;
    for k in 0..15 {
        bytes[2 + 2 * k..4 + 2 * k].copy_from_slice(&ALONG[k].to_be_bytes());
    }
    bytes[106..110].copy_from_slice(&[0xff, 0xd9, 0, 97]);
    bytes[115] = 97;
    bytes[120..].fill(0xff);
    bytes
}

// An image of version 1 with two banks, the first of which holds an event, and the count 1.
fn old_image() -> [u8; 1_120] {
    let mut old = [0; 1_120];
    old[..12].copy_from_slice(b"EDRIMAGE\0\x01\x02\0");
    old[32] = 0xa5;
    old[39] = 1;
    old[96] = 0xa5;
    old[98] = 0xa5;
    old[112..170].copy_from_slice(&PRE);
    old[272..408].copy_from_slice(&crash());
    old
}

// A memory of zeros that takes 60 writes and syncs, of which some fail.
fn zeros(alloc: Global, fails: &[u32]) -> Result<MemNvm, AllocError>
    ensures { IfOk result (λ m. length (memory_image m) ≡ 2144) }
{
    let image = vec![in alloc; 0u8; 2_144]?;
    let memory = MemNvm::new(alloc, image, 60, fails.to_vec(alloc)?, Vec::new(alloc), 0)?;
    Ok(memory)
}

#[test]
fn the_last_call_fails(rt: HostRuntime) -> Result<(), Fail> {
    let mut memory = zeros(rt.alloc(), &[6])?;
    assert_eq!(rt;
        migrate(&mut memory, &old_image()),
        Err(MigrateFault::StoreFault)
    );
    memory.power_cycle()?;
    assert_eq!(rt; memory.image()[0], 0);
    Ok(())
}
