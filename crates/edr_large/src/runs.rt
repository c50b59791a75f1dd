//! The run over a memory in memory. Its calls don't fail; a fault of it would be told as want of memory.
ghost use Rattle.std.specs.Prelude.{◌≡◌, ◌<◌, ◌^◌, [], Some, length, IfOk};
ghost use Rattle.edr_device.specs.Memory.{memory_image, memory_state, new_memory};
ghost use Rattle.edr_image.specs.Banks.{retrieved_banks};
ghost use Rattle.edr_image.specs.Image.{view_of};
ghost use Rattle.edr_items.specs.SensorLists.{AreFeeds, IsLevel};
ghost use Rattle.edr_large.specs.Large.{HasCounted, HasRunOver, OfImage, new_store};

use crate::rows::rows_of;
use edr_banks::{Banks, Choice};
use edr_cycle::{run_alone, start};
use edr_device::{MemNvm, Nvm};
use edr_gen::Generator;
use edr_image::places::{LARGEST_IMAGE, MOST_BANKS};
use edr_image::{Ack, Found};
use edr_items::Feeds;
use std::alloc::{AllocError as OutOfMemory, Global};

// As many changing calls as a cycle never makes.
const CALLS: u32 = 100_000_000;

// A memory with this image, whose calls don't fail.
fn memory_of(alloc: Global, image: Vec<u8>) -> Result<MemNvm, OutOfMemory>
    requires { length image.items < 2 ^ 32 }
    ensures { IfOk result (λ m. memory_state m ≡ new_memory image.items CALLS [] [] 1) }
{
    MemNvm::new(alloc, image, CALLS, Vec::new(alloc), Vec::new(alloc), 1)
}

// The bytes that a memory has.
fn image_of(alloc: Global, memory: &MemNvm) -> Result<Vec<u8>, OutOfMemory>
    ensures { IfOk result (λ image. image.items ≡ memory_image memory.now) }
{
    memory.image().to_vec(alloc)
}

// The image of 16 void banks.
fn new_image(alloc: Global) -> Result<Vec<u8>, OutOfMemory>
    ensures size { IfOk result (λ image. length image.items ≡ LARGEST_IMAGE) }
    ensures says { IfOk result (λ image. view_of image.items ≡ Some (record { store = new_store; count = 0 })) }
{
    let mut memory = memory_of(alloc, vec![in alloc; 0u8; LARGEST_IMAGE]?)?;
    match Banks::format(&mut memory, MOST_BANKS, Choice::Overwrite) {
        Ok(()) => image_of(alloc, &memory),
        Err(_) => Err(OutOfMemory),
    }
}

// Runs a cycle over an image to its end, and notes what it acknowledged.
fn run_cycle(
    alloc: Global,
    image: Vec<u8>,
    feeds: &Feeds,
    acks: &mut Vec<Ack>,
) -> Result<Vec<u8>, OutOfMemory>
    requires size { length image.items < 2 ^ 32 }
    requires feeds { AreFeeds feeds.now }
    requires level { IsLevel feeds.now }
    ensures size { IfOk result (λ now. length now.items ≡ length image.items) }
    ensures ran { IfOk result (λ now. HasRunOver feeds.now image.items acks.old.items acks.new.items now.items) }
{
    let mut memory = memory_of(alloc, image)?;
    let Ok(started) = start(alloc, &mut memory, feeds.horizon()) else {
        return Err(OutOfMemory);
    };
    let end = run_alone(started, feeds, &mut memory);
    // A power cycle of a memory in memory never fails.
    let _off = memory.power_cycle();
    acks.extend_from_slice(end.log.acks())?;
    image_of(alloc, &memory)
}

/// What the cycles of a number leave.
#[derive(Drop)]
pub(crate) struct Run {
    pub(crate) image: Vec<u8>,
    pub(crate) acks: Vec<Ack>,
    pub(crate) rows: u64,
}

/// Runs that many cycles of the number, one after the other.
pub(crate) fn run_cycles(alloc: Global, number: u64, cycles: u32) -> Result<Run, OutOfMemory>
    ensures size { IfOk result (λ r. length r.image.items < 2 ^ 32) }
    ensures ran { IfOk result (λ r. HasCounted number cycles r.rows r.acks.items r.image.items) }
{
    let mut generator = Generator::new(number);
    let mut image = new_image(alloc)?;
    let mut acks = Vec::new(alloc);
    let mut rows = 0;
    for _done in 0..cycles {
        let cycle = generator.next_cycle(alloc)?;
        rows += rows_of(&cycle.feeds);
        image = run_cycle(alloc, image, &cycle.feeds, &mut acks)?;
    }
    Ok(Run { image, acks, rows })
}

/// What is found in the banks of an image.
pub(crate) fn found_in(alloc: Global, image: Vec<u8>) -> Result<Vec<Found>, OutOfMemory>
    requires { length image.items < 2 ^ 32 }
    ensures { IfOk result (λ found. OfImage image.items (λ v n. found.items ≡ retrieved_banks v.banks)) }
{
    let mut memory = memory_of(alloc, image)?;
    match Banks::open(alloc, &mut memory) {
        Ok(banks) => banks.retrieve(alloc),
        Err(_) => Err(OutOfMemory),
    }
}
