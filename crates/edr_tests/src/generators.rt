use edr_device::MemSink;
use edr_gen::{Generator, TICKS, generate, generate_into};
use edr_items::{Feeds, Sensor};
use edr_spell::CycleInput;
use std::alloc::Global;
use std::process::Abort;
use std::test::Fail;

#[test]
fn a_trace_is_the_same_in_whatever_pieces_it_goes_out(rt: HostRuntime) -> Result<(), Fail> {
    let alloc = rt.alloc();
    let whole = generate_into(alloc, 1, 1)?;
    let mut sink = MemSink::new(alloc, 600_000, 1_000, Vec::new(alloc))?;
    assert_eq!(rt; generate(1, 1, &mut sink), Ok(()));
    assert!(rt; sink.bytes() == whole.as_slice());
    Ok(())
}

// How many items three of the sensors have in the first cycle.
fn check_items(rt: &impl Abort, feeds: &Feeds) {
    assert_eq!(rt; feeds.of(Sensor::Along).len(), 18_000);
    assert_eq!(rt; feeds.of(Sensor::Lamp).len(), 180);
    assert_eq!(rt; feeds.of(Sensor::Restraint).len(), 19);
}

// A cycle of 18 s, which is cut in this call of its commands or not at all.
fn check_cycle(rt: &impl Abort, cycle: &CycleInput, stop: u32) {
    assert_eq!(rt; cycle.feeds.horizon(), TICKS);
    assert_eq!(rt; (cycle.start_stop, cycle.stop), (0, stop));
}

fn check_first(rt: &impl Abort, alloc: Global, generator: &mut Generator) -> Result<(), Fail> {
    let first = generator.next_cycle(alloc)?;
    check_items(rt, &first.feeds);
    check_cycle(rt, &first, 0);
    Ok(())
}

fn check_second(rt: &impl Abort, alloc: Global, generator: &mut Generator) -> Result<(), Fail> {
    let second = generator.next_cycle(alloc)?;
    check_cycle(rt, &second, 8);
    Ok(())
}

#[test]
fn cycles_are_those_of_the_trace(rt: HostRuntime) -> Result<(), Fail> {
    let mut generator = Generator::new(1);
    check_first(&rt, rt.alloc(), &mut generator)?;
    check_second(&rt, rt.alloc(), &mut generator)
}
