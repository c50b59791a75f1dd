//! What a reader sees of the banks, beside the writer that shows what each command did.
ghost use Rattle.std.specs.Prelude.{◌≡◌, ◌≤◌, ◌<◌, ◌^◌, IfOk, length};
ghost use Rattle.edr_device.specs.Memory.{memory_image};
ghost use Rattle.edr_image.specs.Image.{image_size};
ghost use Rattle.edr_live.specs.Ends.{opened_by, view_shown};
ghost use Rattle.edr_live.specs.Shown.{padded};

use edr_banks::{BankView, Banks, Choice, Command};
use edr_device::MemNvm;
use edr_live::{Live, LiveReader, LiveView, LiveWriter, open};
use edr_record::{Key, LONG_SLOTS, Place, Pre, Slots};
use std::alloc::{AllocError, Global};
use std::sync::Wait;
use std::test::Fail;

// The pre part of an event of cycle 1.
pub(crate) fn pre() -> Pre {
    Pre {
        key: Key {
            cycle: 1,
            zero: 27_000,
        },
        place: Place::First,
        slots: Slots::Long {
            speed: [Some(50); LONG_SLOTS],
            throttle: [Some(20); LONG_SLOTS],
            brake: [Some(false); LONG_SLOTS],
        },
        belt: Some(true),
        lamp: Some(false),
    }
}

pub(crate) fn zeros(alloc: Global, size: usize) -> Result<MemNvm, AllocError>
    requires { size < 2 ^ 32 }
    ensures { IfOk result (λ m. length (memory_image m) ≡ size) }
{
    let image = vec![in alloc; 0u8; size]?;
    MemNvm::new(alloc, image, 60, Vec::new(alloc), Vec::new(alloc), 0)
}

// ---- what is seen

// How many commands a view has, how many events, and how many of these are locked.
#[derive(Clone, Copy, Debug, PartialEq, Eq)]
struct Sight {
    applied: u64,
    events: usize,
    locked: usize,
}

fn is_event(bank: &BankView) -> bool {
    matches!(bank, BankView::Event(_))
}

fn is_locked(bank: &BankView) -> bool {
    matches!(bank, BankView::Event(record) if record.locked)
}

fn seen_in(view: &LiveView) -> Sight {
    let events = view.views.iter().filter(|bank| is_event(bank));
    let locked = view.views.iter().filter(|bank| is_locked(bank));
    Sight {
        applied: view.applied,
        events: events.count(),
        locked: locked.count(),
    }
}

fn seen_of(view: Option<LiveView>) -> Option<Sight> {
    match view {
        Some(view) => Some(seen_in(&view)),
        None => None,
    }
}

fn seen_by(reader: &mut LiveReader) -> Option<Sight> {
    seen_of(reader.read())
}

// What a reader sees that is told of all that was shown.
fn seen_by_told(writer: &mut LiveWriter) -> Option<Sight> {
    let mut reader = writer.tell()?;
    seen_by(&mut reader)
}

fn seen(applied: u64, events: usize, locked: usize) -> Sight {
    Sight {
        applied,
        events,
        locked,
    }
}

// ---- in one thread

// Takes a command, and shows what came of it.
pub(crate) fn take_and_show<R: Wait>(
    rt: &R,
    writer: &mut LiveWriter,
    banks: &mut Banks,
    memory: &mut MemNvm,
    command: &Command,
) -> Result<(), Fail>
    requires size { image_size banks.old.store.header.banks ≤ length (memory_image memory.old) }
    requires count { banks.old.store.header.banks ≡ (opened_by writer.old).banks }
    requires views { (view_shown writer.old).views ≡ padded 16 banks.old.store.banks }
    ensures size { length (memory_image memory.new) ≡ length (memory_image memory.old) }
    ensures header { banks.new.store.header ≡ banks.old.store.header }
    ensures count { (opened_by writer.new).banks ≡ (opened_by writer.old).banks }
    ensures views { IfOk result (λ _. (view_shown writer.new).views ≡ padded 16 banks.new.store.banks) }
{
    // It tells that the list of banks is as long.
    let _count = banks.banks();
    let applied = banks.apply(memory, command)?;
    writer.show(rt, applied, banks)?;
    Ok(())
}

// What is seen at first, after a Take, after two Locks more, of which the second keeps nothing, and by a reader that is
// told then.
fn look_four_times<R: Wait>(
    rt: &R,
    writer: &mut LiveWriter,
    reader: &mut LiveReader,
    banks: &mut Banks,
    memory: &mut MemNvm,
) -> Result<[Option<Sight>; 4], Fail>
    requires size { image_size banks.old.store.header.banks ≤ length (memory_image memory.old) }
    requires count { banks.old.store.header.banks ≡ (opened_by writer.old).banks }
    requires views { (view_shown writer.old).views ≡ padded 16 banks.old.store.banks }
{
    let opened = seen_by(reader);
    take_and_show(rt, writer, banks, memory, &Command::Take { pre: pre() })?;
    let taken = seen_by(reader);
    take_and_show(rt, writer, banks, memory, &Command::Lock { pre: pre() })?;
    take_and_show(rt, writer, banks, memory, &Command::Lock { pre: pre() })?;
    let locked = seen_by(reader);
    let told = seen_by_told(writer);
    Ok([opened, taken, locked, told])
}

#[test]
fn a_reader_sees_each_command(rt: HostRuntime) -> Result<(), Fail> {
    let mut memory = zeros(rt.alloc(), 2_144)?;
    Banks::format(&mut memory, 2, Choice::Keep)?;
    let mut banks = Banks::open(rt.alloc(), &mut memory)?;
    let Live {
        mut writer,
        mut reader,
    } = open(&rt, rt.alloc(), &banks)?;
    let looks = look_four_times(&rt, &mut writer, &mut reader, &mut banks, &mut memory);
    let last = writer.close(&rt, reader);
    let [opened, taken, locked, told] = looks?;
    assert_eq!(rt; opened, Some(seen(0, 0, 0)));
    assert_eq!(rt; taken, Some(seen(1, 1, 0)));
    assert_eq!(rt; locked, Some(seen(3, 1, 1)));
    assert_eq!(rt; told, locked);
    assert_eq!(rt; last.banks, 2);
    assert_eq!(rt; seen_in(&last), seen(3, 1, 1));
    Ok(())
}
