//! What a reader sees in a thread of its own, beside the writer that shows what each command did.
ghost use Rattle.std.specs.Prelude.{◌≡◌, ◌≤◌, length};
ghost use Rattle.edr_device.specs.Memory.{memory_image};
ghost use Rattle.edr_image.specs.Image.{image_size};
ghost use Rattle.edr_live.specs.Ends.{opened_by, view_shown};
ghost use Rattle.edr_live.specs.Shown.{padded};

use crate::readers::{pre, take_and_show, zeros};
use edr_banks::{Banks, Choice, Command};
use edr_device::MemNvm;
use edr_live::{Live, LiveReader, LiveWriter, open};
use std::alloc::Global;
use std::sync::atomic::{AtomicU64, Ordering};
use std::sync::{Arc, Wait};
use std::test::Fail;
use std::thread;
use std::thread::Threads;

// How often a view had more commands than the one before, and how often one had fewer.
#[derive(Clone, Copy, Debug, PartialEq, Eq)]
struct ViewChanges {
    more: u32,
    fewer: u32,
}

// Reads until two commands are seen, and tells after each read how many they were.
fn watch_two<R: Wait>(rt: &R, reader: &mut LiveReader, seen: &AtomicU64) -> ViewChanges {
    let mut before = 0;
    let mut changes = ViewChanges { more: 0, fewer: 0 };
    for _ in rt.forever() {
        let Some(view) = reader.read() else { break };
        changes.more = changes
            .more
            .saturating_add(u32::from(view.applied > before));
        changes.fewer = changes
            .fewer
            .saturating_add(u32::from(view.applied < before));
        before = view.applied;
        seen.store(before, Ordering::SeqCst);
        if before >= 2 {
            break;
        }
    }
    changes
}

// Waits until one command was seen.
fn wait_for_one<R: Wait>(rt: &R, seen: &AtomicU64) {
    for _ in rt.forever() {
        if seen.load(Ordering::SeqCst) >= 1 {
            break;
        }
        thread::yield_now();
    }
}

// Takes and shows two commands, the second when the first was seen.
fn show_two<R: Wait>(
    rt: &R,
    writer: &mut LiveWriter,
    banks: &mut Banks,
    memory: &mut MemNvm,
    seen: &AtomicU64,
) -> Result<(), Fail>
    requires size { image_size banks.old.store.header.banks ≤ length (memory_image memory.old) }
    requires count { banks.old.store.header.banks ≡ (opened_by writer.old).banks }
    requires views { (view_shown writer.old).views ≡ padded 16 banks.old.store.banks }
{
    take_and_show(rt, writer, banks, memory, &Command::Take { pre: pre() })?;
    wait_for_one(rt, seen);
    take_and_show(rt, writer, banks, memory, &Command::Lock { pre: pre() })
}

// What a reader's thread hands back.
#[derive(Drop)]
struct Watched {
    reader: LiveReader,
    changes: ViewChanges,
}

fn watch<R: Wait>(reader: LiveReader, seen: Arc<AtomicU64>, rt: &R) -> Watched {
    let mut reader = reader;
    let changes = watch_two(rt, &mut reader, &seen);
    Watched { reader, changes }
}

// A reader's thread watches while two commands are shown. Where it can't be started, its closure runs here after both.
fn watch_beside<R: Threads + Wait + Copy + Send + 'static>(
    rt: &R,
    live: Live,
    banks: &mut Banks,
    memory: &mut MemNvm,
    seen: [Arc<AtomicU64>; 2],
) -> Result<ViewChanges, Fail>
    requires size { image_size banks.old.store.header.banks ≤ length (memory_image memory.old) }
    requires count { banks.old.store.header.banks ≡ (opened_by live.writer).banks }
    requires views { (view_shown live.writer).views ≡ padded 16 banks.old.store.banks }
{
    let Live { mut writer, reader } = live;
    let [ours, theirs] = seen;
    let inner = *rt;
    let child = thread::spawn(rt, move || -> Watched { watch(reader, theirs, &inner) });
    if child.is_err() {
        ours.store(1, Ordering::SeqCst);
    }
    let shown = show_two(rt, &mut writer, banks, memory, &ours);
    let watched = match child {
        Ok(child) => child.join(rt),
        Err(refused) => (refused.value)(),
    };
    let _ = writer.close(rt, watched.reader);
    shown?;
    Ok(watched.changes)
}

fn two_ends(alloc: Global) -> Result<[Arc<AtomicU64>; 2], Fail> {
    let ours = Arc::new(alloc, AtomicU64::new(0))?;
    let theirs = Arc::try_clone(&ours)?;
    Ok([ours, theirs])
}

#[test]
fn a_reader_sees_each_command_in_its_thread(rt: HostRuntime) -> Result<(), Fail> {
    let mut memory = zeros(rt.alloc(), 2_144)?;
    Banks::format(&mut memory, 2, Choice::Keep)?;
    let mut banks = Banks::open(rt.alloc(), &mut memory)?;
    let seen = two_ends(rt.alloc())?;
    let live = open(&rt, rt.alloc(), &banks)?;
    let changes = watch_beside(&rt, live, &mut banks, &mut memory, seen)?;
    assert_eq!(rt; changes, ViewChanges { more: 2, fewer: 0 });
    Ok(())
}
