//! Reports of a fleet: on one thread, and by two that have to meet.
use edr_fleet::{FleetRefused, Turn, fleet, fleet_alone};
use std::sync::atomic::{AtomicBool, Ordering};
use std::test::Fail;
use std::thread;

// Two frames of no bytes, and the report of these images.
const TWO_FRAMES: [u8; 8] = [0; 8];

const TWO_SHORT: &[u8] = b"image 1: short 0 of 96\nimage 2: short 0 of 96\nimages: 2\nevents: 0\n";

#[test]
fn one_thread_reports_whole_frames_alone(rt: HostRuntime) -> Result<(), Fail> {
    let text = fleet_alone(rt.alloc(), &TWO_FRAMES)?;
    assert_eq!(rt; text.as_slice(), TWO_SHORT);
    assert_eq!(rt;
        fleet_alone(rt.alloc(), &[0, 0, 0, 0, 0, 0, 0, 5, 1]).err(),
        Some(FleetRefused::Truncated { offset: 4 })
    );
    Ok(())
}

// A turn in which the pass of either of two images waits until that of the other has begun.
#[derive(Drop)]
struct Rendezvous {
    first: AtomicBool,
    second: AtomicBool,
    ran_out: AtomicBool,
}

impl Turn for Rendezvous {
    fn pass(&self, image: u32) {
        let (own, other) = if image == 1 {
            (&self.first, &self.second)
        } else {
            (&self.second, &self.first)
        };
        own.store(true, Ordering::SeqCst);
        for _ in 0..10_000_000 {
            if other.load(Ordering::SeqCst) {
                return;
            }
            thread::yield_now();
        }
        self.ran_out.store(true, Ordering::SeqCst);
    }
}

// Each pass waits for the other, so that they run at once: a report on one thread would wait in vain.
#[test]
fn second_image_passes(rt: HostRuntime) -> Result<(), Fail> {
    let meeting = Rendezvous {
        first: AtomicBool::new(false),
        second: AtomicBool::new(false),
        ran_out: AtomicBool::new(false),
    };
    let text = fleet(&rt, rt.alloc(), &TWO_FRAMES, 2, &meeting)?;
    assert!(rt; meeting.first.load(Ordering::SeqCst));
    assert!(rt; meeting.second.load(Ordering::SeqCst));
    assert!(rt; !meeting.ran_out.load(Ordering::SeqCst));
    assert_eq!(rt; text.as_slice(), TWO_SHORT);
    Ok(())
}
