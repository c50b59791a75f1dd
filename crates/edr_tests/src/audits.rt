//! The verdicts of an audit: on starts that are stopped, and on an event, over an image of two banks.

ghost use Rattle.std.specs.Prelude.{◌+◌, ◌≤◌, length};

use edr_audit::{Difference, Verdict, audit};
use edr_image::places::OPEN_GATE;
use std::process::Abort;
use std::test::Fail;

// How many bytes an image of two banks has.
const SIZE: usize = 2_144;

// An image of two void banks with this count.
fn image_of(count: u8) -> [u8; SIZE] {
    let mut image = [0; SIZE];
    image[..11].copy_from_slice(b"EDRIMAGE\x00\x02\x02".as_slice());
    image[32] = OPEN_GATE;
    image[39] = count;
    image
}

// Puts bytes into an image.
fn put(image: &mut [u8; SIZE], at: usize, bytes: &[u8])
    requires { at + length bytes.now ≤ 2_144 }
{
    image[at..at + bytes.len()].copy_from_slice(bytes);
}

// The image after a cycle with the event of the impulse below.
fn image_of_impulse() -> [u8; SIZE] {
    let mut image = image_of(1);
    put(&mut image, 96, &[OPEN_GATE, 0, OPEN_GATE]);
    put(&mut image, 115, &[1, 0, 0, 0, 1, 1, 2]);
    put(&mut image, 124, &[255; 806]);
    put(&mut image, 961, &[21]);
    put(&mut image, 964, b"\xff\xfc\xff\xfc\xff\xfc\xff\xfc\xff\xfc");
    put(&mut image, 1_066, &[255, 252, 0, 1]);
    put(&mut image, 1_074, &[0, 1, 0, 50, 0, 51]);
    put(&mut image, 1_080, &[255; 16]);
    image
}

const IMPULSE: &str =
    "on,0,\nalong,1,-40000\nalong,2,-40000\nalong,1000,\nacross,1000,\nspeed,1000,\nthrottle,1000,\nbrake,1000,\nbelt,1000,\nlamp,1000,\nrestraint,1000,\ncut,0,\n";

const BEGUN: &str =
    "cycle 1: number 1, power off\ncycle 1 take at 2: bank 1\ncycle 1 done at 52: bank 1\nevent: 1\nbank: 1\nignition cycle, crash: 1\ntime zero: 1 ms\nmulti-event, number of events: 1\ntime from event 1 to 2: none\ndeployment event: no\npre-crash profile: long\nspeed, km/h: none none";

// Audits a trace over an image with the count 0.
fn check<R: Abort + AllocGlobal>(
    rt: &R,
    trace: &str,
    after: &[u8; SIZE],
    report: &str,
    verdict: Verdict,
) -> Result<(), Fail>
    requires trace { length trace.now ≤ 1_000 }
    requires report { length report.now ≤ 1_000 }
{
    let before = image_of(0);
    let answer = audit(
        rt.alloc(),
        &before,
        trace.as_bytes(),
        after.as_slice(),
        report.as_bytes(),
    )?;
    assert_eq!(rt; answer, verdict);
    Ok(())
}

const STOPPED: &str = "on,5,\n";

const NOT_COUNTED: &str = "cycle 1: start stopped in call 5\nignition cycle, download: 0\n";

const COUNTED: &str = "cycle 1: start stopped in call 5\nignition cycle, download: 1\n";

#[test]
fn both_ends_of_a_stopped_start_agree(rt: HostRuntime) -> Result<(), Fail> {
    check(&rt, STOPPED, &image_of(0), NOT_COUNTED, Verdict::Agrees)?;
    check(&rt, STOPPED, &image_of(1), COUNTED, Verdict::Agrees)
}

#[test]
fn the_first_difference_is_told(rt: HostRuntime) -> Result<(), Fail> {
    let at = |offset| Verdict::Differs(Difference::Report { offset });
    check(&rt, STOPPED, &image_of(1), NOT_COUNTED, at(59))?;
    check(&rt, STOPPED, &image_of(0), "", at(0))?;
    let longer = "cycle 1: start stopped in call 5\nignition cycle, download: 0\n\n";
    check(&rt, STOPPED, &image_of(0), longer, at(61))?;
    let run = Verdict::Differs(Difference::Run);
    check(&rt, STOPPED, &image_of(2), COUNTED, run)?;
    let row = Verdict::Differs(Difference::Trace { row: 2 });
    check(&rt, "on,5,\non,7,\n", &image_of(0), NOT_COUNTED, row)
}

#[test]
fn nine_stops_are_too_many(rt: HostRuntime) -> Result<(), Fail> {
    let nine = "on,5,\non,5,\non,5,\non,5,\non,5,\non,5,\non,5,\non,5,\non,5,\n";
    let stops = Verdict::Differs(Difference::Stops { found: 9 });
    check(&rt, nine, &image_of(0), NOT_COUNTED, stops)
}

#[test]
fn images_that_are_none_are_told(rt: HostRuntime) -> Result<(), Fail> {
    let image = image_of(0);
    let alloc = rt.alloc();
    let none = audit(alloc, &[], b"", &image, b"")?;
    assert_eq!(rt; none, Verdict::Differs(Difference::Before));
    let none = audit(alloc, &image, b"", &image[..2_143], b"")?;
    assert_eq!(rt; none, Verdict::Differs(Difference::After));
    Ok(())
}

#[test]
fn an_event_is_found_held_and_printed(rt: HostRuntime) -> Result<(), Fail> {
    let begun = Verdict::Differs(Difference::Report {
        offset: BEGUN.len() as u32,
    });
    check(&rt, IMPULSE, &image_of_impulse(), BEGUN, begun)?;
    let run = Verdict::Differs(Difference::Run);
    check(&rt, IMPULSE, &image_of(1), BEGUN, run)
}
