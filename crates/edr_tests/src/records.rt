//! When a record is complete.

use edr_record::{
    Crash, Extreme, Key, LONG_SLOTS, Place, Pre, Profile, Record, SHORT_SLOTS, Slots,
};

// Slots of both profiles, none of which is absent.
const SHORT: Slots = Slots::Short {
    speed: [Some(50); SHORT_SLOTS],
    throttle: [Some(20); SHORT_SLOTS],
    brake: [Some(false); SHORT_SLOTS],
};

const LONG: Slots = Slots::Long {
    speed: [Some(50); LONG_SLOTS],
    throttle: [Some(20); LONG_SLOTS],
    brake: [Some(false); LONG_SLOTS],
};

// A record with every element.
fn whole() -> Record {
    Record {
        pre: Pre {
            key: Key {
                cycle: 1,
                zero: 26_003,
            },
            place: Place::First,
            slots: LONG,
            belt: Some(true),
            lamp: Some(false),
        },
        locked: false,
        crash: Some(Crash {
            end: 20,
            along: [0; 26],
            across: [0; 26],
            max_along: Extreme { kmh: 0, at: 0 },
            max_across: Extreme { kmh: 0, at: 0 },
            result_at: 0,
            missing_along: 0,
            missing_across: 0,
            fired: [None; 8],
        }),
    }
}

#[test]
fn a_record_is_complete_with_every_element(rt: HostRuntime) {
    assert!(rt; whole().complete());
    let mut unended = whole();
    unended.crash = None;
    assert!(rt; !unended.complete());
    let mut without_lamp = whole();
    without_lamp.pre.lamp = None;
    assert!(rt; !without_lamp.complete());
}

#[test]
fn a_record_is_complete_with_all_slots_of_its_profile(rt: HostRuntime) {
    let mut short = whole();
    short.pre.slots = SHORT;
    assert!(rt; short.complete());
    assert!(rt; short.pre.profile() == Profile::Short && short.pre.brake().len() == 11);
    let mut long = whole();
    assert!(rt; long.pre.profile() == Profile::Long && long.pre.speed().len() == 201);
    long.pre.slots = Slots::Long {
        speed: [None; LONG_SLOTS],
        throttle: [Some(20); LONG_SLOTS],
        brake: [Some(false); LONG_SLOTS],
    };
    assert!(rt; !long.complete());
}
