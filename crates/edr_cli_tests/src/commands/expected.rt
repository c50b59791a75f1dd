//! What reports are to say, in text.

use std::alloc::{AllocError, Global};

// The record of a car that was struck from the front at 6.001 s for 100 ms, as version 1 kept it.
const OLD_EVENT: &str = "event: 1
bank: 1
ignition cycle, crash: 1
time zero: 6003 ms
multi-event, number of events: 1
time from event 1 to 2: none
deployment event: no
pre-crash profile: short
speed, km/h: 50 50 50 50 50 50 50 50 50 50 50
throttle, %: 20 20 20 20 20 20 20 20 20 20 20
service brake: off off off off off off off off off off off
driver belt: on
frontal air bag warning lamp: off
end of event: 115 ms
delta-V longitudinal, km/h: 0 -4 -8 -12 -16 -20 -24 -28 -32 -36 -39 -39 -39 -39 -39
delta-V lateral, km/h: 0 0 0 0 0 0 0 0 0 0 0 0 0 0 0
maximum delta-V longitudinal: -39 km/h at 97 ms
maximum delta-V lateral: 0 km/h at 0 ms
time of maximum resultant: 97 ms
ticks without sample: 0 longitudinal, 0 lateral
driver frontal deployment: none
passenger frontal deployment: none
driver side deployment: none
passenger side deployment: none
driver curtain deployment: none
passenger curtain deployment: none
driver pretensioner deployment: none
passenger pretensioner deployment: none
complete file recorded: yes
";

// How many slots a list has.
const SLOTS: usize = 201;

// A list whose slots all have this value.
fn slots(alloc: Global, value: &str) -> Result<String, AllocError> {
    let mut out = String::new(alloc);
    for slot in 0..SLOTS {
        if slot > 0 {
            out.push_str(" ")?;
        }
        out.push_str(value)?;
    }
    Ok(out)
}

/// The record of a car that is struck from the front at 26.001 s for 100 ms.
pub(crate) fn struck_event(alloc: Global) -> Result<String, AllocError> {
    let speed = slots(alloc, "50")?;
    let throttle = slots(alloc, "20")?;
    let brake = slots(alloc, "off")?;
    let changes = [
        ("time zero", "26003 ms"),
        ("pre-crash profile", "long"),
        ("speed, km/h", &speed),
        ("throttle, %", &throttle),
        ("service brake", &brake),
    ];
    changed(alloc, OLD_EVENT, &changes)
}

// What the record of a car says whose pretensioner fires at 27 s, and that nothing strikes.
const TENSED: [(&str, &str); 8] = [
    ("time zero", "27000 ms"),
    ("end of event", "20 ms"),
    ("delta-V longitudinal, km/h", "0 0 0 0 0 0"),
    ("delta-V lateral, km/h", "0 0 0 0 0 0"),
    ("maximum delta-V longitudinal", "0 km/h at 0 ms"),
    ("maximum delta-V lateral", "0 km/h at 0 ms"),
    ("time of maximum resultant", "0 ms"),
    ("driver pretensioner deployment", "0 ms"),
];

/// The record of a car whose pretensioner fires at 27 s, and that nothing strikes, with these other values.
pub(crate) fn tensed_event(alloc: Global, changes: &[(&str, &str)]) -> Result<String, AllocError> {
    let tensed = changed(alloc, &struck_event(alloc)?, &TENSED)?;
    changed(alloc, &tensed, changes)
}

/// What a record says whose event was not done.
pub(crate) const NOT_DONE: [(&str, &str); 16] = [
    ("end of event", "none"),
    ("delta-V longitudinal, km/h", "none"),
    ("delta-V lateral, km/h", "none"),
    ("maximum delta-V longitudinal", "none"),
    ("maximum delta-V lateral", "none"),
    ("time of maximum resultant", "none"),
    ("ticks without sample", "none"),
    ("driver frontal deployment", "none"),
    ("passenger frontal deployment", "none"),
    ("driver side deployment", "none"),
    ("passenger side deployment", "none"),
    ("driver curtain deployment", "none"),
    ("passenger curtain deployment", "none"),
    ("driver pretensioner deployment", "none"),
    ("passenger pretensioner deployment", "none"),
    ("complete file recorded", "no"),
];

/// The lines of the first cycle in which an air bag fires at 27 s.
pub(crate) const DEPLOYED_CYCLE: &str = "cycle 1: number 1, power off
cycle 1 take at 27000: bank 1
cycle 1 lock at 27000: bank 1
cycle 1 done at 27050: bank 1
";

/// The last line after one cycle.
pub(crate) const COUNTED_ONE: &str = "ignition cycle, download: 1\n";

/// The lines of the first two cycles in which a pretensioner fires.
pub(crate) const TENSED_TWICE: &str = "cycle 1: number 1, power off
cycle 1 take at 27000: bank 1
cycle 1 done at 27050: bank 1
cycle 2: number 2, power off
cycle 2 take at 27000: bank 2
cycle 2 done at 27050: bank 2
";

/// The lines of a text, of which those with these names have other values.
pub(crate) fn changed(
    alloc: Global,
    text: &str,
    changes: &[(&str, &str)],
) -> Result<String, AllocError> {
    let mut out = String::new(alloc);
    for line in text.lines() {
        let Some((name, value)) = line.split_once(": ") else {
            continue;
        };
        let value = match changes.iter().find(|c| c.0 == name) {
            Some((_, other)) => other,
            None => value,
        };
        for piece in [name, ": ", value, "\n"] {
            out.push_str(piece)?;
        }
    }
    Ok(out)
}

/// These texts, one after the other.
pub(crate) fn joined(alloc: Global, texts: &[&str]) -> Result<String, AllocError> {
    let mut out = String::new(alloc);
    for text in texts {
        out.push_str(text)?;
    }
    Ok(out)
}

// What the record of an air bag at its time zero says.
const FIRED_BAG: [(&str, &str); 3] = [
    ("deployment event", "yes"),
    ("driver frontal deployment", "0 ms"),
    ("driver pretensioner deployment", "none"),
];

/// The record of a car whose air bag fires at 27 s.
pub(crate) fn bag_event(alloc: Global) -> Result<String, AllocError> {
    tensed_event(alloc, &FIRED_BAG)
}
