//! The traces of drives: a car at 50 km/h with a sample of both axes in each millisecond.

use std::alloc::{AllocError, Global};

/// An ignition cycle of that many ticks, in which the car may be struck from the front at 26.001 s, for 100 ms; restraints fire at
/// some ticks; and the power is cut in the changing call `stop` of its commands, or at the end.
#[derive(Clone, Copy)]
pub(crate) struct Drive<'a> {
    pub(crate) ticks: u32,
    pub(crate) is_struck: bool,
    pub(crate) fired: &'a [(u32, i32)],
    pub(crate) stop: u32,
}

/// A drive in which nothing happens.
pub(crate) const fn quiet(ticks: u32) -> Drive<'static> {
    Drive {
        ticks,
        is_struck: false,
        fired: &[],
        stop: 0,
    }
}

/// A drive in which the car is struck from the front.
pub(crate) const fn struck(ticks: u32) -> Drive<'static> {
    Drive {
        ticks,
        is_struck: true,
        fired: &[],
        stop: 0,
    }
}

/// A drive in which a pretensioner fires at 27 s.
pub(crate) const TENSED: Drive<'static> = Drive {
    ticks: 28_000,
    is_struck: false,
    fired: &[(27_000, 64)],
    stop: 0,
};

/// A drive in which an air bag fires at 27 s.
pub(crate) const DEPLOYED: Drive<'static> = Drive {
    ticks: 28_000,
    is_struck: false,
    fired: &[(27_000, 1)],
    stop: 0,
};

fn push_row(trace: &mut String, sensor: &str, tick: u32, value: i32) -> Result<(), AllocError> {
    write!(trace, "{sensor},{tick},{value}\n")
}

// What is sampled in each millisecond.
fn push_axes(trace: &mut String, drive: Drive<'_>, tick: u32) -> Result<(), AllocError> {
    let is_struck = drive.is_struck && 26_001 <= tick && tick <= 26_100;
    push_row(trace, "along", tick, if is_struck { -4000 } else { 0 })?;
    push_row(trace, "across", tick, 0)
}

// What is sampled ten times a second.
fn push_slow(trace: &mut String, tick: u32) -> Result<(), AllocError> {
    for (sensor, value) in [
        ("speed", 50),
        ("throttle", 20),
        ("brake", 0),
        ("belt", 1),
        ("lamp", 0),
    ] {
        push_row(trace, sensor, tick, value)?;
    }
    Ok(())
}

// A firing, or a silent row each second and at the end.
fn push_restraint(trace: &mut String, drive: Drive<'_>, tick: u32) -> Result<(), AllocError> {
    match drive.fired.iter().find(|f| f.0 == tick) {
        Some((_, bits)) => push_row(trace, "restraint", tick, *bits),
        None if tick % 1000 == 0 || tick == drive.ticks => write!(trace, "restraint,{tick},\n"),
        None => Ok(()),
    }
}

// The rows of a tick, by sensor.
fn push_tick(trace: &mut String, drive: Drive<'_>, tick: u32) -> Result<(), AllocError> {
    push_axes(trace, drive, tick)?;
    if tick % 100 == 0 {
        push_slow(trace, tick)?;
    }
    push_restraint(trace, drive, tick)
}

/// Appends the rows of an ignition cycle, by tick and then by sensor.
pub(crate) fn push_drive(trace: &mut String, drive: Drive<'_>) -> Result<(), AllocError> {
    trace.push_str("on,0,\n")?;
    for tick in 1..=drive.ticks {
        push_tick(trace, drive, tick)?;
    }
    write!(trace, "cut,{},\n", drive.stop)
}

/// The trace of these ignition cycles.
pub(crate) fn trace_of(alloc: Global, drives: &[Drive<'_>]) -> Result<String, AllocError> {
    let mut trace = String::new(alloc);
    for drive in drives {
        push_drive(&mut trace, *drive)?;
    }
    Ok(trace)
}
