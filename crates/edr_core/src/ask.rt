//! A tick that is a time zero, while parts of it are missing.

ghost use Rattle.std.specs.Prelude.{◌≡◌, Some, None, is_some, IfOk, IfErr, IsSome, OnOk, OnErr, MatchOption, All};
ghost use Rattle.edr_items.specs.declared.Sensor.TheVariants.{Speed, Throttle};
ghost use Rattle.edr_items.specs.Sensor.{IsSlow};
ghost use Rattle.edr_record.specs.Bounds.{IsUpTo};
ghost use Rattle.edr_definitions.specs.Parts.{numbers, switch};
ghost use Rattle.edr_core.specs.Parts.{first_slot};
ghost use Rattle.edr_items.specs.PerSlowSensor.{first_without};
ghost use Rattle.edr_core.specs.Ask.{no_parts, part_at, with_part, IsTwice, HasTaken, IsWhyNotTaken, HasTakenThere, IsWhyNotThere, AreOfTheirSensors, IsKey, AreMade};

use crate::candidate::TickRow;
use crate::slots::{per_cents, speeds, switch_of, switches_of};
use edr_capture::Part;
use edr_detect::Change;
use edr_items::{PerSlowSensor, Restraints, Sensor};
use edr_record::{Key, LONG_SLOTS, Place, Pre, Slots};
use std::marker::Model;

/// Why a split core doesn't take a part.
#[derive(Clone, Copy, Debug, PartialEq, Eq)]
pub enum PartRefused {
    /// None is asked for.
    NotAsked,
    /// Those of another time zero are asked for.
    Zero { asked: u32 },
    /// That sensor's part was taken.
    Twice,
}

// The place of a sensor's part, and whether one was taken. Parts are large: where none was taken the last one still lies there.
#[derive(Drop)]
pub struct PartPlace {
    part: Part,
    is_taken: bool,
}

impl Model for PartPlace {
    ghost use Rattle.std.specs.Prelude.{Option, Some, None, if◌then◌else◌};
    ghost use Rattle.edr_capture.specs.SensorPart.{SensorPart};

    ghost Value = { Option SensorPart };

    ghost view = { λ p. if p.is_taken then Some p.part else None };
}

// The parts of a time zero that were taken.
pub type TakenParts = PerSlowSensor<PartPlace>;

// What was given of a time zero, what stands there, and its parts as far as they were taken.
#[derive(Drop)]
pub struct OpenAsk {
    pub row: TickRow,
    pub change: Change,
    pub parts: TakenParts,
}

// The place of an ask, and whether it is open. It stands as long as its core: to close it writes a byte.
#[derive(Drop)]
pub struct AskPlace {
    ask: OpenAsk,
    is_open: bool,
}

impl Model for AskPlace {
    ghost use Rattle.std.specs.Prelude.{Option, Some, None, if◌then◌else◌};
    ghost use Rattle.edr_core.specs.declared.ask.OpenAsk.{OpenAsk};

    ghost Value = { Option OpenAsk };

    ghost view = { λ a. if a.is_open then Some a.ask else None };
}

impl PartPlace {
    // No part was taken.
    fn empty() -> PartPlace
        ensures { result ≡ None }
    {
        PartPlace {
            part: Part {
                sensor: Sensor::Speed,
                zero: 0,
                slots: [None; LONG_SLOTS],
            },
            is_taken: false,
        }
    }

    // Whether a part was taken.
    fn is_some(&self) -> bool
        ensures { result ≡ is_some self.now }
    {
        self.is_taken
    }

    // The part that was taken.
    fn get(&self) -> Option<&Part>
        ensures { MatchOption result (self.now ≡ None) (λ part. self.now ≡ Some part.now) }
    {
        if self.is_taken {
            Some(&self.part)
        } else {
            None
        }
    }

    // Takes a part.
    fn put(&mut self, part: Part)
        ensures { self.new ≡ Some part }
    {
        self.part = part;
        self.is_taken = true;
    }

    // Lets the part go that was taken.
    fn clear(&mut self)
        ensures { self.new ≡ None }
    {
        self.is_taken = false;
    }
}

// No part of a time zero was taken.
fn no_parts() -> TakenParts
    ensures { result ≡ no_parts }
{
    PerSlowSensor {
        speed: PartPlace::empty(),
        throttle: PartPlace::empty(),
        brake: PartPlace::empty(),
        belt: PartPlace::empty(),
        lamp: PartPlace::empty(),
    }
}

// Lets the parts go that were taken.
fn clear(parts: &mut TakenParts)
    ensures { parts.new ≡ no_parts }
{
    parts.speed.clear();
    parts.throttle.clear();
    parts.brake.clear();
    parts.belt.clear();
    parts.lamp.clear();
}

/// Keeps what the samples of a slow sensor say of the time zero. A part that was taken is never replaced.
pub fn put(parts: &mut TakenParts, part: Part) -> Result<(), PartRefused>
    ensures ok { OnOk result ((part_at part.sensor parts.old ≡ None) × (parts.new ≡ with_part part parts.old)) }
    ensures err { OnErr result ((parts.new ≡ parts.old) × IsSome (part_at part.sensor parts.old)) }
    ensures why { IfErr result IsTwice }
{
    if let Some(place) = parts.of_mut(part.sensor) {
        if place.is_some() {
            return Err(PartRefused::Twice);
        }
        place.put(part);
    }
    Ok(())
}

// The slots of a speed part, in km/h.
fn speeds_of(part: &Part) -> [Option<u16>; LONG_SLOTS]
    requires { part.now.sensor ≡ Speed }
    ensures slots { result ≡ numbers part.now.slots }
    ensures bounded { All (IsUpTo 300) result }
{
    speeds(&part.slots)
}

// The slots of a throttle part, in per cent.
fn per_cents_of(part: &Part) -> [Option<u8>; LONG_SLOTS]
    requires { part.now.sensor ≡ Throttle }
    ensures slots { result ≡ numbers part.now.slots }
    ensures bounded { All (IsUpTo 100) result }
{
    per_cents(&part.slots)
}

// The one slot of a switch's part.
fn first_switch(part: &Part) -> Option<bool>
    ensures { result ≡ switch (first_slot part.now.slots) }
{
    switch_of(part.slots[0])
}

/// The pre part that they make, of the long profile, if all were taken; otherwise the first sensor, by its number, whose part is
/// missing. Its place is that of a first event until the event is confirmed.
pub fn pre_of(parts: &TakenParts, key: Key) -> Result<Pre, Sensor>
    requires sensors { AreOfTheirSensors parts.now }
    requires key { IsKey key }
    ensures made { IfOk result (AreMade parts.now key) }
    ensures missing { IfErr result (λ sensor. first_without parts.now ≡ Some sensor) }
{
    let Some(speed) = parts.speed.get() else {
        return Err(Sensor::Speed);
    };
    let Some(throttle) = parts.throttle.get() else {
        return Err(Sensor::Throttle);
    };
    let Some(brake) = parts.brake.get() else {
        return Err(Sensor::Brake);
    };
    let Some(belt) = parts.belt.get() else {
        return Err(Sensor::Belt);
    };
    let Some(lamp) = parts.lamp.get() else {
        return Err(Sensor::Lamp);
    };
    Ok(Pre {
        key,
        place: Place::First,
        slots: Slots::Long {
            speed: speeds_of(speed),
            throttle: per_cents_of(throttle),
            brake: switches_of(&brake.slots),
        },
        belt: first_switch(belt),
        lamp: first_switch(lamp),
    })
}

impl OpenAsk {
    /// Takes a part of the time zero `asked`, where it stands: what is asked for is large.
    pub fn take(&mut self, asked: u32, part: Part) -> Result<(), PartRefused>
        ensures ok { OnOk result (HasTaken asked part self.old self.new) }
        ensures err { OnErr result (self.new ≡ self.old) }
        ensures why { IfErr result (IsWhyNotTaken asked part self.old) }
        // Every part is of a slow sensor.
        ensures slow { IsSlow part.sensor }
    {
        if part.zero != asked {
            return Err(PartRefused::Zero { asked });
        }
        put(&mut self.parts, part)?;
        Ok(())
    }
}

impl AskPlace {
    // No ask is open. The places of the parts are cleared here, once for all asks.
    pub fn closed() -> AskPlace
        ensures { result ≡ None }
    {
        AskPlace {
            ask: OpenAsk {
                row: TickRow {
                    along: None,
                    across: None,
                    fired: Restraints(0),
                },
                change: Change {
                    zero: false,
                    confirmed: false,
                    locked: false,
                    ended: false,
                    dropped: false,
                    closed: false,
                },
                parts: no_parts(),
            },
            is_open: false,
        }
    }

    // Asks for the parts of a time zero, of which none was taken yet. It stands apart, since few ticks are a time zero.
    #[inline(never)]
    pub fn open(&mut self, row: TickRow, change: Change)
        ensures { self.new ≡ Some (record { row = row; change = change; parts = no_parts }) }
    {
        self.ask.row = row;
        self.ask.change = change;
        clear(&mut self.ask.parts);
        self.is_open = true;
    }

    // The ask, if one is open.
    pub fn get(&self) -> Option<&OpenAsk>
        ensures { MatchOption result (self.now ≡ None) (λ ask. self.now ≡ Some ask.now) }
    {
        if self.is_open { Some(&self.ask) } else { None }
    }

    /// Takes a part of the time zero `asked`, if it is asked for.
    pub fn take(&mut self, asked: u32, part: Part) -> Result<(), PartRefused>
        ensures ok { OnOk result (HasTakenThere asked part self.old self.new) }
        ensures err { OnErr result (self.new ≡ self.old) }
        ensures why { IfErr result (IsWhyNotThere asked part self.old) }
        ensures slow { IsSlow part.sensor }
    {
        if !self.is_open {
            return Err(PartRefused::NotAsked);
        }
        self.ask.take(asked, part)?;
        Ok(())
    }

    // Its parts are asked for no longer.
    pub fn close(&mut self)
        ensures { self.new ≡ None }
    {
        self.is_open = false;
    }
}
