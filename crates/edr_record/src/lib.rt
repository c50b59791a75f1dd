//! The record of an event: what stood before time zero, what came after it, and whether it is locked.
#![tactic(auto)]

ghost use Rattle.std.specs.Prelude.{◌≡◌, is_some};
ghost use Rattle.std.specs.List.{list_all};
ghost use Rattle.edr_record.specs.Bounds.{point_count, window_from_end};

use std::marker::Model;

/// How many slots a list of a short pre part has, which a recorder of version 1 made.
pub const SHORT_SLOTS: usize = 11;

/// How many slots a list of a long pre part has, which this recorder makes.
pub const LONG_SLOTS: usize = 201;

/// How far apart two slots of a long pre part are that follow one another, in milliseconds.
pub const SLOT_STEP: u32 = 100;

/// How far before time zero the first slot of a long pre part lies, in milliseconds. The last one lies at time zero.
pub const SLOT_REACH: u32 = SLOT_STEP * (LONG_SLOTS as u32 - 1);

/// How far before time zero the slot of belt and lamp lies, which have one each, in milliseconds.
pub const SINGLE_REACH: u32 = 1_000;

/// How far apart the time zeros of a pair of events may be, in milliseconds.
pub const LONGEST_PAIR: u32 = 5_000;

/// How long after time zero an event ends at the earliest, in milliseconds.
pub const EARLIEST_END: u16 = 20;

/// How long after time zero an event ends at the latest, in milliseconds: the search for one is reset there.
pub const RESET: u16 = 500;

/// How long after time zero extremes and missing samples are looked for at the most, in milliseconds.
pub const LONGEST_WINDOW: u16 = 300;

/// The greatest change of speed that samples in range can give, in km/h.
pub const GREATEST_CHANGE: u32 = 3_000;

/// How far past its end the points of an event go on, and the window in which extremes are looked for, in milliseconds.
pub const TIME_PAST_END: u16 = 30;

/// How far apart two points of an axis are that follow one another, in milliseconds. The first one lies at time zero.
pub const POINT_STEP: u16 = 10;

/// How long after time zero the last point of an axis lies at the most, in milliseconds.
pub const LAST_POINT: u16 = 250;

/// How many points an axis of a crash part has room for.
pub const POINTS: usize = LAST_POINT as usize / POINT_STEP as usize + 1;

/// Names an event: the ignition cycle, and its time zero there in milliseconds.
#[derive(Clone, Copy, Debug, PartialEq, Eq)]
pub struct Key {
    pub cycle: u32,
    pub zero: u32,
}

/// The place of an event in a crash of one or two. `after` is the time from the first event's time zero, in milliseconds.
#[derive(Clone, Copy, Debug, PartialEq, Eq)]
pub enum Place {
    First,
    Second { after: u32 },
}

/// How far a pre part looks back, and how often.
#[derive(Clone, Copy, Debug, PartialEq, Eq)]
pub enum Profile {
    /// 5 s, twice a second.
    Short,
    /// 20 s, ten times a second.
    Long,
}

/// The lists of a pre part: a slot without a sample is `None`. Speed is in km/h, throttle in per cent.
#[derive(Clone, Copy, Debug, PartialEq, Eq)]
pub enum Slots {
    /// A slot at each half second from 5 s before time zero up to it.
    Short {
        speed: [Option<u16>; SHORT_SLOTS],
        throttle: [Option<u8>; SHORT_SLOTS],
        brake: [Option<bool>; SHORT_SLOTS],
    },
    /// A slot at each tenth of a second from 20 s before time zero up to it.
    Long {
        speed: [Option<u16>; LONG_SLOTS],
        throttle: [Option<u8>; LONG_SLOTS],
        brake: [Option<bool>; LONG_SLOTS],
    },
}

/// What stood before time zero. Belt and lamp are those of 1 s before it.
#[derive(Clone, Copy, Debug, PartialEq, Eq)]
pub struct Pre {
    pub key: Key,
    pub place: Place,
    pub slots: Slots,
    pub belt: Option<bool>,
    pub lamp: Option<bool>,
}

impl Model for Pre {
    ghost use Rattle.edr_record.specs.Parts.{PrePart};

    ghost Value = { PrePart };

    ghost use Rattle.edr_record.specs.Bounds.{IsPre};
    ghost use Rattle.edr_record.specs.Fields.{pre_part_of, pre_fields_of};

    ghost view = { pre_part_of };

    ghost inverse = { pre_fields_of };

    ghost invariant = { λ p. IsPre (pre_part_of p) };
}

/// The greatest change of speed of an axis in km/h, and its time from time zero on in milliseconds.
#[derive(Clone, Copy, Debug, PartialEq, Eq)]
pub struct Extreme {
    pub kmh: i16,
    pub at: u16,
}

/// What came after time zero. Times are milliseconds from there. `along` and `across` have the change of speed in km/h at
/// each 10 ms, and 0 past the last of them; `missing_along` and `missing_across` count the ticks without a sample.
#[derive(Clone, Copy, Debug, PartialEq, Eq)]
pub struct Crash {
    pub end: u16,
    pub along: [i16; POINTS],
    pub across: [i16; POINTS],
    pub max_along: Extreme,
    pub max_across: Extreme,
    pub result_at: u16,
    pub missing_along: u16,
    pub missing_across: u16,
    pub fired: [Option<u16>; 8],
}

impl Model for Crash {
    ghost use Rattle.edr_record.specs.Parts.{CrashPart};

    ghost Value = { CrashPart };

    ghost use Rattle.edr_record.specs.Bounds.{IsCrash};
    ghost use Rattle.edr_record.specs.Fields.{crash_part_of, crash_fields_of};

    ghost view = { crash_part_of };

    ghost inverse = { crash_fields_of };

    ghost invariant = { λ c. IsCrash (crash_part_of c) };
}

/// What is stored of an event. A locked record is never overwritten; one without a crash part was not ended.
#[derive(Clone, Copy, Debug, PartialEq, Eq)]
pub struct Record {
    pub pre: Pre,
    pub locked: bool,
    pub crash: Option<Crash>,
}

/// How many points an axis has, by the time of the end: one at time zero and at each 10 ms after it, up to 30 ms past the
/// end and to 250 ms.
#[inline]
pub fn point_count(end: u16) -> usize
    ensures { result ≡ point_count end }
{
    usize::from(end.saturating_add(TIME_PAST_END).min(LAST_POINT) / POINT_STEP) + 1
}

/// How long after time zero extremes and missing samples are looked for, by the time of the end, in milliseconds.
#[inline]
pub fn window_from_end(end: u16) -> u16
    ensures { result ≡ window_from_end end }
{
    end.saturating_add(TIME_PAST_END).min(LONGEST_WINDOW)
}

// Each slot has a value.
fn are_present<T>(slots: &[Option<T>]) -> bool
    ensures { result ≡ list_all is_some slots.now }
{
    slots.iter().all(|s| s.is_some())
}

impl Pre {
    ghost use Rattle.edr_record.specs.Complete.{has_all_slots};

    /// How far it looks back.
    pub fn profile(&self) -> Profile
        ensures { result ≡ self.now.profile }
    {
        match self.slots {
            Slots::Short { .. } => Profile::Short,
            Slots::Long { .. } => Profile::Long,
        }
    }

    /// The slots of the speed, in km/h.
    pub fn speed(&self) -> &[Option<u16>]
        ensures { result.now ≡ self.now.speed }
    {
        match &self.slots {
            Slots::Short { speed, .. } => speed,
            Slots::Long { speed, .. } => speed,
        }
    }

    /// The slots of the throttle, in per cent.
    pub fn throttle(&self) -> &[Option<u8>]
        ensures { result.now ≡ self.now.throttle }
    {
        match &self.slots {
            Slots::Short { throttle, .. } => throttle,
            Slots::Long { throttle, .. } => throttle,
        }
    }

    /// The slots of the brake: whether it was on.
    pub fn brake(&self) -> &[Option<bool>]
        ensures { result.now ≡ self.now.brake }
    {
        match &self.slots {
            Slots::Short { brake, .. } => brake,
            Slots::Long { brake, .. } => brake,
        }
    }

    /// None of the slots of its profile is absent.
    fn has_all_slots(&self) -> bool
        ensures { result ≡ has_all_slots self.now }
    {
        are_present(self.speed())
            && are_present(self.throttle())
            && are_present(self.brake())
            && self.belt.is_some()
            && self.lamp.is_some()
    }
}

impl Crash {
    ghost use Rattle.edr_record.specs.Complete.{misses_no_tick};

    /// No tick is without its sample, on either axis.
    fn misses_no_tick(&self) -> bool
        ensures { result ≡ misses_no_tick self.now }
    {
        self.missing_along == 0 && self.missing_across == 0
    }
}

impl Record {
    ghost use Rattle.edr_record.specs.Complete.{is_complete};

    /// Every required element is there.
    #[tactic(auto, unfolding(crate::specs::Complete::is_complete))]
    pub fn complete(&self) -> bool
        ensures { result ≡ is_complete self.now }
    {
        match &self.crash {
            Some(crash) => self.pre.has_all_slots() && crash.misses_no_tick(),
            None => false,
        }
    }
}

/// What the recorder asks of its banks: to keep an event, to lock its record, and to end it.
#[derive(Clone, Copy, Debug, PartialEq, Eq)]
pub enum Command {
    Take { pre: Pre },
    Lock { pre: Pre },
    Done { crash: Crash },
}

/// Lists have eleven slots, or 201, at each tenth of a second from 20 s before time zero on; belt and lamp have one, 1 s
/// before it. The two events of a pair begin at most 5 s apart, and each ends 20 to 500 ms past its time zero. An
/// axis has room for 26 points, one at each 10 ms up to 250 ms, of at most 3,000 km/h, and extremes are looked for 300 ms
/// at the most. Points and extremes go on up to 30 ms past the end.
pub fn times_are_those_of_a_record()
    ensures short { SHORT_SLOTS ≡ 11 }
    ensures long { LONG_SLOTS ≡ 201 }
    ensures step { SLOT_STEP ≡ 100 }
    ensures reach { SLOT_REACH ≡ 20_000 }
    ensures single { SINGLE_REACH ≡ 1_000 }
    ensures pair { LONGEST_PAIR ≡ 5_000 }
    ensures end { EARLIEST_END ≡ 20 }
    ensures reset { RESET ≡ 500 }
    ensures window { LONGEST_WINDOW ≡ 300 }
    ensures change { GREATEST_CHANGE ≡ 3_000 }
    ensures past { TIME_PAST_END ≡ 30 }
    ensures point_step { POINT_STEP ≡ 10 }
    ensures last_point { LAST_POINT ≡ 250 }
    ensures points { POINTS ≡ 26 }
{}
