//! The lines of a report, each compared as it is printed.
ghost use Rattle.std.specs.Prelude.{◌≡◌, ◌<◌, ◌^◌, ◌++◌, decimal, length, map};
ghost use Rattle.std.specs.Option.{option_map_or};
ghost use Rattle.std.specs.Fmt.{signed_decimal};
ghost use Rattle.edr_text.specs.Lines.{line_of};
ghost use Rattle.edr_report.specs.Words.{extreme_words, firing_words, missing_words, none_word, shown_count, spaced_words, switch_or_none, time_between, yes_no};
ghost use Rattle.edr_audit.specs.Compared.{compare};
ghost use Rattle.edr_audit.specs.Tail.{parted};

use crate::compared::Compared;
use edr_record::{Extreme, Place};
use itoa::Buffer;

// Counts of ignition cycles are shown up to this number.
const LARGEST_SHOWN: u32 = 60_000;

/// What stands in one slot of a list.
pub trait SlotTold {
    ghost use Rattle.std.specs.Prelude.{◌≡◌, ◌<◌, ◌^◌, ℕ, List, length};
    ghost use Rattle.edr_audit.specs.Compared.{compare};

    ghost words: { Self → List ℕ };

    /// Compares it.
    fn tell(&self, text: Compared, report: &[u8]) -> Compared
        requires { length report.now < 2 ^ 32 }
        ensures { result ≡ compare report.now text (words self.now) };
}

impl SlotTold for i16 {
    ghost use Rattle.std.specs.Fmt.{signed_decimal};

    ghost words = { signed_decimal };

    fn tell(&self, text: Compared, report: &[u8]) -> Compared {
        let mut buffer = Buffer::new();
        text.with(report, buffer.format(*self).as_bytes())
    }
}

impl SlotTold for Option<u16> {
    ghost use Rattle.edr_report.specs.Words.{number_or_none};

    ghost words = { number_or_none };

    fn tell(&self, text: Compared, report: &[u8]) -> Compared {
        let mut buffer = Buffer::new();
        match self {
            Some(n) => text.with(report, buffer.format(*n).as_bytes()),
            None => text.with(report, b"none"),
        }
    }
}

impl SlotTold for Option<u8> {
    ghost use Rattle.edr_report.specs.Words.{number_or_none};

    ghost words = { number_or_none };

    fn tell(&self, text: Compared, report: &[u8]) -> Compared {
        let mut buffer = Buffer::new();
        match self {
            Some(n) => text.with(report, buffer.format(*n).as_bytes()),
            None => text.with(report, b"none"),
        }
    }
}

impl SlotTold for Option<bool> {
    ghost use Rattle.edr_report.specs.Words.{switch_or_none};

    ghost words = { switch_or_none };

    fn tell(&self, text: Compared, report: &[u8]) -> Compared {
        text.with(report, switch_word(*self).as_bytes())
    }
}

/// Whether something was on.
pub fn switch_word(switch: Option<bool>) -> &'static str
    ensures { result.now ≡ switch_or_none switch }
{
    match switch {
        Some(true) => "on",
        Some(false) => "off",
        None => "none",
    }
}

/// Yes or no.
pub fn yes_no(b: bool) -> &'static str
    ensures { result.now ≡ yes_no b }
{
    if b { "yes" } else { "no" }
}

impl Compared {
    /// With the line of a word.
    pub fn with_word(self, report: &[u8], name: &str, word: &str) -> Compared
        requires { length report.now < 2 ^ 32 }
        ensures { result ≡ compare report.now self (line_of name.now word.now) }
    {
        self.with_all(report, &[name.as_bytes(), b": ", word.as_bytes(), b"\n"])
    }

    /// With the line of a number.
    pub fn with_number(self, report: &[u8], name: &str, n: u64) -> Compared
        requires { length report.now < 2 ^ 32 }
        ensures { result ≡ compare report.now self (line_of name.now (decimal n)) }
    {
        let mut buffer = Buffer::new();
        self.with_word(report, name, buffer.format(n))
    }

    /// With the line of a count of ignition cycles, which is shown up to a bound.
    pub fn with_count(self, report: &[u8], name: &str, count: u32) -> Compared
        requires { length report.now < 2 ^ 32 }
        ensures { result ≡ compare report.now self (line_of name.now (shown_count count)) }
    {
        self.with_number(report, name, u64::from(count.min(LARGEST_SHOWN)))
    }

    /// With the line of a time in milliseconds, if there is one.
    pub fn with_time(self, report: &[u8], name: &str, time: Option<u32>) -> Compared
        requires { length report.now < 2 ^ 32 }
        ensures { result ≡ compare report.now self (line_of name.now (firing_words time)) }
    {
        let mut buffer = Buffer::new();
        match time {
            None => self.with_word(report, name, "none"),
            Some(time) => {
                let time = buffer.format(time);
                self.with_all(report, &[name.as_bytes(), b": ", time.as_bytes(), b" ms\n"])
            }
        }
    }

    /// With the line of the time from the first event of a crash to the one in this place, in tenths of a second.
    pub fn with_time_between(self, report: &[u8], name: &str, place: Place) -> Compared
        requires { length report.now < 2 ^ 32 }
        ensures { result ≡ compare report.now self (line_of name.now (time_between place)) }
    {
        let mut first = Buffer::new();
        let mut second = Buffer::new();
        match place {
            Place::First => self.with_word(report, name, "none"),
            Place::Second { after } => {
                let tenths = (u64::from(after) + 50) / 100;
                let whole = first.format(tenths / 10);
                let tenth = second.format(tenths % 10);
                self.with_all(
                    report,
                    &[
                        name.as_bytes(),
                        b": ",
                        whole.as_bytes(),
                        b".",
                        tenth.as_bytes(),
                        b" s\n",
                    ],
                )
            }
        }
    }

    // With a slot, after a space unless it is the first.
    fn with_slot<S: SlotTold>(self, report: &[u8], place: usize, slot: &S) -> Compared
        requires { length report.now < 2 ^ 32 }
        ensures { result ≡ compare report.now self (parted place (S.words slot.now)) }
    {
        if place > 0 {
            slot.tell(self.with(report, b" "), report)
        } else {
            slot.tell(self, report)
        }
    }

    // With slots, parted by one space.
    #[tactic(auto, using(crate::proofs::TailLemmas::slots_more, crate::proofs::CompareLemmas::compare_append))]
    fn with_spaced<S: SlotTold>(self, report: &[u8], slots: &[S]) -> Compared
        requires { length report.now < 2 ^ 32 }
        ensures { result ≡ compare report.now self (spaced_words (map S.words slots.now)) }
    {
        let mut text = self;
        for (i, slot) in slots.iter().enumerate() {
            text = text.with_slot(report, i, slot);
        }
        text
    }

    /// With the line of a list of slots.
    pub fn with_slots<S: SlotTold>(self, report: &[u8], name: &str, slots: &[S]) -> Compared
        requires { length report.now < 2 ^ 32 }
        ensures { result ≡ compare report.now self (line_of name.now (spaced_words (map S.words slots.now))) }
    {
        self.with_all(report, &[name.as_bytes(), b": "])
            .with_spaced(report, slots)
            .with(report, b"\n")
    }

    /// With the line of the points of an axis, if there is a crash part.
    pub fn with_points(self, report: &[u8], name: &str, points: Option<&[i16]>) -> Compared
        requires { length report.now < 2 ^ 32 }
        ensures { result ≡ compare report.now self (line_of name.now (option_map_or (λ p. spaced_words (map signed_decimal p.now)) points.entry none_word)) }
    {
        match points {
            None => self.with_word(report, name, "none"),
            Some(points) => self.with_slots(report, name, points),
        }
    }

    /// With the line of a greatest change of speed, if there is a crash part.
    pub fn with_extreme(self, report: &[u8], name: &str, extreme: Option<Extreme>) -> Compared
        requires { length report.now < 2 ^ 32 }
        ensures { result ≡ compare report.now self (line_of name.now (option_map_or extreme_words extreme none_word)) }
    {
        let mut first = Buffer::new();
        let mut second = Buffer::new();
        match extreme {
            None => self.with_word(report, name, "none"),
            Some(extreme) => {
                let kmh = first.format(extreme.kmh);
                let at = second.format(extreme.at);
                self.with_all(
                    report,
                    &[
                        name.as_bytes(),
                        b": ",
                        kmh.as_bytes(),
                        b" km/h at ",
                        at.as_bytes(),
                        b" ms\n",
                    ],
                )
            }
        }
    }

    /// With the line of how many ticks of each axis have no sample, if there is a crash part.
    pub fn with_missing(self, report: &[u8], name: &str, missing: Option<(u16, u16)>) -> Compared
        requires { length report.now < 2 ^ 32 }
        ensures { result ≡ compare report.now self (line_of name.now (option_map_or (λ m. missing_words m.0 m.1) missing none_word)) }
    {
        let mut first = Buffer::new();
        let mut second = Buffer::new();
        match missing {
            None => self.with_word(report, name, "none"),
            Some((along, across)) => {
                let along = first.format(along);
                let across = second.format(across);
                self.with_all(
                    report,
                    &[
                        name.as_bytes(),
                        b": ",
                        along.as_bytes(),
                        b" longitudinal, ",
                        across.as_bytes(),
                        b" lateral\n",
                    ],
                )
            }
        }
    }
}
