//! Lines that take no memory.

ghost use Rattle.std.specs.Prelude.{◌≡◌, ◌+◌, ◌≤◌, ◌++◌, decimal, length};
ghost use Rattle.std.specs.Fmt.{signed_decimal};
ghost use Rattle.arrayvec.specs.ArrayString.{array_string_len};
ghost use Rattle.edr_report.specs.Format.{format_line, live_line, migrate_line};
ghost use Rattle.edr_report.specs.ImageWords.{header_words, short_words};

use arrayvec::ArrayString;
use edr_image::{Choice, Header, HeaderRefused};
use itoa::Buffer;
use std::marker::Model;

/// Room for the bytes of a line.
pub type Room = ArrayString<80>;

/// A line of at most 80 bytes, in a place of its own. Contracts see it as the list of its bytes.
#[derive(Drop)]
pub struct ShortLine {
    text: Room,
}

impl Model for ShortLine {
    ghost use Rattle.std.specs.Prelude.{ℕ, List};

    ghost Value = { List ℕ };

    ghost view = { λ l. l.text.bytes };
}

impl ShortLine {
    /// The line that was put there.
    pub fn new(text: Room) -> ShortLine
        ensures { result ≡ text.bytes }
    {
        ShortLine { text }
    }

    /// The bytes of the line, with its line feed.
    pub fn as_bytes(&self) -> &[u8]
        ensures { result.now ≡ self.now }
    {
        self.text.as_str().as_bytes()
    }
}

/// Appends words and a number.
pub fn push_number(line: &mut Room, words: &str, n: u32)
    requires { array_string_len line.old + length words.now + 10 ≤ 80 }
    ensures bytes { line.new.bytes ≡ line.old.bytes ++ (words.now ++ decimal n) }
    ensures len { array_string_len line.new ≤ array_string_len line.old + length words.now + 10 }
{
    let mut buffer = Buffer::new();
    line.push_str(words);
    line.push_str(buffer.format(n));
}

/// Appends words and a number that may be below zero.
pub fn push_signed(line: &mut Room, words: &str, z: i32)
    requires { array_string_len line.old + length words.now + 11 ≤ 80 }
    ensures bytes { line.new.bytes ≡ line.old.bytes ++ (words.now ++ signed_decimal z) }
    ensures len { array_string_len line.new ≤ array_string_len line.old + length words.now + 11 }
{
    let mut buffer = Buffer::new();
    line.push_str(words);
    line.push_str(buffer.format(z));
}

/// Appends how many bytes an image has, and how many it needs.
pub fn push_short(line: &mut Room, size: u32, needed: u32)
    requires { array_string_len line.old ≤ 50 }
    ensures bytes { line.new.bytes ≡ line.old.bytes ++ short_words size needed }
    ensures len { array_string_len line.new ≤ array_string_len line.old + 30 }
{
    push_number(line, "short ", size);
    push_number(line, " of ", needed);
}

/// Appends what is wrong with a header.
pub fn push_header_refused(line: &mut Room, refused: HeaderRefused)
    requires { array_string_len line.old ≤ 36 }
    ensures bytes { line.new.bytes ≡ line.old.bytes ++ header_words refused }
    ensures len { array_string_len line.new ≤ array_string_len line.old + 44 }
{
    match refused {
        HeaderRefused::NotFormatted { offset, found } => {
            push_number(line, "not formatted at ", offset);
            push_number(line, " found ", u32::from(found));
        }
        HeaderRefused::Version { found } => push_number(line, "version ", u32::from(found)),
        HeaderRefused::Banks { found } => push_number(line, "banks ", u32::from(found)),
        HeaderRefused::Choice { found } => push_number(line, "choice ", u32::from(found)),
    }
}

/// The line that tells of an image that was formatted with this header. It takes no memory.
pub fn format_line(header: Header) -> ShortLine
    ensures { result ≡ format_line header }
{
    let mut line = Room::new();
    push_number(&mut line, "formatted: ", u32::from(header.banks));
    line.push_str(" banks, ");
    line.push_str(match header.choice {
        Choice::Keep => "keep",
        Choice::Overwrite => "overwrite",
    });
    line.push_str("\n");
    ShortLine::new(line)
}

/// The line that tells of an old image whose events were taken over, with the count of ignition cycles. It takes no memory.
pub fn migrate_line(events: u8, count: u32) -> ShortLine
    ensures { result ≡ migrate_line events count }
{
    let mut line = Room::new();
    push_number(&mut line, "migrated: ", u32::from(events));
    push_number(&mut line, " events, count ", count);
    line.push_str("\n");
    ShortLine::new(line)
}

/// The line of a cycle that a reader saw beside its threads: which cycle of the run it is, how many commands its log has,
/// and how many events the banks have after these. It takes no memory.
pub fn live_line(cycle: u32, commands: u32, events: u8) -> ShortLine
    ensures { result ≡ live_line cycle commands events }
{
    let mut line = Room::new();
    push_number(&mut line, "live: cycle ", cycle);
    push_number(&mut line, ", ", commands);
    push_number(&mut line, " commands, ", u32::from(events));
    line.push_str(" events\n");
    ShortLine::new(line)
}
