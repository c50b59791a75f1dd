//! What the command line asks for, and the texts with which the program answers a word.
ghost use Rattle.std.specs.Prelude.{◌≡◌};
ghost use Rattle.edr_picture.specs.Pages.{asked_by, version_line};

use arrayvec::ArrayVec;
use edr_drawing::VERSION;

/// What `--help` prints.
pub const HELP: &[u8] = b"edr_picture [--help | --version] < crash.csv > crash.html
Draws the table of a report, as `edr report csv` or `edr replay csv` printed it, as a page of HTML.
  --help     prints this
  --version  prints the version
The status is 0, or that of the fault whose line is printed: 2 other words, 3 no report, 4 standard input failed,
5 standard output failed, 9 memory ran out, 10 more than 67,108,864 bytes. `man edr_picture` says more.
";

/// What the command line asks for.
#[derive(Clone, Copy, Debug, PartialEq, Eq)]
pub enum Asked {
    /// The page of the report, since there is no word.
    Page,
    /// How the program is used: the one word is `--help`.
    Help,
    /// The version: the one word is `--version`.
    Version,
    /// Nothing that it does.
    Other,
}

impl Asked {
    /// What one word alone asks for.
    pub fn by(word: &str) -> Asked
        ensures { result ≡ asked_by word.now }
    {
        match word {
            "--help" => Asked::Help,
            "--version" => Asked::Version,
            _ => Asked::Other,
        }
    }
}

/// The line that names the program and its version.
pub fn version_line() -> ArrayVec<u8, 40>
    ensures { result.items ≡ version_line }
{
    let mut line = ArrayVec::new();
    line.try_extend_from_slice(b"edr_picture ").unwrap();
    line.try_extend_from_slice(VERSION).unwrap();
    line.try_extend_from_slice(b"\n").unwrap();
    line
}
