//! The arguments after a word of a command line, told apart by `clap`.
ghost use Rattle.std.specs.Prelude.{◌≡◌, ◌≢◌, true, [], None, option_map, string_bytes, IfOk, IfSome};
ghost use Rattle.std.specs.List.{list_all};
ghost use Rattle.clap.specs.Faults.{fault_of, is_simple_and_free};
ghost use Rattle.clap.specs.Matches.{found_of};
ghost use Rattle.clap.specs.Simple.{app_of, with_rule};
ghost use Rattle.edr_words.specs.Arguments.{TakesWords, argument_rule, at_most_one, bare, first_and_second, is_plain, may_have_one, may_have_two, needs_two, one_or_two, two, words_in, words_of};

use clap::error::ErrorKind;
use clap::{Arg, ArgMatches, Command};
use std::alloc::{AllocError as OutOfMemory, Global};

// The word doesn't begin with `-`.
fn is_plain(word: &str) -> bool
    ensures { result ≡ is_plain word.now }
{
    !matches!(word.as_bytes(), [b'-', ..])
}

/// No argument begins with `-`.
pub(crate) fn are_plain(arguments: &[String]) -> bool
    ensures { result ≡ list_all (λ word. is_plain (string_bytes word)) arguments.now }
{
    arguments.iter().all(|word| is_plain(word.as_str()))
}

// A command that knows no argument yet.
fn bare<'a>(alloc: Global, name: &'a str) -> Command<'a>
    ensures { app_of result ≡ bare name.entry.now }
{
    Command::new(alloc, name)
        .no_binary_name(true)
        .disable_help_flag(true)
}

// The command with one more argument, which must be given or may be.
fn with_argument<'a>(
    alloc: Global,
    command: Command<'a>,
    id: &'a str,
    is_required: bool,
) -> Result<Command<'a>, OutOfMemory>
    ensures { IfOk result (λ c. app_of c ≡ with_rule (app_of command.entry) (argument_rule id.entry.now is_required)) }
{
    command.arg(Arg::new(alloc, id).required(is_required))
}

// A command that needs two arguments.
fn needs_two<'a>(alloc: Global, name: &'a str) -> Result<Command<'a>, OutOfMemory>
    ensures { IfOk result (λ c. app_of c ≡ needs_two name.entry.now) }
{
    let with_first = with_argument(alloc, bare(alloc, name), "first", true)?;
    with_argument(alloc, with_first, "second", true)
}

// A command that may have one argument.
fn may_have_one<'a>(alloc: Global, name: &'a str) -> Result<Command<'a>, OutOfMemory>
    ensures { IfOk result (λ c. app_of c ≡ may_have_one name.entry.now) }
{
    with_argument(alloc, bare(alloc, name), "first", false)
}

// A command that needs one argument, and may have a second.
fn may_have_two<'a>(alloc: Global, name: &'a str) -> Result<Command<'a>, OutOfMemory>
    ensures { IfOk result (λ c. app_of c ≡ may_have_two name.entry.now) }
{
    let with_first = with_argument(alloc, bare(alloc, name), "first", true)?;
    with_argument(alloc, with_first, "second", false)
}

// What the arguments are to the command. None where it doesn't take them.
fn parsed<'a>(
    command: Command<'a>,
    arguments: &'a [String],
) -> Result<Option<ArgMatches<'a>>, OutOfMemory>
    requires { is_simple_and_free (app_of command) ≡ true }
    ensures taken { IfOk result (λ r. IfSome r (TakesWords (app_of command.entry) (words_of arguments.entry.now))) }
    ensures refused { IfOk result (λ r. r ≡ None → fault_of (app_of command.entry) (words_of arguments.entry.now) ≢ []) }
{
    match command.try_get_matches_from(arguments) {
        Ok(matches) => Ok(Some(matches)),
        Err(e) => match e.kind() {
            ErrorKind::OutOfMemory => Err(OutOfMemory),
            _ => Ok(None),
        },
    }
}

/// The arguments, if they are two.
pub(crate) fn two<'a>(
    alloc: Global,
    name: &'a str,
    arguments: &'a [String],
) -> Result<Option<(&'a str, &'a str)>, OutOfMemory>
    requires { list_all is_plain (words_of arguments.now) ≡ true }
    ensures { IfOk result (λ r. option_map (λ p. (p.0.now, p.1.now)) r ≡ two (words_of arguments.now)) }
{
    match parsed(needs_two(alloc, name)?, arguments)? {
        Some(matches) => Ok(matches.get_str("first").zip(matches.get_str("second"))),
        None => Ok(None),
    }
}

/// The argument, if there is no more than one.
pub(crate) fn at_most_one<'a>(
    alloc: Global,
    name: &'a str,
    arguments: &'a [String],
) -> Result<Option<Option<&'a str>>, OutOfMemory>
    requires { list_all is_plain (words_of arguments.now) ≡ true }
    ensures { IfOk result (λ r. option_map (option_map (λ s. s.now)) r ≡ at_most_one (words_of arguments.now)) }
{
    match parsed(may_have_one(alloc, name)?, arguments)? {
        Some(matches) => Ok(Some(matches.get_str("first"))),
        None => Ok(None),
    }
}

/// The arguments, if they are one or two.
pub(crate) fn one_or_two<'a>(
    alloc: Global,
    name: &'a str,
    arguments: &'a [String],
) -> Result<Option<(&'a str, Option<&'a str>)>, OutOfMemory>
    requires { list_all is_plain (words_of arguments.now) ≡ true }
    ensures { IfOk result (λ r. option_map words_in r ≡ one_or_two (words_of arguments.now)) }
{
    match parsed(may_have_two(alloc, name)?, arguments)? {
        Some(matches) => Ok(with_second(&matches)),
        None => Ok(None),
    }
}

// The first argument, with the second if there is one.
fn with_second<'a>(matches: &ArgMatches<'a>) -> Option<(&'a str, Option<&'a str>)>
    ensures { option_map words_in result ≡ first_and_second (found_of matches.now) }
{
    match matches.get_str("first") {
        Some(first) => Some((first, matches.get_str("second"))),
        None => None,
    }
}
