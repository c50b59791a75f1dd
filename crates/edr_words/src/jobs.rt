//! What the program may be asked to do, and the table of words, a line for each.
ghost use Rattle.std.specs.Prelude.{◌≡◌, ◌≤◌, Some, true, map, option_map, string_bytes, IfOk, IfSome};
ghost use Rattle.std.specs.List.{list_all};
ghost use Rattle.edr_words.specs.Arguments.{at_most_one, is_plain, one_or_two, two};
ghost use Rattle.edr_words.specs.declared.jobs.Job.TheVariants.{Drive};
ghost use Rattle.edr_words.specs.Jobs.{IsWithin, bare_job, choice_in, drive_as, drive_job, fleet_job, form_in, form_of, format_job, generate_job, job_after, large_job, number_in, replay_job, report_job, trace_of, within};

use crate::arguments::{at_most_one, one_or_two, two};
use crate::{Choice, Form, Header};
use edr_image::places::{FEWEST_BANKS, MOST_BANKS};
use edr_text::{read_u32, read_u64};
use std::alloc::{AllocError as OutOfMemory, Global};

/// What the program is asked to do.
#[derive(Clone, Copy, Debug, PartialEq, Eq)]
pub enum Job {
    /// `format B C`: writes an empty image of B banks, `FEWEST_BANKS` to `MOST_BANKS`.
    Format { header: Header },
    /// `replay [text|csv]`: runs a trace over the image, and reports.
    Replay { form: Form },
    /// `report [text|csv]`: reports what the image holds.
    Report { form: Form },
    /// `drive W [text|csv]`: as `replay`, with W workers for the sensors, 1 to 8.
    Drive { workers: u8, form: Form },
    /// `drive W live`: as `drive W`, with a line for each cycle after the report.
    DriveLive { workers: u8 },
    /// `generate N M`: writes the trace of a number, of M cycles, 1 to 60.
    Generate { number: u64, cycles: u32 },
    /// `large N M`: runs that trace over a new image, and counts.
    Large { number: u64, cycles: u32 },
    /// `migrate`: takes over the records of an image of version 1.
    Migrate,
    /// `dialog`: replies to requests about what the image holds.
    Dialog,
    /// `fleet W`: reports what many images hold, by W workers, 1 to 8.
    Fleet { workers: u8 },
    /// `audit`: says whether what the image holds, and a report, come from an earlier image and a trace.
    Audit,
}

/// The job that a word names with its arguments.
pub(crate) fn job_after(
    alloc: Global,
    word: &str,
    arguments: &[String],
) -> Result<Option<Job>, OutOfMemory>
    requires plain { list_all is_plain (map string_bytes arguments.now) ≡ true }
    ensures value { IfOk result (λ j. j ≡ job_after word.now (map string_bytes arguments.now)) }
    ensures within { IfOk result (λ j. IfSome j IsWithin) }
{
    match word {
        "format" => format_job(alloc, arguments),
        "replay" => replay_job(alloc, arguments),
        "report" => report_job(alloc, arguments),
        "drive" => drive_job(alloc, arguments),
        "generate" => generate_job(alloc, arguments),
        "large" => large_job(alloc, arguments),
        "migrate" => Ok(bare_job(Job::Migrate, arguments)),
        "dialog" => Ok(bare_job(Job::Dialog, arguments)),
        "fleet" => fleet_job(alloc, arguments),
        "audit" => Ok(bare_job(Job::Audit, arguments)),
        _ => Ok(None),
    }
}

// `format B C`
fn format_job(alloc: Global, arguments: &[String]) -> Result<Option<Job>, OutOfMemory>
    requires plain { list_all is_plain (map string_bytes arguments.now) ≡ true }
    ensures value { IfOk result (λ j. j ≡ format_job (two (map string_bytes arguments.now))) }
    ensures within { IfOk result (λ j. IfSome j IsWithin) }
{
    match two(alloc, "format", arguments)? {
        Some((banks, choice)) => Ok(new_image(banks, choice)),
        None => Ok(None),
    }
}

// `replay [F]`
fn replay_job(alloc: Global, arguments: &[String]) -> Result<Option<Job>, OutOfMemory>
    requires plain { list_all is_plain (map string_bytes arguments.now) ≡ true }
    ensures value { IfOk result (λ j. j ≡ replay_job (at_most_one (map string_bytes arguments.now))) }
    ensures within { IfOk result (λ j. IfSome j IsWithin) }
{
    match form_of(alloc, "replay", arguments)? {
        Some(form) => Ok(Some(Job::Replay { form })),
        None => Ok(None),
    }
}

// `report [F]`
fn report_job(alloc: Global, arguments: &[String]) -> Result<Option<Job>, OutOfMemory>
    requires plain { list_all is_plain (map string_bytes arguments.now) ≡ true }
    ensures value { IfOk result (λ j. j ≡ report_job (at_most_one (map string_bytes arguments.now))) }
    ensures within { IfOk result (λ j. IfSome j IsWithin) }
{
    match form_of(alloc, "report", arguments)? {
        Some(form) => Ok(Some(Job::Report { form })),
        None => Ok(None),
    }
}

// `drive W [F]` and `drive W live`
fn drive_job(alloc: Global, arguments: &[String]) -> Result<Option<Job>, OutOfMemory>
    requires plain { list_all is_plain (map string_bytes arguments.now) ≡ true }
    ensures value { IfOk result (λ j. j ≡ drive_job (one_or_two (map string_bytes arguments.now))) }
    ensures within { IfOk result (λ j. IfSome j IsWithin) }
{
    match one_or_two(alloc, "drive", arguments)? {
        Some((workers, shown)) => Ok(driven(workers, shown)),
        None => Ok(None),
    }
}

// `generate N M`
fn generate_job(alloc: Global, arguments: &[String]) -> Result<Option<Job>, OutOfMemory>
    requires plain { list_all is_plain (map string_bytes arguments.now) ≡ true }
    ensures value { IfOk result (λ j. j ≡ generate_job (two (map string_bytes arguments.now))) }
    ensures within { IfOk result (λ j. IfSome j IsWithin) }
{
    match trace_of(alloc, "generate", arguments)? {
        Some((number, cycles)) => Ok(Some(Job::Generate { number, cycles })),
        None => Ok(None),
    }
}

// `large N M`
fn large_job(alloc: Global, arguments: &[String]) -> Result<Option<Job>, OutOfMemory>
    requires plain { list_all is_plain (map string_bytes arguments.now) ≡ true }
    ensures value { IfOk result (λ j. j ≡ large_job (two (map string_bytes arguments.now))) }
    ensures within { IfOk result (λ j. IfSome j IsWithin) }
{
    match trace_of(alloc, "large", arguments)? {
        Some((number, cycles)) => Ok(Some(Job::Large { number, cycles })),
        None => Ok(None),
    }
}

// `migrate`, `dialog` and `audit`, which take no argument
fn bare_job(job: Job, arguments: &[String]) -> Option<Job>
    requires within { IsWithin job }
    ensures value { result ≡ bare_job job (map string_bytes arguments.now) }
    ensures within { IfSome result IsWithin }
{
    match arguments {
        [] => Some(job),
        _ => None,
    }
}

// `fleet W`
fn fleet_job(alloc: Global, arguments: &[String]) -> Result<Option<Job>, OutOfMemory>
    requires plain { list_all is_plain (map string_bytes arguments.now) ≡ true }
    ensures value { IfOk result (λ j. j ≡ fleet_job (at_most_one (map string_bytes arguments.now))) }
    ensures within { IfOk result (λ j. IfSome j IsWithin) }
{
    match at_most_one(alloc, "fleet", arguments)? {
        Some(Some(workers)) => Ok(fleet_of(workers)),
        Some(None) | None => Ok(None),
    }
}

// A new image of so many banks, with this choice.
fn new_image(banks: &str, choice: &str) -> Option<Job>
    ensures value { result ≡ format_job (Some (banks.now, choice.now)) }
    ensures within { IfSome result IsWithin }
{
    let banks = within(FEWEST_BANKS.into(), MOST_BANKS.into(), banks)? as u8;
    let choice = choice_in(choice)?;
    Some(Job::Format {
        header: Header { banks, choice },
    })
}

// The report of a fleet by so many workers.
fn fleet_of(workers: &str) -> Option<Job>
    ensures value { result ≡ fleet_job (Some (Some workers.now)) }
    ensures within { IfSome result IsWithin }
{
    let workers = within(1, 8, workers)? as u8;
    Some(Job::Fleet { workers })
}

// A run of so many workers, and what it shows; without a word that is its report as text.
fn driven(workers: &str, shown: Option<&str>) -> Option<Job>
    ensures value { result ≡ drive_job (Some (workers.now, option_map (λ s. s.now) shown.entry)) }
    ensures within { IfSome result IsWithin }
{
    let workers = within(1, 8, workers)? as u8;
    match shown {
        Some(word) => driven_as(workers, word),
        None => Some(Job::Drive {
            workers,
            form: Form::Text,
        }),
    }
}

// A run of so many workers, and what the word asks it to show.
#[tactic(auto, unfolding(crate::specs::Jobs::drive_as))]
fn driven_as(workers: u8, word: &str) -> Option<Job>
    requires within { (1 ≤ workers) × (workers ≤ 8) }
    ensures value { result ≡ drive_as workers word.now }
    ensures within { IfSome result IsWithin }
{
    match word {
        "live" => Some(Job::DriveLive { workers }),
        _ => driven_in(workers, form_in(word)),
    }
}

// A run of so many workers, and its report in this form, if it is one.
fn driven_in(workers: u8, form: Option<Form>) -> Option<Job>
    requires within { (1 ≤ workers) × (workers ≤ 8) }
    ensures value { result ≡ option_map (λ f. Drive workers f) form }
    ensures within { IfSome result IsWithin }
{
    let form = form?;
    Some(Job::Drive { workers, form })
}

// The number and the cycles of a trace, as the arguments of a word.
fn trace_of(
    alloc: Global,
    name: &str,
    arguments: &[String],
) -> Result<Option<(u64, u32)>, OutOfMemory>
    requires plain { list_all is_plain (map string_bytes arguments.now) ≡ true }
    ensures value { IfOk result (λ t. t ≡ trace_of (two (map string_bytes arguments.now))) }
    ensures within { IfOk result (λ t. IfSome t (λ p. (1 ≤ p.1) × (p.1 ≤ 60))) }
{
    match two(alloc, name, arguments)? {
        Some((number, cycles)) => Ok(trace_in(number, cycles)),
        None => Ok(None),
    }
}

// The number and the cycles of a trace.
fn trace_in(number: &str, cycles: &str) -> Option<(u64, u32)>
    ensures value { result ≡ trace_of (Some (number.now, cycles.now)) }
    ensures within { IfSome result (λ p. (1 ≤ p.1) × (p.1 ≤ 60)) }
{
    let number = number_in(number)?;
    let cycles = within(1, 60, cycles)?;
    Some((number, cycles))
}

// The form of a report, as the arguments of a word.
fn form_of(alloc: Global, name: &str, arguments: &[String]) -> Result<Option<Form>, OutOfMemory>
    requires plain { list_all is_plain (map string_bytes arguments.now) ≡ true }
    ensures { IfOk result (λ f. f ≡ form_of (at_most_one (map string_bytes arguments.now))) }
{
    match at_most_one(alloc, name, arguments)? {
        Some(form) => Ok(form_or_text(form)),
        None => Ok(None),
    }
}

// The form that a word names; without a word it is the text.
fn form_or_text(word: Option<&str>) -> Option<Form>
    ensures { result ≡ form_of (Some (option_map (λ s. s.now) word.entry)) }
{
    match word {
        Some(word) => form_in(word),
        None => Some(Form::Text),
    }
}

// The form that a word names.
#[tactic(auto, unfolding(crate::specs::Jobs::form_in))]
fn form_in(word: &str) -> Option<Form>
    ensures { result ≡ form_in word.now }
{
    match word {
        "text" => Some(Form::Text),
        "csv" => Some(Form::Table),
        _ => None,
    }
}

// The choice that a word names.
#[tactic(auto, unfolding(crate::specs::Jobs::choice_in))]
fn choice_in(word: &str) -> Option<Choice>
    ensures { result ≡ choice_in word.now }
{
    match word {
        "keep" => Some(Choice::Keep),
        "overwrite" => Some(Choice::Overwrite),
        _ => None,
    }
}

// The number that a word spells, if it lies from `least` to `most`.
#[tactic(auto, unfolding(crate::specs::Jobs::within))]
fn within(least: u32, most: u32, word: &str) -> Option<u32>
    ensures value { result ≡ within least most word.now }
    ensures bounds { IfSome result (λ n. (least ≤ n) × (n ≤ most)) }
{
    match read_u32(word.as_bytes()) {
        Ok(n) if least <= n && n <= most => Some(n),
        _ => None,
    }
}

// The number of a trace that a word spells.
#[tactic(auto, unfolding(crate::specs::Jobs::number_in))]
fn number_in(word: &str) -> Option<u64>
    ensures { result ≡ number_in word.now }
{
    match read_u64(word.as_bytes()) {
        Ok(number) => Some(number),
        Err(_) => None,
    }
}
