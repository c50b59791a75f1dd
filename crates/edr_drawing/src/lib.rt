//! The page of a report: a first sheet, and a sheet for each event with its charts, as one file of HTML.
#![tactic(auto)]

mod after;
mod before;
pub mod laws;
mod long;
mod scales;
mod sheets;
mod tables;
mod template;

ghost use Rattle.std.specs.Prelude.{◌≡◌, IfOk, map};
ghost use Rattle.edr_image.specs.Reports.{report_of};
ghost use Rattle.edr_drawing.specs.Page.{page_bytes};

use edr_image::{CycleReport, Found};
use edr_report::number_shown;
use long::{BODY, FORM_AND_NOTES, HEAD, PAGE_END, STYLE};
use sheets::{FIRST_FOOT, FIRST_SHEET, damaged_in, events_of, put_damaged, put_events, put_sheets};
use std::alloc::{AllocError as OutOfMemory, Global};
use tables::put_run;
use template::Filling::{Count, Number, Text};
use template::{fill, put};

/// The version of the program that draws a page, as the file VERSION has it.
pub const VERSION: &[u8] = b"1.0.0";

/// The report of which a page is, as the page names it.
#[derive(Clone, Copy)]
pub struct Origin {
    /// The count of ignition cycles that it tells.
    pub count: u32,
    /// Its length in bytes.
    pub size: u32,
    /// Its SHA-256.
    pub digest: [u8; 32],
}

/// How many bytes of a digest are its beginning.
pub const BEGINNING: usize = 8;

/// The page of what a report tells: the cycles of a run, what was found in the banks in this order, and its origin.
#[tactic(auto, unfolding(crate::specs::Page::page_bytes))]
pub fn page(
    alloc: Global,
    run: &[CycleReport],
    found: &[Found],
    origin: &Origin,
) -> Result<Vec<u8>, OutOfMemory>
    ensures { IfOk result (λ out. out.items ≡ page_bytes (map report_of run.now) found.now origin.now) }
{
    let (events, damaged) = (events_of(alloc, found)?, damaged_in(found));
    let recorded = events.len() as u64;
    let digest = hex::encode(alloc, origin.digest)?;
    let beginning = hex::encode(alloc, &origin.digest[..BEGINNING])?;
    let mut out = Vec::new(alloc);
    let head = [Text(beginning.as_bytes()), Text(STYLE), Text(BODY)];
    fill(&mut out, HEAD, &head)?;
    let count = number_shown(origin.count);
    let counts = [Count(recorded), Count(damaged), Number(count)];
    fill(&mut out, FIRST_SHEET, &counts)?;
    put_events(&mut out, &events)?;
    put_damaged(&mut out, found)?;
    put_run(&mut out, alloc, run, recorded)?;
    put(&mut out, FORM_AND_NOTES)?;
    let foot = [Number(origin.size), Text(digest.as_bytes()), Text(VERSION)];
    fill(&mut out, FIRST_FOOT, &foot)?;
    put_sheets(&mut out, alloc, &events, digest.as_bytes())?;
    put(&mut out, PAGE_END)?;
    Ok(out)
}
