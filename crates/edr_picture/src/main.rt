//! Draws a report. Its table comes from standard input, and its page goes to standard output. The one word may be `--help` or
//! `--version`; any other words are a fault of usage, which is told on standard error. The program ends with the status of the
//! run.
#![tactic(auto)]

mod asked;
mod draws;
mod faults;
#[cfg(test)]
mod tests;

use asked::Asked;
use draws::draw;
use edr_edge::Counted;
use faults::{PageFault, PageStatus};
use std::alloc::AllocError as OutOfMemory;
use std::process::ExitCode;
use std::rt::Env;
use std::{env, io};

// What the command line asks for. A word that is no text is none that the program knows.
fn command_line<R: Env + AllocGlobal>(rt: &R) -> Result<Asked, OutOfMemory> {
    match env::args(rt) {
        Ok(args) => {
            let mut words = args.skip(1);
            match (words.next(), words.next()) {
                (None, _) => Ok(Asked::Page),
                (Some(word), None) => Ok(Asked::by(word.as_str())),
                (Some(_), Some(_)) => Ok(Asked::Other),
            }
        }
        Err(e) if e.kind() == io::ErrorKind::OutOfMemory => Err(OutOfMemory),
        Err(_) => Ok(Asked::Other),
    }
}

fn main(rt: HostRuntime) -> ExitCode {
    let mut input = Counted::new(rt.stdin());
    let mut output = Counted::new(rt.stdout());
    let mut errors = Counted::new(rt.stderr());
    let status = match command_line(&rt) {
        Ok(Asked::Other) => draw(rt.alloc(), Asked::Other, &mut input, &mut errors),
        Ok(asked) => draw(rt.alloc(), asked, &mut input, &mut output),
        Err(OutOfMemory) => PageStatus::Faulty(PageFault::OutOfMemory),
    };
    ExitCode::from(status.code())
}
