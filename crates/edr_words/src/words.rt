//! The words of a command line.
ghost use Rattle.std.specs.Prelude.{◌≡◌, [], ◌∷◌, ◌++◌, OnOk, OnErr, IfOk, IfSome};
ghost use Rattle.edr_words.specs.Jobs.{job_of, IsWithin};

use crate::Job;
use crate::arguments::are_plain;
use crate::jobs::job_after;
use std::alloc::{AllocError as OutOfMemory, Global};
use std::marker::Model;

/// The words of a command line after the program's name, in order. A contract sees a list of texts.
#[derive(Drop)]
pub struct Words {
    words: Vec<String>,
}

impl Model for Words {
    ghost use Rattle.std.specs.Prelude.{ℕ, List, map, string_bytes};

    ghost Value = { List (List ℕ) };

    ghost view = { λ w. map string_bytes w.words.items };
}

impl Words {
    /// No words.
    pub fn new(alloc: Global) -> Words
        ensures { result ≡ [] }
    {
        Words {
            words: Vec::new(alloc),
        }
    }

    /// Appends one word, or nothing.
    pub fn push(&mut self, word: &str) -> Result<(), OutOfMemory>
        ensures ok { OnOk result (self.new ≡ self.old ++ word.now ∷ []) }
        ensures err { OnErr result (self.new ≡ self.old) }
    {
        let word = String::from_str(*self.words.allocator(), word)?;
        self.words.push(word)?;
        Ok(())
    }

    /// The job that they name. None is a fault of usage: other words, a number that isn't in its one spelling or out of its
    /// range, and arguments that begin with `-`.
    ///
    /// ```
    /// words.push("replay")?;
    /// words.push("csv")?;
    /// assert_eq!(words.job(alloc)?, Some(Job::Replay { form: Form::Table }));
    /// ```
    pub fn job(&self, alloc: Global) -> Result<Option<Job>, OutOfMemory>
        ensures value { IfOk result (λ j. j ≡ job_of self.now) }
        ensures within { IfOk result (λ j. IfSome j IsWithin) }
    {
        let Some((word, arguments)) = self.words.split_first() else {
            return Ok(None);
        };
        if !are_plain(arguments) {
            return Ok(None);
        }
        job_after(alloc, word.as_str(), arguments)
    }
}
