//! Pairs of events: whether an event is the first or the second of a crash of two.
#![tactic(auto)]

ghost use Rattle.std.specs.Prelude.{◌≡◌, ℕ, List, [], ◌∷◌, ◌++◌, Some};
ghost use Rattle.edr_record.specs.Bounds.{IsPlace};
ghost use Rattle.edr_definitions.specs.Commands.{place_of, places};
ghost use Rattle.edr_link.specs.Link.{LinkStandsFor, IsPast};

use edr_record::{LONGEST_PAIR, Place};
use std::marker::Model;

/// Gives each event of an ignition cycle its place, one event after the other.
#[derive(Drop)]
pub struct Link {
    // The last event: its place and its time zero.
    last: Option<(Place, u32)>,
}

impl Model for Link {
    ghost use Rattle.std.specs.Prelude.{ℕ, Option};
    ghost use Rattle.edr_record.specs.declared.Place.{Place};

    ghost Value = { Option (Place × ℕ) };

    ghost view = { λ l. l.last };
}

impl Link {
    /// A link for a cycle that has had no event yet.
    pub fn new() -> Link
        ensures { LinkStandsFor result [] }
    {
        Link { last: None }
    }

    // The place of an event that comes next.
    fn place(&self, zero: u32) -> Place
        requires { IsPast self.now zero }
        ensures place { result ≡ place_of self.now zero }
        ensures within { IsPlace result }
    {
        match self.last {
            Some((Place::First, before)) if zero - before <= LONGEST_PAIR => Place::Second {
                after: zero - before,
            },
            _ => Place::First,
        }
    }

    /// The place of the cycle's next event, by its time zero in milliseconds. Time zeros rise.
    pub fn next(&mut self, zero: u32) -> Place
        requires rises { IsPast self.old zero }
        ensures place { result ≡ place_of self.old zero }
        ensures last { self.new ≡ Some (result, zero) }
        ensures within { IsPlace result }

        // The same of all events of the cycle.
        ensures stands { (zeros : List ℕ) → LinkStandsFor self.old zeros → LinkStandsFor self.new (zeros ++ zero ∷ []) }
        ensures definition { (zeros : List ℕ) → LinkStandsFor self.old zeros → places (zeros ++ zero ∷ []) ≡ places zeros ++ result ∷ [] }
    {
        let place = self.place(zero);
        self.last = Some((place, zero));
        place
    }
}
