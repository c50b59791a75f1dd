//! Swings: the extremes of the sums of the last values, kept value by value.
#![tactic(auto)]

mod candidates;
pub mod laws;

ghost use Rattle.std.specs.Prelude.{◌≡◌, ◌+◌, ◌<◌, ◌≤◌, [], ◌∷◌, ◌++◌, List, ℤ, pos, neg_ℤ, unsigned_abs, IsTrue};
ghost use Rattle.edr_items.specs.declared.TheConstants.{LATEST_MOMENT};
ghost use Rattle.edr_window.specs.declared.TheConstants.{LARGEST_VALUE};
ghost use Rattle.edr_window.specs.Candidates.{most};
ghost use Rattle.edr_window.specs.Sums.{IsLeastSum, IsGreatestSum, IsLeastSumIfAny, IsGreatestSumIfAny};
ghost use Rattle.edr_window.specs.Swing.{SwingStandsFor};

use crate::candidates::{Candidates, Earlier};
use std::marker::Model;

/// The largest size of a value that is pushed.
pub const LARGEST_VALUE: u32 = 100_000;

// The greatest and the least earlier sum are this sum, so that both extremes are 0.
#[inline(always)]
fn are_at_rest(high: Earlier, low: Earlier, sum: i64) -> bool
    requires { unsigned_abs sum ≤ most }
    ensures high { IsTrue result → high.sum ≡ sum }
    ensures low { IsTrue result → low.sum ≡ neg_ℤ sum }
{
    high.sum == sum && low.sum == -sum
}

/// The extremes of the sums of the last 1 to `K` values of those that were pushed since the restart.
///
/// A sum of the last values is the sum of all, less an earlier sum of all. So the least is that with the greatest earlier sum of
/// the last `K`, and the greatest that with the least. A push takes a few steps on average, and the rest a few always.
#[derive(Drop)]
pub struct Swing<const K: usize> {
    sum: i64,
    // The places of earlier sums that can still be the greatest among the last K, with the sums.
    high: Candidates<K>,
    // The places of those that can still be the least, with 0 less the sums.
    low: Candidates<K>,
    pushes: u32,
    // The places that were given. Pushes at rest give none: they move all places on.
    places: u32,
    // The extremes are 0.
    rests: bool,
}

impl<const K: usize> Model for Swing<K> {
    ghost use Rattle.edr_window.specs.Swing.{SwingState, FieldsHold};
    ghost use Rattle.std.specs.Prelude.{◌-◌};

    ghost Value = { SwingState };

    ghost view = { λ s. record { pushes = s.pushes; rest = s.pushes - s.places; sum = s.sum; high = s.high; low = s.low; still = s.rests } };

    ghost invariant = { λ s. FieldsHold K s.pushes s.places s.sum s.high s.low s.rests };
}

impl<const K: usize> Swing<K> {
    /// A swing to which nothing was pushed.
    pub fn new() -> Swing<K>
        requires some { 1 ≤ K }
        requires few { K ≤ 150 }
        ensures stands { SwingStandsFor K result [] }
        ensures pushes { result.pushes ≡ 0 }
    {
        Swing {
            sum: 0,
            high: Candidates::new(),
            low: Candidates::new(),
            pushes: 0,
            places: 0,
            rests: false,
        }
    }

    /// One more value.
    #[inline(always)]
    pub fn push(&mut self, v: i64)
        requires small { unsigned_abs v ≤ LARGEST_VALUE }
        requires room { self.old.pushes < LATEST_MOMENT }
        ensures stands { (values : List ℤ) → SwingStandsFor K self.old values → SwingStandsFor K self.new (values ++ v ∷ []) }
        ensures pushes { self.new.pushes ≡ self.old.pushes + 1 }
    {
        // Where all the sums are 0, a further 0 changes none.
        if v == 0 && self.rests {
            self.push_still();
            return;
        }
        self.put(v);
    }

    /// Whether all the sums are 0. They stay so while 0 is pushed.
    #[inline(always)]
    pub fn is_still(&self) -> bool
        ensures still { result ≡ self.now.still }
        ensures least { IsTrue result → (values : List ℤ) → SwingStandsFor K self.now values → IsLeastSum K values (pos 0) }
        ensures greatest { IsTrue result → (values : List ℤ) → SwingStandsFor K self.now values → IsGreatestSum K values (pos 0) }
    {
        self.rests
    }

    /// One more 0, where all the sums are 0.
    #[inline(always)]
    pub fn push_still(&mut self)
        requires still { IsTrue self.old.still }
        requires room { self.old.pushes < LATEST_MOMENT }
        ensures stands { (values : List ℤ) → SwingStandsFor K self.old values → SwingStandsFor K self.new (values ++ pos 0 ∷ []) }
        ensures pushes { self.new.pushes ≡ self.old.pushes + 1 }
        ensures still { IsTrue self.new.still }
    {
        self.pushes += 1;
    }

    // One more value, whatever it moves. It stands apart, so that a push at rest stays small.
    #[inline(never)]
    fn put(&mut self, v: i64)
        requires small { unsigned_abs v ≤ LARGEST_VALUE }
        requires room { self.old.pushes < LATEST_MOMENT }
        ensures stands { (values : List ℤ) → SwingStandsFor K self.old values → SwingStandsFor K self.new (values ++ v ∷ []) }
        ensures pushes { self.new.pushes ≡ self.old.pushes + 1 }
    {
        self.pushes += 1;
        self.high.give(self.places, self.sum);
        self.low.give(self.places, -self.sum);
        self.places += 1;
        self.sum += v;
        self.rests = are_at_rest(self.high.first(), self.low.first(), self.sum);
    }

    /// The least of the sums, or None where nothing was pushed since the restart.
    pub fn least(&self) -> Option<i64>
        ensures { (values : List ℤ) → SwingStandsFor K self.now values → IsLeastSumIfAny K values result }
    {
        match self.pushes {
            0 => None,
            _ => Some(self.sum - self.high.first().sum),
        }
    }

    /// The greatest of the sums, or None where nothing was pushed since the restart.
    pub fn greatest(&self) -> Option<i64>
        ensures { (values : List ℤ) → SwingStandsFor K self.now values → IsGreatestSumIfAny K values result }
    {
        match self.pushes {
            0 => None,
            _ => Some(self.sum + self.low.first().sum),
        }
    }

    /// Forgets all values.
    pub fn restart(&mut self)
        ensures stands { SwingStandsFor K self.new [] }
        ensures pushes { self.new.pushes ≡ 0 }
    {
        self.sum = 0;
        self.high.clear();
        self.low.clear();
        self.pushes = 0;
        self.places = 0;
        self.rests = false;
    }
}
