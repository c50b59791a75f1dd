//! The change of speed of the last 20 ticks.

ghost use Rattle.std.specs.Prelude.{◌≡◌, ℕ, ◌+◌, ◌≤◌, pos, ℤ, Option, IsTrue, unsigned_abs};
ghost use Rattle.edr_items.specs.declared.TheConstants.{GREATEST_ACCELERATION};
ghost use Rattle.edr_detect.specs.Sums.{IsSumOfSmall};

use edr_definitions::limits::QUIET_TICKS;

// The changes of the last 20 ticks, that of the tick u in the place u % 20, and their sum.
#[derive(Drop)]
pub struct Latest {
    pub values: [i32; QUIET_TICKS],
    pub sum: i32,
    ghost sum_is: { IsSumOfSmall values sum },
}

impl Latest {
    ghost use Rattle.edr_definitions.specs.Windows.{change_at};
    ghost use Rattle.edr_detect.specs.Latest.{AreZeros, LatestStandsFor};

    pub fn new() -> Latest
        ensures { (axis : ℕ → Option ℤ) → change_at axis 0 ≡ pos 0 → LatestStandsFor axis 0 result.values result.sum }
    {
        Latest {
            values: [0; QUIET_TICKS],
            sum: 0,
        }
    }

    // The change of the tick t.
    pub fn push(&mut self, t: u32, change: i32)
        requires { unsigned_abs change ≤ GREATEST_ACCELERATION }
        ensures { (axis : ℕ → Option ℤ) (before : ℕ) → t ≡ before + 1 → change_at axis 0 ≡ pos 0 → change_at axis t ≡ change → LatestStandsFor axis before self.old.values self.old.sum → LatestStandsFor axis t self.new.values self.new.sum }
    {
        let place = (t % QUIET_TICKS as u32) as usize;
        self.sum = self.sum - self.values[place] + change;
        self.values[place] = change;
    }

    // None of the changes differs from 0.
    pub fn is_zero(&self) -> bool
        ensures { IsTrue result → AreZeros self.now.values }
    {
        self.values == [0; QUIET_TICKS]
    }
}
