//! The sum and the low of a list of changes.

ghost use Rattle.std.specs.Prelude.{◌-◌, [], pos, negsuc, ◌+ℤ◌, ◌≤ℤ◌, ◌<ℤ◌, ◌^◌};
ghost use Rattle.summary_law.specs.Count.{raises, lowers, IsCount, CountsOneMore, CountsBoth};

/// The sum of a list of changes by one, and its low: the least sum of any prefix. The empty prefix
/// counts too, so a low is never above 0.
#[derive(Clone, Copy, Debug, PartialEq, Eq)]
pub struct Count {
    pub sum: i64,
    pub low: i64,
}

impl Count {
    /// The count of no change.
    pub fn new() -> Count
        ensures { IsCount result [] }
    {
        Count { sum: 0, low: 0 }
    }

    /// One more.
    pub fn raise(&mut self)
        requires { self.old.sum <ℤ pos (2 ^ 63 - 1) }
        ensures { CountsOneMore raises self.old self.new }
    {
        self.sum += 1;
    }

    /// One less.
    pub fn lower(&mut self)
        requires { negsuc (2 ^ 63 - 1) <ℤ self.old.sum }
        ensures { CountsOneMore lowers self.old self.new }
    {
        self.sum -= 1;
        if self.sum < self.low {
            self.low = self.sum;
        }
    }

    /// The count of these changes followed by the later ones.
    pub fn then(self, later: Count) -> Count
        requires sum_low { negsuc (2 ^ 63 - 1) ≤ℤ (self.sum +ℤ later.sum) }
        requires sum_high { (self.sum +ℤ later.sum) ≤ℤ pos (2 ^ 63 - 1) }
        requires low_low { negsuc (2 ^ 63 - 1) ≤ℤ (self.sum +ℤ later.low) }
        requires low_high { (self.sum +ℤ later.low) ≤ℤ pos (2 ^ 63 - 1) }
        ensures { CountsBoth self later result }
    {
        let low = self.sum + later.low;
        Count {
            sum: self.sum + later.sum,
            low: if low < self.low { low } else { self.low },
        }
    }
}
