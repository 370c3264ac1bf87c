//! Present items, counted and added up.
ghost use Rattle.std.specs.Prelude.{◌≡◌, ◌+◌, ◌<◌, ◌^◌, ◌++◌, ◌∷◌, [], List, ℤ, ◌*◌, ◌≤ℤ◌, neg_ℤ, pos};

/// How many items are present, and their sum.
#[derive(Clone, Copy, Debug)]
pub struct Totals {
    /// The number of present items.
    pub count: u64,
    /// The sum of the present items.
    pub sum: i128,
    ghost above: { neg_ℤ (pos (2 ^ 31 * count)) ≤ℤ sum },
    ghost below: { sum ≤ℤ pos (2 ^ 31 * count) },
}

impl Totals {
    ghost use Rattle.sample_rows.specs.Present.{both};
    ghost use Rattle.sample_rows.specs.Totals.{AreOf, totals_view};

    /// Those of no item.
    pub fn none() -> Self
        ensures are { AreOf result [] }
        ensures few { result.count ≡ 0 }
    {
        Totals { count: 0, sum: 0 }
    }

    /// Both together.
    pub fn plus(self, other: Self) -> Self
        requires { self.count + other.count < 2 ^ 64 }
        ensures { totals_view result ≡ both (totals_view self) (totals_view other) }
    {
        Totals {
            count: self.count + other.count,
            sum: self.sum + other.sum,
        }
    }

    /// One present item more.
    pub(crate) fn with(self, item: i32) -> Self
        requires { self.count + 1 < 2 ^ 64 }
        ensures are { (zs : List ℤ) → AreOf self zs → AreOf result (zs ++ item ∷ []) }
        ensures count { result.count ≡ self.count + 1 }
    {
        Totals {
            count: self.count + 1,
            sum: self.sum + i128::from(item),
        }
    }
}
