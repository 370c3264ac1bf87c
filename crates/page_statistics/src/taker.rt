//! What is seen of the values that a path reaches.
ghost use Rattle.std.specs.Prelude.{◌≡◌, ◌≤◌, ◌-◌, ◌^◌, min, length};
ghost use Rattle.shredding.specs.Parts.{IsPath};
ghost use Rattle.levels.specs.Nested.{parts_of};
ghost use Rattle.levels.specs.Ranges.{leaf_count_or};
ghost use Rattle.write_places.specs.Places.{path_places};
ghost use Rattle.page_statistics.specs.Extremes.{AreExtremes, AreWithin};

use crate::order::SearchedLeaf;
use crate::seen::{Seen, with_some, with_stretch};
use columns_core::Result;
use levels::Nested;
use write_places::{Taker, take_places};

// Counts values, and keeps the places of the extremes.
#[derive(Drop)]
struct Looking<'a, L> {
    leaf: &'a L,
    seen: Seen,
}

impl<'a, L: SearchedLeaf> Taker for Looking<'a, L> {
    ghost use Rattle.std.specs.Prelude.{◌≡◌, ℕ, List, refl};
    ghost use Rattle.page_statistics.specs.Extremes.{AreWithin, Sees, sees-none};

    ghost limit = { λ s. L.count s.leaf.now };

    ghost has = { λ a b places. (b.leaf.now ≡ a.leaf.now) × Sees (L.value a.leaf.now) places a.seen b.seen };

    ghost sound = { λ s. AreWithin (L.count s.leaf.now) s.seen.extremes };

    ghost accepts = { λ s places. Unit {0} };

    ghost refuses = { λ s e. ⊥ };

    ghost none = { λ s. (refl, sees-none (L.value s.leaf.now) s.seen) };

    ghost front = { λ s xs ys h. tt };

    ghost back = { λ s xs ys h. tt };

    fn take(&mut self, from: usize, to: usize) -> Result<()> {
        let extremes = with_stretch(self.leaf, self.seen.extremes, from, to);
        self.seen = Seen {
            values: self.seen.values.saturating_add(to - from),
            extremes: Some(extremes),
        };
        Ok(())
    }

    fn take_some(&mut self, from: usize, bits: u64, count: usize) -> Result<()> {
        let extremes = with_some(self.leaf, self.seen.extremes, from, bits, count);
        self.seen = Seen {
            values: self.seen.values.saturating_add(bits.count_ones() as usize),
            extremes,
        };
        Ok(())
    }
}

// How many values a path reaches, and where the least and the greatest of them are. It takes no memory.
pub fn look_along<L: SearchedLeaf>(leaf: &L, nested: &[Nested]) -> Seen
    requires well { IsPath (parts_of nested.now) }
    requires leaf { leaf_count_or 0 (parts_of nested.now) ≤ L.count leaf.now }
    ensures values { result.values ≡ min (length (path_places (parts_of nested.now))) (2 ^ 64 - 1) }
    ensures extremes { AreExtremes (L.value leaf.now) (path_places (parts_of nested.now)) result.extremes }
    ensures within { AreWithin (L.count leaf.now) result.extremes }
{
    let mut looking = Looking {
        leaf,
        seen: Seen {
            values: 0,
            extremes: None,
        },
    };
    match take_places(&mut looking, nested) {
        Ok(()) => looking.seen,
        Err(_) => unreachable!(),
    }
}
