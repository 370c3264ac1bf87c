//! The order of the values of a leaf array.
use crate::seen::{Extremes, search_some, search_stretch};
use columns_core::Result;
use std::alloc::Global;

/// The values of a leaf array by place, in the order of their type (Parquet format, `ColumnOrder`: numbers as numbers, false before true,
/// bytes without a sign): what differs from one leaf type to the next.
pub trait OrderedLeaf: Drop {
    ghost use Rattle.std.specs.Prelude.{◌≡◌, ◌<◌, ◌≤◌, ℕ, IsTrue, true, false, IfOk, IfErr};
    ghost use Rattle.shredding.specs.Shape.{LeafType};
    ghost use Rattle.shredding.specs.Slot.{Value};
    ghost use Rattle.columns_base.specs.declared.error.Error.TheVariants.{Memory};
    ghost use Rattle.pq_tree.specs.Physical.{Physical};
    ghost use Rattle.pq_files.specs.Statistics.{IsUpTo};
    ghost use Rattle.page_statistics.specs.Between.{AreAllBetween};
    ghost use Rattle.page_statistics.specs.Spelled.{IsSpelled};

    // the number of places
    ghost count: { Self → ℕ };

    // the type of the values
    ghost kind: { Self → LeafType };

    // the physical type of the column
    ghost physical: { Self → Physical };

    // the value at each place
    ghost value: { Self → ℕ → Value };

    /// The number of places.
    fn len(&self) -> usize
        ensures { result ≡ count self.now };

    /// Whether the value at one place is below that at another.
    fn is_less(&self, i: usize, j: usize) -> bool
        requires first { i < count self.now }
        requires second { j < count self.now }
        ensures less { IsTrue result → IsUpTo (value self.now i) (value self.now j) }
        ensures other { result ≡ false → IsUpTo (value self.now j) (value self.now i) };

    /// Whether no value at the places from `from` on to `to` is below the one at `least` or above the one at `greatest`. It may answer no
    /// wherever that is not looked at.
    fn are_between(&self, from: usize, to: usize, least: usize, greatest: usize) -> bool
        requires ordered { from ≤ to }
        requires within { to ≤ count self.now }
        requires low { least < count self.now }
        requires high { greatest < count self.now }
        ensures { IsTrue result → AreAllBetween (value self.now) from to least greatest };

    /// The value at a place as statistics state it: plain, without a length, and a truth value as a byte.
    ///
    /// # Errors
    ///
    /// `Memory`.
    fn bound(&self, alloc: Global, i: usize) -> Result<Vec<u8>>
        requires { i < count self.now }
        ensures ok { IfOk result (λ s. IsSpelled (kind self.now) (physical self.now) s.items (value self.now i)) }
        ensures err { IfErr result (λ e. e ≡ Memory) };
}

/// A leaf array that is searched for the least and the greatest of its values: in blocks and then place by place, unless it knows a better way.
pub trait SearchedLeaf: OrderedLeaf {
    ghost use Rattle.std.specs.Prelude.{◌<◌, ◌≤◌, ◌+◌, ◌-◌, ◌^◌, ◌++◌, ℕ, List, Some};
    ghost use Rattle.write_places.specs.Places.{range, picked};
    ghost use Rattle.page_statistics.specs.Extremes.{AreExtremes, AreWithin};

    /// The extremes with the places from `from` on to `to`.
    fn with_stretch(&self, extremes: Extremes, from: usize, to: usize) -> Extremes
        requires before { AreWithin (Self.count self.now) (Some extremes) }
        requires ordered { from ≤ to }
        requires within { to ≤ Self.count self.now }
        ensures within { AreWithin (Self.count self.now) (Some result) }
        ensures are { (places : List ℕ) → AreExtremes (Self.value self.now) places (Some extremes)
            → AreExtremes (Self.value self.now) (places ++ range from (to - from)) (Some result) }
    {
        search_stretch(self, extremes, from, to)
    }

    /// The extremes with those of `count` places from `from` on whose bits in the word are set.
    fn with_some(&self, extremes: Extremes, from: usize, bits: u64, count: usize) -> Extremes
        requires before { AreWithin (Self.count self.now) (Some extremes) }
        requires few { count ≤ 64 }
        requires low { bits < 2 ^ count }
        requires within { from + count ≤ Self.count self.now }
        ensures within { AreWithin (Self.count self.now) (Some result) }
        ensures are { (places : List ℕ) → AreExtremes (Self.value self.now) places (Some extremes)
            → AreExtremes (Self.value self.now) (places ++ picked bits from count) (Some result) }
    {
        search_some(self, extremes, from, bits, count)
    }
}
