//! What a leaf array has at its places, as a column stores it.
use columns_core::Result;

/// The values of a leaf array as a column stores them, spelled one behind the other: what differs from one leaf type to the next. Truth
/// values, which are spelled as bits, are none of these.
pub trait LeafValues: Drop {
    ghost use Rattle.std.specs.Prelude.{◌≡◌, ◌≢◌, ◌+◌, ◌-◌, ◌^◌, ◌<◌, ◌≤◌, ℕ, List, map, OnOk, IfErr};
    ghost use Rattle.shredding.specs.Slot.{Value};
    ghost use Rattle.pq_tree.specs.Physical.{Physical, boolean};
    ghost use Rattle.pq_files.specs.Layout.{plain_length};
    ghost use Rattle.pq_files.specs.Room.{max_size};
    ghost use Rattle.columns_base.specs.declared.error.Error.TheVariants.{Memory};
    ghost use Rattle.write_places.specs.Places.{range, picked};
    ghost use Rattle.write_values.specs.Rows.{AppendsRow};

    // the number of places
    ghost count: { Self → ℕ };

    // the physical type of the column
    ghost physical: { Self → Physical };

    // the stored value at each place
    ghost stored: { Self → ℕ → Value };

    /// The number of bytes of the plain spelling of the values at the places from `from` on to `to`.
    fn plain_size(&self, from: usize, to: usize) -> u128
        requires ordered { from ≤ to }
        requires within { to ≤ count self.now }
        ensures { result ≡ plain_length (physical self.now) (map (stored self.now) (range from (to - from))) };

    /// Appends the plain spelling of the values at the places from `from` on to `to`, which has at most 2^31 - 1 bytes.
    ///
    /// # Errors
    ///
    /// `Memory`.
    fn push_plain(&self, out: &mut Vec<u8>, from: usize, to: usize) -> Result<()>
        requires ordered { from ≤ to }
        requires within { to ≤ count self.now }
        requires small { plain_length (physical self.now) (map (stored self.now) (range from (to - from))) ≤ max_size }
        ensures ok { OnOk result (AppendsRow (physical self.now) out.old.items out.new.items
            (map (stored self.now) (range from (to - from)))) }
        ensures err { IfErr result (λ e. e ≡ Memory) };

    /// The number of bytes of the plain spelling of the values at those of so many places from `from` on whose bits in the word are set, the
    /// lowest bit first.
    fn some_size(&self, from: usize, bits: u64, places: usize) -> u128
        requires few { places ≤ 64 }
        requires low { bits < 2 ^ places }
        requires within { from + places ≤ count self.now }
        ensures { result ≡ plain_length (physical self.now) (map (stored self.now) (picked bits from places)) };

    /// Appends the plain spelling of the values at those of so many places from `from` on whose bits in the word are set, which has at most
    /// 2^31 - 1 bytes.
    ///
    /// # Errors
    ///
    /// `Memory`.
    fn push_some(&self, out: &mut Vec<u8>, from: usize, bits: u64, places: usize) -> Result<()>
        requires few { places ≤ 64 }
        requires low { bits < 2 ^ places }
        requires within { from + places ≤ count self.now }
        requires small { plain_length (physical self.now) (map (stored self.now) (picked bits from places)) ≤ max_size }
        ensures ok { OnOk result (AppendsRow (physical self.now) out.old.items out.new.items
            (map (stored self.now) (picked bits from places))) }
        ensures err { IfErr result (λ e. e ≡ Memory) };

    ghost in_a_row: { (s : Self) → physical s ≢ boolean };
}
