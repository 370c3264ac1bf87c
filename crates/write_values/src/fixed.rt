//! Values that a column stores as byte strings of one length (Parquet format, "Types": FIXED_LEN_BYTE_ARRAY; Encodings, "Plain").
ghost use Rattle.std.specs.Prelude.{◌≡◌, ◌+◌, ◌-◌, ◌*◌, ◌^◌, ◌<◌, ◌≤◌, ◌∷◌, [], map, length, take, drop, OnOk, IfErr};
ghost use Rattle.columns_base.specs.declared.error.Error.TheVariants.{Memory};
ghost use Rattle.columns_core.specs.View.{type_view};
ghost use Rattle.pq_tree.specs.Physical.{fixed};
ghost use Rattle.shredding.specs.Slot.{bytes};
ghost use Rattle.write_places.specs.Places.{picked, range};
ghost use Rattle.write_values.specs.Fixed.{strings_in, width_in};
ghost use Rattle.write_values.specs.Numbers.{at_place};
ghost use Rattle.write_values.specs.Rows.{AppendsRow};

use crate::row::LeafValues;
use columns_core::{DataType, Result};
use columns_leaf::FixedSizeBinaryArray;

/// The values of a leaf array by place, as a column stores them, all in so many bytes: byte strings of one length, and decimals.
pub trait FixedValues: Drop {
    ghost use Rattle.std.specs.Prelude.{◌≡◌, ◌≢◌, ◌<◌, ◌∷◌, [], ℕ, OnOk, IfErr};
    ghost use Rattle.shredding.specs.Slot.{Value};
    ghost use Rattle.columns_base.specs.declared.error.Error.TheVariants.{Memory};
    ghost use Rattle.pq_tree.specs.Physical.{Physical, boolean};
    ghost use Rattle.pq_files.specs.Layout.{plain_size};
    ghost use Rattle.write_values.specs.Rows.{AppendsRow};

    // the number of places
    ghost places: { Self → ℕ };

    // the physical type of the column
    ghost physical: { Self → Physical };

    // the bytes of each value
    ghost size: { Self → ℕ };

    // the stored value at each place
    ghost at: { Self → ℕ → Value };

    /// The number of places.
    fn len(&self) -> usize
        ensures { result ≡ places self.now };

    /// The bytes of each value.
    fn width(&self) -> usize
        ensures { result ≡ size self.now };

    /// Appends the value at a place.
    ///
    /// # Errors
    ///
    /// `Memory`.
    fn push_one(&self, out: &mut Vec<u8>, i: usize) -> Result<()>
        requires { i < places self.now }
        ensures ok { OnOk result (AppendsRow (physical self.now) out.old.items out.new.items (at self.now i ∷ [])) }
        ensures err { IfErr result (λ e. e ≡ Memory) };

    ghost sizes: { (s : Self) (v : Value) → plain_size (physical s) v ≡ size s };

    ghost in_rows: { (s : Self) → physical s ≢ boolean };
}

// Appends the values at picked places.
fn push_picked<V: FixedValues>(
    values: &V,
    out: &mut Vec<u8>,
    from: usize,
    bits: u64,
    count: usize,
) -> Result<()>
    requires few { count ≤ 64 }
    requires low { bits < 2 ^ count }
    requires within { from + count ≤ V.places values.now }
    ensures ok { OnOk result (AppendsRow (V.physical values.now) out.old.items out.new.items
        (map (V.at values.now) (picked bits from count))) }
    ensures err { IfErr result (λ e. e ≡ Memory) }
{
    let _places = values.len();
    let mut left = bits;
    while left != 0 {
        let i = left.trailing_zeros() as usize;
        values.push_one(out, from + i)?;
        left ^= 1 << i;
    }
    Ok(())
}

// Appends the values of a stretch, each by itself.
fn push_each<V: FixedValues>(values: &V, out: &mut Vec<u8>, from: usize, to: usize) -> Result<()>
    requires ordered { from ≤ to }
    requires within { to ≤ V.places values.now }
    ensures ok { OnOk result (AppendsRow (V.physical values.now) out.old.items out.new.items
        (map (V.at values.now) (range from (to - from)))) }
    ensures err { IfErr result (λ e. e ≡ Memory) }
{
    for i in from..to {
        values.push_one(out, i)?;
    }
    Ok(())
}

// Values that are spelled one by one.
#[derive(Drop)]
pub struct InFixed<V> {
    pub values: V,
}

impl<V: FixedValues> InFixed<V> {
    // These values.
    pub fn new(values: V) -> Self
        ensures { result.values ≡ values }
    {
        InFixed { values }
    }
}

impl<V: FixedValues> LeafValues for InFixed<V> {
    ghost count = { λ s. V.places s.values };

    ghost physical = { λ s. V.physical s.values };

    ghost stored = { λ s. V.at s.values };

    ghost in_a_row = { λ s. V.in_rows s.values };

    fn plain_size(&self, from: usize, to: usize) -> u128 {
        (to - from) as u128 * self.values.width() as u128
    }

    fn push_plain(&self, out: &mut Vec<u8>, from: usize, to: usize) -> Result<()> {
        push_each(&self.values, out, from, to)
    }

    fn some_size(&self, from: usize, bits: u64, places: usize) -> u128 {
        bits.count_ones() as u128 * self.values.width() as u128
    }

    fn push_some(&self, out: &mut Vec<u8>, from: usize, bits: u64, places: usize) -> Result<()> {
        push_picked(&self.values, out, from, bits, places)
    }
}

// The length of a type's byte strings, and 0 where it has none.
fn width_of(data_type: &DataType) -> usize
    ensures { result ≡ width_in (type_view data_type.now) }
{
    match data_type.base() {
        DataType::FixedSizeBinary(width) => *width,
        _ => 0,
    }
}

// So many bytes from a place on.
fn cut(all: &[u8], start: usize, size: usize) -> &[u8]
    requires { start + size ≤ length all.now }
    ensures { result.now ≡ take size (drop start all.now) }
{
    &all[start..start + size]
}

// The byte strings of an array of such.
#[derive(Clone, Copy, Drop)]
pub struct FixedStrings<'a> {
    pub array: &'a FixedSizeBinaryArray,
    pub width: usize,
    ghost is_width: { width ≡ width_in array.now.0 },
}

impl<'a> FixedStrings<'a> {
    // The byte strings of this array.
    pub fn new(array: &'a FixedSizeBinaryArray) -> Self
        ensures array { result.array.now ≡ array.now }
        ensures width { result.width ≡ width_in array.now.0 }
    {
        FixedStrings {
            array,
            width: width_of(array.data_type()),
        }
    }

    // The string at a place.
    pub fn string(&self, i: usize) -> &[u8]
        requires { i < length (strings_in self.now.array.now.0 self.now.array.now.1.0) }
        ensures is { bytes result.now ≡ at_place (strings_in self.now.array.now.0 self.now.array.now.1.0) i }
        ensures size { length result.now ≡ width_in self.now.array.now.0 }
    {
        self.array.know();
        cut(self.array.values(), i * self.width, self.width)
    }

    // The strings of a stretch, one behind the other.
    fn run(&self, from: usize, to: usize) -> &[u8]
        requires ordered { from ≤ to }
        requires within { to ≤ length (strings_in self.now.array.now.0 self.now.array.now.1.0) }
        ensures { AppendsRow (fixed (width_in self.now.array.now.0)) [] result.now
            (map (at_place (strings_in self.now.array.now.0 self.now.array.now.1.0)) (range from (to - from))) }
    {
        self.array.know();
        cut(
            self.array.values(),
            from * self.width,
            (to - from) * self.width,
        )
    }
}

impl<'a> FixedValues for FixedStrings<'a> {
    ghost use Rattle.std.specs.Prelude.{refl};
    ghost use Rattle.columns_slots.specs.Tree.{leaf_array};
    ghost use Rattle.columns_slots.specs.Slots.{tree_len};
    ghost use Rattle.pq_tree.specs.Physical.{fixed};
    ghost use Rattle.write_values.specs.Fixed.{strings_in, width_in};
    ghost use Rattle.write_values.specs.Numbers.{fixed_in_a_row};
    ghost use Rattle.write_values.specs.Stored.{stored_at};

    ghost places = { λ s. tree_len (leaf_array s.array.now.0
        (strings_in s.array.now.0 s.array.now.1.0) s.array.now.1.1) };

    ghost physical = { λ s. fixed (width_in s.array.now.0) };

    ghost size = { λ s. width_in s.array.now.0 };

    ghost at = { λ s. stored_at (leaf_array s.array.now.0 (strings_in s.array.now.0 s.array.now.1.0) s.array.now.1.1)
        (fixed (width_in s.array.now.0)) };

    ghost sizes = { λ s v. refl };

    ghost in_rows = { λ s. fixed_in_a_row (width_in s.array.now.0) };

    fn len(&self) -> usize {
        self.array.len()
    }

    fn width(&self) -> usize {
        self.width
    }

    fn push_one(&self, out: &mut Vec<u8>, i: usize) -> Result<()> {
        out.extend_from_slice(self.string(i))?;
        Ok(())
    }
}

impl<'a> LeafValues for FixedStrings<'a> {
    ghost use Rattle.columns_slots.specs.Tree.{leaf_array};
    ghost use Rattle.columns_slots.specs.Slots.{tree_len};
    ghost use Rattle.pq_tree.specs.Physical.{fixed};
    ghost use Rattle.write_values.specs.Fixed.{strings_in, width_in};
    ghost use Rattle.write_values.specs.Numbers.{fixed_in_a_row};
    ghost use Rattle.write_values.specs.Stored.{stored_at};

    ghost count = { λ s. tree_len (leaf_array s.array.now.0
        (strings_in s.array.now.0 s.array.now.1.0) s.array.now.1.1) };

    ghost physical = { λ s. fixed (width_in s.array.now.0) };

    ghost stored = { λ s. stored_at (leaf_array s.array.now.0
        (strings_in s.array.now.0 s.array.now.1.0) s.array.now.1.1) (fixed (width_in s.array.now.0)) };

    ghost in_a_row = { λ s. fixed_in_a_row (width_in s.array.now.0) };

    fn plain_size(&self, from: usize, to: usize) -> u128 {
        (to - from) as u128 * self.width as u128
    }

    fn push_plain(&self, out: &mut Vec<u8>, from: usize, to: usize) -> Result<()> {
        out.extend_from_slice(self.run(from, to))?;
        Ok(())
    }

    fn some_size(&self, from: usize, bits: u64, places: usize) -> u128 {
        bits.count_ones() as u128 * self.width as u128
    }

    fn push_some(&self, out: &mut Vec<u8>, from: usize, bits: u64, places: usize) -> Result<()> {
        push_picked(self, out, from, bits, places)
    }
}
