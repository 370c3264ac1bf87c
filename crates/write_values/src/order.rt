//! The values of leaf arrays in order (Parquet format, `ColumnOrder`).
ghost use Rattle.std.specs.Prelude.{◌≡◌, ◌<◌, ◌≤◌, ◌==◌, ℕ, ◌≤ℤ◌, length, map, slice_index_or, IsTrue, false, All};
ghost use Rattle.std.specs.Int.{bit_at};
ghost use Rattle.page_statistics.specs.Between.{AreAllBetween};
ghost use Rattle.write_values.specs.Numbers.{at_place};
ghost use Rattle.columns_core.specs.Natives.{within_signed};
ghost use Rattle.shredding.specs.Slot.{bytes, truth};
ghost use Rattle.pq_files.specs.Statistics.{IsUpTo};
ghost use Rattle.write_values.specs.Decimals.{IsForm, form_physical, held_decimal};

use crate::decimals::{DecimalForm, Decimals, push_decimal};
use crate::fixed::FixedStrings;
use crate::fronts::{with_picked, with_strings};
use crate::numbers::{AlwaysStored, Numbers, StoredNumber, block_end};
use crate::strings::{Strings, Texts, string_at};
use columns_core::{Bitmap, Offset, OffsetsBuffer, Result};
use columns_leaf::BooleanArray;
use columns_native::OrderedNative;
use page_statistics::{Extremes, OrderedLeaf, SearchedLeaf};
use std::alloc::Global;
use std::cmp::Ordering;
use write_places::full_word;
use write_statistics::ord_binary;

// Whether no number is below one or above another. All are looked at, so that several are at once.
fn lie_between<T: OrderedNative>(numbers: &[T], low: &T, high: &T) -> bool
    ensures { IsTrue result → All (λ x. (T.ordinal low.now ≤ℤ T.ordinal x)
        × (T.ordinal x ≤ℤ T.ordinal high.now)) numbers.now }
{
    let mut are_past = false;
    for number in numbers {
        are_past |= number.is_less(low);
        are_past |= high.is_less(number);
    }
    !are_past
}

impl<'a, T: AlwaysStored<P> + OrderedNative, P: StoredNumber> OrderedLeaf for Numbers<'a, T, P> {
    ghost use Rattle.std.specs.Prelude.{map};
    ghost use Rattle.columns_core.specs.Shapes.{base, leaf_type};
    ghost use Rattle.columns_slots.specs.Tree.{leaf_array};
    ghost use Rattle.columns_slots.specs.Slots.{tree_len};
    ghost use Rattle.nested_paths.specs.LeafNulls.{value_at};
    ghost use Rattle.pq_tree.specs.Views.{physical_view};

    ghost count = { λ s. tree_len (leaf_array s.array.now.0
        (map (T.value (base s.array.now.0)) s.array.now.1.0) s.array.now.1.1) };

    ghost kind = { λ s. leaf_type (base s.array.now.0) };

    ghost physical = { λ s. physical_view P.physical };

    ghost value = { λ s. value_at (leaf_array s.array.now.0
        (map (T.value (base s.array.now.0)) s.array.now.1.0) s.array.now.1.1) };

    fn len(&self) -> usize {
        self.array.len()
    }

    fn is_less(&self, i: usize, j: usize) -> bool {
        self.array.know();
        let values = self.array.values();
        values[i].is_less(&values[j])
    }

    fn are_between(&self, from: usize, to: usize, least: usize, greatest: usize) -> bool {
        self.array.know();
        let values = self.array.values();
        lie_between(&values[from..to], &values[least], &values[greatest])
    }

    fn bound(&self, alloc: Global, i: usize) -> Result<Vec<u8>> {
        self.array.know();
        let stored: P = self.array.values()[i].to_stored();
        let mut text = Vec::new(alloc);
        stored.push_le_bytes(&mut text)?;
        Ok(text)
    }
}

// Whether a string goes before another.
pub fn is_before(a: &[u8], b: &[u8]) -> bool
    ensures less { IsTrue result → IsUpTo (bytes a.now) (bytes b.now) }
    ensures other { result ≡ false → IsUpTo (bytes b.now) (bytes a.now) }
{
    if let ([first, ..], [other, ..]) = (a, b)
        && first != other
    {
        return first < other;
    }
    match ord_binary(a, b) {
        Ordering::Less => true,
        Ordering::Equal => false,
        Ordering::Greater => false,
    }
}

impl<'a, O: Offset> OrderedLeaf for Texts<'a, O> {
    ghost use Rattle.columns_core.specs.Shapes.{base, leaf_type};
    ghost use Rattle.columns_slots.specs.Bytes.{pieces_values};
    ghost use Rattle.columns_slots.specs.Tree.{leaf_array};
    ghost use Rattle.columns_slots.specs.Slots.{tree_len};
    ghost use Rattle.nested_paths.specs.LeafNulls.{value_at};
    ghost use Rattle.pq_tree.specs.Physical.{byte_array};

    ghost count = { λ s. tree_len (leaf_array s.array.now.0
        (pieces_values s.array.now.1.0 s.array.now.1.1.0) s.array.now.1.1.1) };

    ghost kind = { λ s. leaf_type (base s.array.now.0) };

    ghost physical = { λ s. byte_array };

    ghost value = { λ s. value_at (leaf_array s.array.now.0
        (pieces_values s.array.now.1.0 s.array.now.1.1.0) s.array.now.1.1.1) };

    fn len(&self) -> usize {
        self.array.know();
        self.array.len()
    }

    fn is_less(&self, i: usize, j: usize) -> bool {
        self.array.know();
        let (offsets, all) = (self.array.offsets(), self.array.values());
        is_before(string_at(offsets, all, i), string_at(offsets, all, j))
    }

    fn are_between(&self, from: usize, to: usize, least: usize, greatest: usize) -> bool {
        false
    }

    fn bound(&self, alloc: Global, i: usize) -> Result<Vec<u8>> {
        self.array.know();
        let text = Vec::from_slice(
            alloc,
            string_at(self.array.offsets(), self.array.values(), i),
        )?;
        Ok(text)
    }
}

impl<'a, O: Offset> SearchedLeaf for Texts<'a, O> {
    fn with_stretch(&self, extremes: Extremes, from: usize, to: usize) -> Extremes {
        self.array.know();
        let (offsets, all) = (self.array.offsets(), self.array.values());
        with_strings(offsets, all, extremes, from, to)
    }

    fn with_some(&self, extremes: Extremes, from: usize, bits: u64, count: usize) -> Extremes {
        self.array.know();
        let (offsets, all) = (self.array.offsets(), self.array.values());
        with_picked(offsets, all, extremes, from, bits, count)
    }
}

impl<'a, O: Offset> OrderedLeaf for Strings<'a, O> {
    ghost use Rattle.columns_core.specs.Shapes.{base, leaf_type};
    ghost use Rattle.columns_slots.specs.Bytes.{pieces_values};
    ghost use Rattle.columns_slots.specs.Tree.{leaf_array};
    ghost use Rattle.columns_slots.specs.Slots.{tree_len};
    ghost use Rattle.nested_paths.specs.LeafNulls.{value_at};
    ghost use Rattle.pq_tree.specs.Physical.{byte_array};

    ghost count = { λ s. tree_len (leaf_array s.array.now.0
        (pieces_values s.array.now.1.0 s.array.now.1.1.0) s.array.now.1.1.1) };

    ghost kind = { λ s. leaf_type (base s.array.now.0) };

    ghost physical = { λ s. byte_array };

    ghost value = { λ s. value_at (leaf_array s.array.now.0
        (pieces_values s.array.now.1.0 s.array.now.1.1.0) s.array.now.1.1.1) };

    fn len(&self) -> usize {
        self.array.know();
        self.array.len()
    }

    fn is_less(&self, i: usize, j: usize) -> bool {
        self.array.know();
        let (offsets, all) = (self.array.offsets(), self.array.values());
        is_before(string_at(offsets, all, i), string_at(offsets, all, j))
    }

    fn are_between(&self, from: usize, to: usize, least: usize, greatest: usize) -> bool {
        false
    }

    fn bound(&self, alloc: Global, i: usize) -> Result<Vec<u8>> {
        self.array.know();
        let text = Vec::from_slice(
            alloc,
            string_at(self.array.offsets(), self.array.values(), i),
        )?;
        Ok(text)
    }
}

impl<'a, O: Offset> SearchedLeaf for Strings<'a, O> {
    fn with_stretch(&self, extremes: Extremes, from: usize, to: usize) -> Extremes {
        self.array.know();
        let (offsets, all) = (self.array.offsets(), self.array.values());
        with_strings(offsets, all, extremes, from, to)
    }

    fn with_some(&self, extremes: Extremes, from: usize, bits: u64, count: usize) -> Extremes {
        self.array.know();
        let (offsets, all) = (self.array.offsets(), self.array.values());
        with_picked(offsets, all, extremes, from, bits, count)
    }
}

// So many times this bit, from the lowest one on.
fn repeated_bit(value: bool, count: usize) -> u64
    requires some { 0 < count }
    requires few { count ≤ 64 }
    ensures { (i : ℕ) → i < count → (bit_at result i == 1) ≡ value }
{
    if value { full_word(count) } else { 0 }
}

// Whether the truth values from one place on to another are all this one.
fn are_all(values: &Bitmap, from: usize, to: usize, value: bool) -> bool
    requires ordered { from ≤ to }
    requires within { to ≤ length values.now }
    ensures { IsTrue result → (i : ℕ) → from ≤ i → i < to → slice_index_or values.now i false ≡ value }
{
    let mut at = from;
    while at < to {
        let end = block_end(at, to);
        if values.word_at(at, end - at) != repeated_bit(value, end - at) {
            return false;
        }
        at = end;
    }
    true
}

// Whether no truth value from one place on to another is below the one at `least` or above the one at `greatest`.
fn truths_between(values: &Bitmap, from: usize, to: usize, least: usize, greatest: usize) -> bool
    requires ordered { from ≤ to }
    requires within { to ≤ length values.now }
    requires low { least < length values.now }
    requires high { greatest < length values.now }
    ensures { IsTrue result → AreAllBetween (at_place (map truth values.now)) from to least greatest }
{
    let low = values.get_bit(least);
    let high = values.get_bit(greatest);
    if low == high {
        are_all(values, from, to, low)
    } else {
        high
    }
}

// The truth values of an array: false goes before true.
#[derive(Clone, Copy, Drop)]
pub struct OrderedTruths<'a> {
    pub array: &'a BooleanArray,
}

impl<'a> OrderedLeaf for OrderedTruths<'a> {
    ghost use Rattle.std.specs.Prelude.{map};
    ghost use Rattle.shredding.specs.Slot.{truth};
    ghost use Rattle.columns_core.specs.Shapes.{base, leaf_type};
    ghost use Rattle.columns_slots.specs.Tree.{leaf_array};
    ghost use Rattle.columns_slots.specs.Slots.{tree_len};
    ghost use Rattle.nested_paths.specs.LeafNulls.{value_at};
    ghost use Rattle.pq_tree.specs.Physical.{boolean};

    ghost count = { λ s. tree_len (leaf_array s.array.now.0 (map truth s.array.now.1.0) s.array.now.1.1) };

    ghost kind = { λ s. leaf_type (base s.array.now.0) };

    ghost physical = { λ s. boolean };

    ghost value = { λ s. value_at (leaf_array s.array.now.0 (map truth s.array.now.1.0) s.array.now.1.1) };

    fn len(&self) -> usize {
        self.array.len()
    }

    fn is_less(&self, i: usize, j: usize) -> bool {
        let values = self.array.values();
        !values.get_bit(i) && values.get_bit(j)
    }

    fn are_between(&self, from: usize, to: usize, least: usize, greatest: usize) -> bool {
        truths_between(self.array.values(), from, to, least, greatest)
    }

    fn bound(&self, alloc: Global, i: usize) -> Result<Vec<u8>> {
        self.array.know();
        let byte = u8::from(self.array.values().get_bit(i));
        let text = vec![in alloc; byte]?;
        Ok(text)
    }
}

impl<'a> OrderedLeaf for FixedStrings<'a> {
    ghost use Rattle.columns_core.specs.Shapes.{base, leaf_type};
    ghost use Rattle.columns_slots.specs.Tree.{leaf_array};
    ghost use Rattle.columns_slots.specs.Slots.{tree_len};
    ghost use Rattle.nested_paths.specs.LeafNulls.{value_at};
    ghost use Rattle.pq_tree.specs.Physical.{fixed};
    ghost use Rattle.write_values.specs.Fixed.{strings_in, width_in};

    ghost count = { λ s. tree_len (leaf_array s.array.now.0
        (strings_in s.array.now.0 s.array.now.1.0) s.array.now.1.1) };

    ghost kind = { λ s. leaf_type (base s.array.now.0) };

    ghost physical = { λ s. fixed (width_in s.array.now.0) };

    ghost value = { λ s. value_at (leaf_array s.array.now.0
        (strings_in s.array.now.0 s.array.now.1.0) s.array.now.1.1) };

    fn len(&self) -> usize {
        self.array.len()
    }

    fn is_less(&self, i: usize, j: usize) -> bool {
        is_before(self.string(i), self.string(j))
    }

    fn are_between(&self, from: usize, to: usize, least: usize, greatest: usize) -> bool {
        false
    }

    fn bound(&self, alloc: Global, i: usize) -> Result<Vec<u8>> {
        self.array.know();
        let text = Vec::from_slice(alloc, self.string(i))?;
        Ok(text)
    }
}

// The number where a column holds it, else 0.
fn held_decimal(form: DecimalForm, number: &i128) -> i128
    requires { IsForm form }
    ensures is { result ≡ held_decimal (form_physical form) (within_signed 128 number.now) }
    ensures within { within_signed 128 result ≡ held_decimal (form_physical form) (within_signed 128 number.now) }
{
    if form.holds(number) { *number } else { 0 }
}

// The decimals that a column holds, and 0 in the place of those that it does not.
impl<'a> OrderedLeaf for Decimals<'a> {
    ghost use Rattle.std.specs.Prelude.{map};
    ghost use Rattle.columns_core.specs.Shapes.{base, leaf_type};
    ghost use Rattle.write_values.specs.Decimals.{form_physical, held_value};
    ghost use Rattle.write_values.specs.Numbers.{at_place};
    ghost use Rattle.write_values.specs.Wide.{numbers_in};

    ghost count = { λ s. numbers_in s };

    ghost kind = { λ s. leaf_type (base s.array.now.0) };

    ghost physical = { λ s. form_physical s.form };

    ghost value = { λ s. at_place (map (held_value (form_physical s.form)) s.array.now.1.0) };

    fn len(&self) -> usize {
        self.array.len()
    }

    fn is_less(&self, i: usize, j: usize) -> bool {
        self.array.know();
        let values = self.array.values();
        held_decimal(self.form, &values[i]) < held_decimal(self.form, &values[j])
    }

    fn are_between(&self, from: usize, to: usize, least: usize, greatest: usize) -> bool {
        false
    }

    fn bound(&self, alloc: Global, i: usize) -> Result<Vec<u8>> {
        self.array.know();
        let number = held_decimal(self.form, &self.array.values()[i]);
        let mut text = Vec::new(alloc);
        push_decimal(&mut text, &number, self.form)?;
        Ok(text)
    }
}

impl<'a, T: AlwaysStored<P> + OrderedNative, P: StoredNumber> SearchedLeaf for Numbers<'a, T, P> {}

impl<'a> SearchedLeaf for OrderedTruths<'a> {}

impl<'a> SearchedLeaf for FixedStrings<'a> {}

impl<'a> SearchedLeaf for Decimals<'a> {}
