//! Decimals that are past what their physical type holds.
ghost use Rattle.std.specs.Prelude.{◌≡◌, ◌+◌, ◌-◌, ◌^◌, ◌<◌, ◌≤◌, ◌↔◌, IsTrue, true, map};
ghost use Rattle.columns_array.specs.Boxed.{boxed};
ghost use Rattle.columns_core.specs.Natives.{value_i128};
ghost use Rattle.columns_core.specs.Shapes.{base, leaf_type};
ghost use Rattle.columns_slots.specs.Tree.{leaf_array};
ghost use Rattle.columns_slots.specs.Slots.{tree_len, type_of};
ghost use Rattle.levels.specs.Nested.{parts_of};
ghost use Rattle.levels.specs.Ranges.{leaf_count_or};
ghost use Rattle.nested_paths.specs.LeafNulls.{value_at};
ghost use Rattle.pq_tree.specs.Views.{physical_view};
ghost use Rattle.shredding.specs.Parts.{IsPath};
ghost use Rattle.write_places.specs.Places.{path_places, picked, range};
ghost use Rattle.write_values.specs.Decimals.{HasWide, any_wide, form_physical, is_wide_decimal};
ghost use Rattle.write_values.specs.Leaf.{leaf_physical, leaf_tree};
ghost use Rattle.write_values.specs.Pages.{value_column};
ghost use Rattle.write_values.specs.Served.{is_decimal, is_served};
ghost use Rattle.write_values.specs.Wide.{AreDecimals, number_at, numbers_in};

use crate::decimals::Decimals;
use crate::leaf::{Leaf, is_decimal, leaf_of};
use columns_array::ArrayBox;
use columns_base::PhysicalType;
use columns_core::Result;
use levels::Nested;
use write_places::{Taker, take_places};

// Whether the decimal at a place is past what its form holds.
fn is_wide(decimals: &Decimals<'_>, i: usize) -> bool
    requires { i < numbers_in decimals.now }
    ensures { result ≡ is_wide_decimal (form_physical decimals.now.form) (number_at decimals.now i) }
{
    decimals.array.know();
    !decimals.form.holds(&decimals.array.values()[i])
}

// Whether one of a stretch is.
fn any_in_stretch(decimals: &Decimals<'_>, from: usize, to: usize) -> bool
    requires ordered { from ≤ to }
    requires within { to ≤ numbers_in decimals.now }
    ensures { result ≡ any_wide (form_physical decimals.now.form)
        (map (number_at decimals.now) (range from (to - from))) }
{
    let mut found = false;
    for i in from..to {
        found |= is_wide(decimals, i);
    }
    found
}

// Whether one of those of so many places from one on is whose bits in the word are set.
fn any_of_picked(decimals: &Decimals<'_>, from: usize, bits: u64, count: usize) -> bool
    requires few { count ≤ 64 }
    requires low { bits < 2 ^ count }
    requires within { from + count ≤ numbers_in decimals.now }
    ensures { result ≡ any_wide (form_physical decimals.now.form)
        (map (number_at decimals.now) (picked bits from count)) }
{
    let _places = decimals.array.len();
    let mut found = false;
    let mut left = bits;
    while left != 0 {
        let i = left.trailing_zeros() as usize;
        found |= is_wide(decimals, from + i);
        left ^= 1 << i;
    }
    found
}

// Looks for decimals that are past what their form holds.
#[derive(Drop)]
struct Finding<'a> {
    decimals: Decimals<'a>,
    found: bool,
}

impl<'a> Taker for Finding<'a> {
    ghost use Rattle.std.specs.Prelude.{◌≡◌, ◌||◌, ℕ, List, map, refl};
    ghost use Rattle.write_values.specs.Decimals.{any_wide, form_physical};
    ghost use Rattle.write_values.specs.Wide.{number_at, numbers_in, found_none};

    ghost limit = { λ s. numbers_in s.decimals };

    ghost has = { λ a b places. (b.decimals ≡ a.decimals) × (b.found
        ≡ (a.found || any_wide (form_physical a.decimals.form) (map (number_at a.decimals) places))) };

    ghost sound = { λ s. Unit {0} };

    ghost accepts = { λ s places. Unit {0} };

    ghost refuses = { λ s e. ⊥ };

    ghost none = { λ s. (refl, found_none s.found) };

    ghost front = { λ s xs ys h. tt };

    ghost back = { λ s xs ys h. tt };

    fn take(&mut self, from: usize, to: usize) -> Result<()> {
        self.found |= any_in_stretch(&self.decimals, from, to);
        Ok(())
    }

    fn take_some(&mut self, from: usize, bits: u64, count: usize) -> Result<()> {
        self.found |= any_of_picked(&self.decimals, from, bits, count);
        Ok(())
    }
}

// Whether one of the decimals that a path reaches is past what its form holds.
fn find_wide(decimals: Decimals<'_>, nested: &[Nested]) -> bool
    requires well { IsPath (parts_of nested.now) }
    requires leaf { leaf_count_or 0 (parts_of nested.now) ≤ numbers_in decimals }
    ensures { result ≡ any_wide (form_physical decimals.entry.form)
        (map (number_at decimals.entry) (path_places (parts_of nested.now))) }
{
    let mut finding = Finding {
        decimals,
        found: false,
    };
    match take_places(&mut finding, nested) {
        Ok(()) => finding.found,
        Err(_) => unreachable!(),
    }
}

// Callers learn that leaves of no other kind have decimals.
fn know_decimals(leaf: Leaf<'_>)
    requires { is_decimal (base (type_of (leaf_tree leaf))) ≡ true }
    ensures { AreDecimals leaf.entry }
{
    match leaf {
        Leaf::Null(a) => a.know(),
        Leaf::Boolean(a) => a.know(),
        Leaf::Int8(a) => a.know(),
        Leaf::Int16(a) => a.know(),
        Leaf::Int32(a) => a.know(),
        Leaf::UInt8(a) => a.know(),
        Leaf::UInt16(a) => a.know(),
        Leaf::UInt32(a) => a.know(),
        Leaf::WideUInt32(a) => a.know(),
        Leaf::Int64(a) => a.know(),
        Leaf::UInt64(a) => a.know(),
        Leaf::Utf8(a) => a.know(),
        Leaf::LargeUtf8(a) => a.know(),
        Leaf::Binary(a) => a.know(),
        Leaf::LargeBinary(a) => a.know(),
        Leaf::FixedSizeBinary(a) => a.know(),
        Leaf::Months(a) => a.know(),
        Leaf::Days(a) => a.know(),
        Leaf::Decimal(a, _) => a.know(),
    }
}

// Whether one of the values that a path reaches is past what its physical type holds. They are decimals.
fn leaf_has_wide(leaf: Leaf<'_>, nested: &[Nested]) -> bool
    requires well { IsPath (parts_of nested.now) }
    requires leaf { leaf_count_or 0 (parts_of nested.now) ≤ tree_len (leaf_tree leaf) }
    requires served { is_served (base (type_of (leaf_tree leaf))) (leaf_physical leaf) ≡ true }
    requires decimals { is_decimal (base (type_of (leaf_tree leaf))) ≡ true }
    ensures { result ≡ any_wide (leaf_physical leaf.entry) (map (value_at (leaf_tree leaf.entry))
        (path_places (parts_of nested.now))) }
{
    know_decimals(leaf);
    match leaf {
        Leaf::Decimal(array, form) => {
            array.know();
            find_wide(Decimals::new(array, form), nested)
        }
        _ => unreachable!(),
    }
}

/// Whether one of the values that a path reaches in its leaf array is a decimal past what the physical type holds, under which values of the
/// array's type are written: a number of more than 32 or 64 bits, or of more than so many bytes, in two's complement (Parquet format,
/// LogicalTypes, "DECIMAL"). It takes no memory. The path is well formed, and its nulls are those of its masks.
pub fn has_wide(array: &ArrayBox, physical_type: PhysicalType, nested: &[Nested]) -> bool
    requires well { IsPath (parts_of nested.now) }
    requires leaf { tree_len (boxed array.now) ≡ leaf_count_or 0 (parts_of nested.now) }
    requires served { is_served (base (type_of (boxed array.now))) (physical_view physical_type) ≡ true }
    ensures { IsTrue result ↔ HasWide (leaf_type (type_of (boxed array.now))) (physical_view physical_type)
        (value_column (boxed array.now) nested.now) }
{
    if !is_decimal(array.data_type()) {
        return false;
    }
    match leaf_of(array, physical_type) {
        Some(leaf) => leaf_has_wide(leaf, nested),
        None => unreachable!(),
    }
}
