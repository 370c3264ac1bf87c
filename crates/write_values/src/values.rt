//! Measuring and spelling the values of a leaf array.
ghost use Rattle.std.specs.Prelude.{◌≡◌, ◌≤◌, true, false, map, MatchOption, IfOk, IfErr};
ghost use Rattle.columns_base.specs.declared.error.Error.TheVariants.{Memory};
ghost use Rattle.shredding.specs.Parts.{IsPath};
ghost use Rattle.columns_array.specs.Boxed.{boxed};
ghost use Rattle.columns_core.specs.Shapes.{base};
ghost use Rattle.columns_slots.specs.Slots.{tree_len, type_of};
ghost use Rattle.levels.specs.Nested.{parts_of};
ghost use Rattle.levels.specs.Ranges.{leaf_count_or};
ghost use Rattle.pq_tree.specs.Views.{physical_view};
ghost use Rattle.pq_files.specs.Layout.{plain_length};
ghost use Rattle.pq_files.specs.Room.{max_size};
ghost use Rattle.write_places.specs.Places.{path_places};
ghost use Rattle.write_values.specs.Leaf.{leaf_tree, leaf_physical};
ghost use Rattle.write_values.specs.Nulls.{TellsNulls};
ghost use Rattle.write_values.specs.Rows.{AppendsPlain, Measures};
ghost use Rattle.write_values.specs.Served.{is_served};
ghost use Rattle.write_values.specs.Stored.{stored_at};

use crate::decimals::Decimals;
use crate::fixed::{FixedStrings, InFixed};
use crate::intervals::{Days, Months};
use crate::leaf::{Leaf, know_order, leaf_of};
use crate::measure::measure_row;
use crate::measured::Measured;
use crate::numbers::{Numbers, measure_numbers};
use crate::plain::push_row;
use crate::strings::{Strings, Texts};
use crate::truths::{measure_truths, push_truths};
use columns_array::ArrayBox;
use columns_base::PhysicalType;
use columns_core::Result;
use levels::Nested;
use std::alloc::Global;

// The values that a path reaches, and the bytes of their plain spelling.
pub fn measure(leaf: Leaf<'_>, nested: &[Nested]) -> Measured
    requires well { IsPath (parts_of nested.now) }
    requires leaf { leaf_count_or 0 (parts_of nested.now) ≤ tree_len (leaf_tree leaf) }
    requires served { is_served (base (type_of (leaf_tree leaf))) (leaf_physical leaf) ≡ true }
    requires nulls { TellsNulls (leaf_tree leaf) (parts_of nested.now) }
    ensures { Measures (leaf_physical leaf.entry) (tree_len (leaf_tree leaf.entry))
        (stored_at (leaf_tree leaf.entry) (leaf_physical leaf.entry)) (path_places (parts_of nested.now)) result }
{
    know_order(leaf);
    match leaf {
        Leaf::Boolean(array) => measure_truths(array, nested),
        Leaf::Int8(a) => measure_numbers(&Numbers::<i8, i32>::new(a), nested),
        Leaf::Int16(a) => measure_numbers(&Numbers::<i16, i32>::new(a), nested),
        Leaf::Int32(a) => measure_numbers(&Numbers::<i32, i32>::new(a), nested),
        Leaf::UInt8(a) => measure_numbers(&Numbers::<u8, i32>::new(a), nested),
        Leaf::UInt16(a) => measure_numbers(&Numbers::<u16, i32>::new(a), nested),
        Leaf::UInt32(a) => measure_numbers(&Numbers::<u32, i32>::new(a), nested),
        Leaf::WideUInt32(a) => measure_numbers(&Numbers::<u32, i64>::new(a), nested),
        Leaf::Int64(a) => measure_numbers(&Numbers::<i64, i64>::new(a), nested),
        Leaf::UInt64(a) => measure_numbers(&Numbers::<u64, i64>::new(a), nested),
        Leaf::Utf8(array) => measure_row(&Texts { array }, nested),
        Leaf::LargeUtf8(array) => measure_row(&Texts { array }, nested),
        Leaf::Binary(array) => measure_row(&Strings { array }, nested),
        Leaf::LargeBinary(array) => measure_row(&Strings { array }, nested),
        Leaf::FixedSizeBinary(a) => measure_row(&FixedStrings::new(a), nested),
        Leaf::Months(a) => {
            a.know();
            measure_row(&InFixed::new(Months::new(a)), nested)
        }
        Leaf::Days(array) => measure_row(&InFixed::new(Days { array }), nested),
        Leaf::Decimal(a, form) => {
            a.know();
            measure_row(&InFixed::new(Decimals::new(a, form)), nested)
        }
        Leaf::Null(_) => Measured {
            values: 0,
            plain: 0,
        },
    }
}

// Appends the plain spelling of the values that a path reaches, which has at most 2^31 - 1 bytes.
pub fn push_values(
    alloc: Global,
    leaf: Leaf<'_>,
    nested: &[Nested],
    out: Vec<u8>,
) -> Result<Vec<u8>>
    requires well { IsPath (parts_of nested.now) }
    requires leaf { leaf_count_or 0 (parts_of nested.now) ≤ tree_len (leaf_tree leaf) }
    requires served { is_served (base (type_of (leaf_tree leaf))) (leaf_physical leaf) ≡ true }
    requires nulls { TellsNulls (leaf_tree leaf) (parts_of nested.now) }
    requires small { plain_length (leaf_physical leaf) (map (stored_at (leaf_tree leaf) (leaf_physical leaf))
        (path_places (parts_of nested.now))) ≤ max_size }
    ensures ok { IfOk result (λ body. AppendsPlain (leaf_physical leaf.entry) out.items body.items
        (map (stored_at (leaf_tree leaf.entry) (leaf_physical leaf.entry)) (path_places (parts_of nested.now)))) }
    ensures err { IfErr result (λ e. e ≡ Memory) }
{
    know_order(leaf);
    match leaf {
        Leaf::Boolean(array) => push_truths(alloc, array, nested, out),
        Leaf::Int8(a) => push_row(&Numbers::<i8, i32>::new(a), nested, out),
        Leaf::Int16(a) => push_row(&Numbers::<i16, i32>::new(a), nested, out),
        Leaf::Int32(a) => push_row(&Numbers::<i32, i32>::new(a), nested, out),
        Leaf::UInt8(a) => push_row(&Numbers::<u8, i32>::new(a), nested, out),
        Leaf::UInt16(a) => push_row(&Numbers::<u16, i32>::new(a), nested, out),
        Leaf::UInt32(a) => push_row(&Numbers::<u32, i32>::new(a), nested, out),
        Leaf::WideUInt32(a) => push_row(&Numbers::<u32, i64>::new(a), nested, out),
        Leaf::Int64(a) => push_row(&Numbers::<i64, i64>::new(a), nested, out),
        Leaf::UInt64(a) => push_row(&Numbers::<u64, i64>::new(a), nested, out),
        Leaf::Utf8(array) => push_row(&Texts { array }, nested, out),
        Leaf::LargeUtf8(array) => push_row(&Texts { array }, nested, out),
        Leaf::Binary(array) => push_row(&Strings { array }, nested, out),
        Leaf::LargeBinary(array) => push_row(&Strings { array }, nested, out),
        Leaf::FixedSizeBinary(a) => push_row(&FixedStrings::new(a), nested, out),
        Leaf::Months(a) => {
            a.know();
            push_row(&InFixed::new(Months::new(a)), nested, out)
        }
        Leaf::Days(array) => push_row(&InFixed::new(Days { array }), nested, out),
        Leaf::Decimal(a, form) => {
            a.know();
            push_row(&InFixed::new(Decimals::new(a, form)), nested, out)
        }
        Leaf::Null(_) => Ok(out),
    }
}

/// The number of the values that a path reaches in its leaf array and that of the bytes of their plain spelling, each up to the largest
/// number, and `None` exactly where values of the array's type are not written under the physical type. It takes no memory. The path is well
/// formed, and its nulls are those of its masks: over an array of nulls alone it reaches none.
pub fn measure_values(
    array: &ArrayBox,
    physical_type: PhysicalType,
    nested: &[Nested],
) -> Option<Measured>
    requires well { IsPath (parts_of nested.now) }
    requires leaf { tree_len (boxed array.now) ≡ leaf_count_or 0 (parts_of nested.now) }
    requires nulls { TellsNulls (boxed array.now) (parts_of nested.now) }
    ensures { MatchOption result (is_served (base (type_of (boxed array.now))) (physical_view physical_type) ≡ false)
        (Measures (physical_view physical_type) (tree_len (boxed array.now))
        (stored_at (boxed array.now) (physical_view physical_type)) (path_places (parts_of nested.now))) }
{
    match leaf_of(array, physical_type) {
        Some(leaf) => Some(measure(leaf, nested)),
        None => None,
    }
}
