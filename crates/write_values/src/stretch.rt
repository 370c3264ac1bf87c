//! The values of a leaf array from one place to another.
ghost use Rattle.std.specs.Prelude.{◌≡◌, ◌≢◌, ◌-◌, ◌≤◌, true, map, IfOk, IfErr};
ghost use Rattle.columns_base.specs.declared.error.Error.TheVariants.{Memory};
ghost use Rattle.columns_core.specs.Shapes.{base};
ghost use Rattle.columns_slots.specs.Slots.{tree_len, type_of};
ghost use Rattle.nested_paths.specs.ValueMasks.{is_valued};
ghost use Rattle.pq_tree.specs.Physical.{boolean};
ghost use Rattle.pq_files.specs.Layout.{plain_length};
ghost use Rattle.pq_files.specs.Room.{max_size};
ghost use Rattle.write_places.specs.Places.{range};
ghost use Rattle.write_values.specs.Leaf.{leaf_physical, leaf_tree};
ghost use Rattle.write_values.specs.Rows.{AppendsRow};
ghost use Rattle.write_values.specs.Served.{is_served};
ghost use Rattle.write_values.specs.Stored.{stored_at};

use crate::decimals::Decimals;
use crate::fixed::{FixedStrings, InFixed};
use crate::intervals::{Days, Months};
use crate::leaf::{Leaf, know_order};
use crate::numbers::Numbers;
use crate::row::LeafValues;
use crate::strings::{Strings, Texts};
use columns_core::Result;

/// The number of bytes of the plain spelling of the values at the places of a leaf array from `from` on to `to`, those beneath nulls too
/// (Parquet format, Encodings, "Plain"). They are no truth values and no array of nulls alone.
pub fn stretch_size(leaf: Leaf<'_>, from: usize, to: usize) -> u128
    requires ordered { from ≤ to }
    requires within { to ≤ tree_len (leaf_tree leaf) }
    requires served { is_served (base (type_of (leaf_tree leaf))) (leaf_physical leaf) ≡ true }
    requires valued { is_valued (leaf_tree leaf) ≡ true }
    requires in_a_row { leaf_physical leaf ≢ boolean }
    ensures { result ≡ plain_length (leaf_physical leaf.entry)
        (map (stored_at (leaf_tree leaf.entry) (leaf_physical leaf.entry)) (range from (to - from))) }
{
    know_order(leaf);
    match leaf {
        Leaf::Null(_) => unreachable!(),
        Leaf::Boolean(_) => unreachable!(),
        Leaf::Int8(a) => Numbers::<i8, i32>::new(a).plain_size(from, to),
        Leaf::Int16(a) => Numbers::<i16, i32>::new(a).plain_size(from, to),
        Leaf::Int32(a) => Numbers::<i32, i32>::new(a).plain_size(from, to),
        Leaf::UInt8(a) => Numbers::<u8, i32>::new(a).plain_size(from, to),
        Leaf::UInt16(a) => Numbers::<u16, i32>::new(a).plain_size(from, to),
        Leaf::UInt32(a) => Numbers::<u32, i32>::new(a).plain_size(from, to),
        Leaf::WideUInt32(a) => Numbers::<u32, i64>::new(a).plain_size(from, to),
        Leaf::Int64(a) => Numbers::<i64, i64>::new(a).plain_size(from, to),
        Leaf::UInt64(a) => Numbers::<u64, i64>::new(a).plain_size(from, to),
        Leaf::Utf8(array) => Texts { array }.plain_size(from, to),
        Leaf::LargeUtf8(array) => Texts { array }.plain_size(from, to),
        Leaf::Binary(array) => Strings { array }.plain_size(from, to),
        Leaf::LargeBinary(array) => Strings { array }.plain_size(from, to),
        Leaf::FixedSizeBinary(a) => LeafValues::plain_size(&FixedStrings::new(a), from, to),
        Leaf::Months(a) => {
            a.know();
            InFixed::new(Months::new(a)).plain_size(from, to)
        }
        Leaf::Days(array) => InFixed::new(Days { array }).plain_size(from, to),
        Leaf::Decimal(a, form) => {
            a.know();
            InFixed::new(Decimals::new(a, form)).plain_size(from, to)
        }
    }
}

// Appends the plain spelling of the values of a stretch.
fn push_run<L: LeafValues>(leaf: &L, from: usize, to: usize, out: Vec<u8>) -> Result<Vec<u8>>
    requires ordered { from ≤ to }
    requires within { to ≤ L.count leaf.now }
    requires small { plain_length (L.physical leaf.now) (map (L.stored leaf.now) (range from (to - from))) ≤ max_size }
    ensures ok { IfOk result (λ body. AppendsRow (L.physical leaf.now) out.items body.items
        (map (L.stored leaf.now) (range from (to - from)))) }
    ensures err { IfErr result (λ e. e ≡ Memory) }
{
    let mut out = out;
    leaf.push_plain(&mut out, from, to)?;
    Ok(out)
}

/// Appends the plain spelling of the values at the places of a leaf array from `from` on to `to`, those beneath nulls too, which has at most
/// 2^31 - 1 bytes. They are no truth values and no array of nulls alone.
///
/// # Errors
///
/// `Memory`.
pub fn push_stretch(leaf: Leaf<'_>, from: usize, to: usize, out: Vec<u8>) -> Result<Vec<u8>>
    requires ordered { from ≤ to }
    requires within { to ≤ tree_len (leaf_tree leaf) }
    requires served { is_served (base (type_of (leaf_tree leaf))) (leaf_physical leaf) ≡ true }
    requires valued { is_valued (leaf_tree leaf) ≡ true }
    requires in_a_row { leaf_physical leaf ≢ boolean }
    requires small { plain_length (leaf_physical leaf) (map (stored_at (leaf_tree leaf) (leaf_physical leaf))
        (range from (to - from))) ≤ max_size }
    ensures ok { IfOk result (λ body. AppendsRow (leaf_physical leaf.entry) out.items body.items
        (map (stored_at (leaf_tree leaf.entry) (leaf_physical leaf.entry)) (range from (to - from)))) }
    ensures err { IfErr result (λ e. e ≡ Memory) }
{
    know_order(leaf);
    match leaf {
        Leaf::Null(_) => unreachable!(),
        Leaf::Boolean(_) => unreachable!(),
        Leaf::Int8(a) => push_run(&Numbers::<i8, i32>::new(a), from, to, out),
        Leaf::Int16(a) => push_run(&Numbers::<i16, i32>::new(a), from, to, out),
        Leaf::Int32(a) => push_run(&Numbers::<i32, i32>::new(a), from, to, out),
        Leaf::UInt8(a) => push_run(&Numbers::<u8, i32>::new(a), from, to, out),
        Leaf::UInt16(a) => push_run(&Numbers::<u16, i32>::new(a), from, to, out),
        Leaf::UInt32(a) => push_run(&Numbers::<u32, i32>::new(a), from, to, out),
        Leaf::WideUInt32(a) => push_run(&Numbers::<u32, i64>::new(a), from, to, out),
        Leaf::Int64(a) => push_run(&Numbers::<i64, i64>::new(a), from, to, out),
        Leaf::UInt64(a) => push_run(&Numbers::<u64, i64>::new(a), from, to, out),
        Leaf::Utf8(array) => push_run(&Texts { array }, from, to, out),
        Leaf::LargeUtf8(array) => push_run(&Texts { array }, from, to, out),
        Leaf::Binary(array) => push_run(&Strings { array }, from, to, out),
        Leaf::LargeBinary(array) => push_run(&Strings { array }, from, to, out),
        Leaf::FixedSizeBinary(a) => push_run(&FixedStrings::new(a), from, to, out),
        Leaf::Months(a) => {
            a.know();
            push_run(&InFixed::new(Months::new(a)), from, to, out)
        }
        Leaf::Days(array) => push_run(&InFixed::new(Days { array }), from, to, out),
        Leaf::Decimal(a, form) => {
            a.know();
            push_run(&InFixed::new(Decimals::new(a, form)), from, to, out)
        }
    }
}
