//! Values spelled by deltas.
ghost use Rattle.std.specs.Prelude.{◌≡◌, ◌≤◌, [], true, length, map, IfOk, IfErr};
ghost use Rattle.columns_base.specs.declared.error.Error.TheVariants.{Memory};
ghost use Rattle.columns_core.specs.Shapes.{base};
ghost use Rattle.columns_slots.specs.Slots.{tree_len, type_of};
ghost use Rattle.levels.specs.Nested.{parts_of};
ghost use Rattle.levels.specs.Ranges.{leaf_count_or};
ghost use Rattle.shredding.specs.Parts.{IsPath};
ghost use Rattle.pq_tree.specs.Physical.{int32};
ghost use Rattle.pq_files.specs.Layout.{plain_length};
ghost use Rattle.pq_files.specs.Page.{delta};
ghost use Rattle.pq_files.specs.Room.{max_size};
ghost use Rattle.write_places.specs.Places.{path_places};
ghost use Rattle.write_values.specs.Deltas.{AppendsSpelled};
ghost use Rattle.write_values.specs.Feeding.{deltas_of, has_deltas};
ghost use Rattle.write_values.specs.Leaf.{leaf_physical, leaf_tree};
ghost use Rattle.write_values.specs.Nulls.{TellsNulls};
ghost use Rattle.write_values.specs.Served.{is_served};
ghost use Rattle.write_values.specs.Stored.{stored_at};

use crate::decimals::{DecimalForm, Decimals32, Decimals64};
use crate::feeding::push_number_deltas;
use crate::leaf::{Leaf, know_order};
use crate::numbers::Numbers;
use crate::pieces::{Pieces, push_string_deltas};
use columns_core::{Offset, OffsetsBuffer, Result};
use levels::Nested;
use pq_deltas::delta_bitpacked::Encoder;

// Appends the deltas of no numbers.
fn push_no_deltas(out: Vec<u8>) -> Result<Vec<u8>>
    ensures ok { IfOk result (λ body. AppendsSpelled delta int32 out.items body.items []) }
    ensures err { IfErr result (λ e. e ≡ Memory) }
{
    let mut out = out;
    let encoder = Encoder::new(&mut out, 0)?;
    encoder.finish(&mut out)?;
    Ok(out)
}

// Appends so many values that a path reaches, spelled by deltas. They take no memory beside that of the section.
pub fn push_deltas(leaf: Leaf<'_>, nested: &[Nested], count: usize, out: Vec<u8>) -> Result<Vec<u8>>
    requires well { IsPath (parts_of nested.now) }
    requires leaf { leaf_count_or 0 (parts_of nested.now) ≤ tree_len (leaf_tree leaf) }
    requires served { is_served (base (type_of (leaf_tree leaf))) (leaf_physical leaf) ≡ true }
    requires nulls { TellsNulls (leaf_tree leaf) (parts_of nested.now) }
    requires deltas { has_deltas (leaf_physical leaf) ≡ true }
    requires count { count ≡ length (path_places (parts_of nested.now)) }
    requires small { plain_length (leaf_physical leaf) (map (stored_at (leaf_tree leaf) (leaf_physical leaf))
        (path_places (parts_of nested.now))) ≤ max_size }
    ensures ok { IfOk result (λ body. AppendsSpelled (deltas_of (leaf_physical leaf.entry))
        (leaf_physical leaf.entry) out.items body.items (map
        (stored_at (leaf_tree leaf.entry) (leaf_physical leaf.entry)) (path_places (parts_of nested.now)))) }
    ensures err { IfErr result (λ e. e ≡ Memory) }
{
    know_order(leaf);
    match leaf {
        Leaf::Int8(a) => push_number_deltas(&Numbers::<i8, i32>::new(a), nested, count, out),
        Leaf::Int16(a) => push_number_deltas(&Numbers::<i16, i32>::new(a), nested, count, out),
        Leaf::Int32(a) => push_number_deltas(&Numbers::<i32, i32>::new(a), nested, count, out),
        Leaf::UInt8(a) => push_number_deltas(&Numbers::<u8, i32>::new(a), nested, count, out),
        Leaf::UInt16(a) => push_number_deltas(&Numbers::<u16, i32>::new(a), nested, count, out),
        Leaf::UInt32(a) => push_number_deltas(&Numbers::<u32, i32>::new(a), nested, count, out),
        Leaf::WideUInt32(a) => push_number_deltas(&Numbers::<u32, i64>::new(a), nested, count, out),
        Leaf::Int64(a) => push_number_deltas(&Numbers::<i64, i64>::new(a), nested, count, out),
        Leaf::UInt64(a) => push_number_deltas(&Numbers::<u64, i64>::new(a), nested, count, out),
        Leaf::Utf8(a) => {
            a.know();
            push_string_deltas(&Pieces::new(a.offsets(), a.values()), nested, count, out)
        }
        Leaf::LargeUtf8(a) => {
            a.know();
            push_string_deltas(&Pieces::new(a.offsets(), a.values()), nested, count, out)
        }
        Leaf::Binary(a) => {
            a.know();
            push_string_deltas(&Pieces::new(a.offsets(), a.values()), nested, count, out)
        }
        Leaf::LargeBinary(a) => {
            a.know();
            push_string_deltas(&Pieces::new(a.offsets(), a.values()), nested, count, out)
        }
        Leaf::Decimal(array, DecimalForm::Int32) => {
            push_number_deltas(&Decimals32 { array }, nested, count, out)
        }
        Leaf::Decimal(array, DecimalForm::Int64) => {
            push_number_deltas(&Decimals64 { array }, nested, count, out)
        }
        Leaf::Null(_) => push_no_deltas(out),
        Leaf::Boolean(_) | Leaf::FixedSizeBinary(_) => unreachable!(),
        Leaf::Months(_) | Leaf::Days(_) => unreachable!(),
        Leaf::Decimal(_, DecimalForm::Fixed(_)) => unreachable!(),
    }
}
