//! Which entries a dictionary page has.
ghost use Rattle.std.specs.Prelude.{◌≡◌, false, MatchOption};
ghost use Rattle.columns_array.specs.Boxed.{boxed};
ghost use Rattle.columns_core.specs.Shapes.{base};
ghost use Rattle.columns_core.specs.View.{type_view};
ghost use Rattle.columns_slots.specs.Slots.{type_of};
ghost use Rattle.columns_slots.specs.Types.{is_null_type};
ghost use Rattle.pq_tree.specs.Views.{physical_view};
ghost use Rattle.dictionary_pages.specs.Entries.{is_entry, is_fixed_entry};
ghost use Rattle.dictionary_pages.specs.Leaves.{IsEntryLeaf};

use columns_array::ArrayBox;
use columns_base::PhysicalType;
use columns_core::DataType;
use write_values::{Leaf, is_decimal, is_served, leaf_of};

// Whether values of the type are fixed byte strings of this length, which pages may have.
fn is_fixed_entry(data_type: &DataType, length: usize) -> bool
    ensures { result ≡ is_fixed_entry (base (type_view data_type.now)) length }
{
    match data_type.base() {
        DataType::FixedSizeBinary(size) => {
            1 <= *size && *size <= 2_147_483_647 && *size == length
        }
        _ => false,
    }
}

// Whether the type has nulls alone.
fn is_null_type(data_type: &DataType) -> bool
    ensures { result ≡ is_null_type (base (type_view data_type.now)) }
{
    matches!(data_type.base(), DataType::Null)
}

/// Whether entries of the type are written under the physical type: whole numbers, dates, times, durations, timestamps, texts, byte strings, and
/// fixed ones of 1 to 2^31 - 1 bytes (Parquet format, "Types" and LogicalTypes).
#[tactic(auto, using(crate::proofs::EntryTypes::no_boolean, crate::proofs::EntryTypes::no_int96, crate::proofs::EntryTypes::no_float, crate::proofs::EntryTypes::no_double, crate::proofs::EntryTypes::entry_int32, crate::proofs::EntryTypes::entry_int64, crate::proofs::EntryTypes::entry_byte_array, crate::proofs::EntryTypes::entry_fixed))]
pub fn is_entry(data_type: &DataType, physical_type: PhysicalType) -> bool
    ensures { result ≡ is_entry (base (type_view data_type.now)) (physical_view physical_type) }
{
    let is_plain = is_served(data_type, physical_type) && !is_decimal(data_type);
    match physical_type {
        PhysicalType::Int32 => is_plain && !is_null_type(data_type),
        PhysicalType::Int64 => is_plain,
        PhysicalType::ByteArray => is_plain,
        PhysicalType::FixedLenByteArray(length) => is_fixed_entry(data_type, length),
        PhysicalType::Boolean => false,
        PhysicalType::Int96 => false,
        PhysicalType::Float => false,
        PhysicalType::Double => false,
    }
}

// The array as one of entries that are written under the physical type, and `None` where they are not.
#[tactic(auto, using(crate::proofs::Named::entries_valued))]
pub fn entries_leaf(entries: &ArrayBox, physical_type: PhysicalType) -> Option<Leaf<'_>>
    ensures { MatchOption result (is_entry (base (type_of (boxed entries.now))) (physical_view physical_type) ≡ false)
        (IsEntryLeaf (boxed entries.now) (physical_view physical_type)) }
{
    entries.know();
    if !is_entry(entries.data_type(), physical_type) {
        return None;
    }
    match leaf_of(entries, physical_type) {
        Some(leaf) => Some(leaf),
        None => unreachable!(),
    }
}
