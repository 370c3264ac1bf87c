//! The entries of a dictionary page, by how their values are read.
ghost use Rattle.std.specs.Prelude.{◌≡◌, ◌⊎◌, true, IfErr, IfOk};
ghost use Rattle.columns_array.specs.Boxed.{boxed};
ghost use Rattle.columns_base.specs.declared.error.Error.TheVariants.{Memory};
ghost use Rattle.columns_core.specs.Shapes.{base};
ghost use Rattle.columns_core.specs.View.{type_view};
ghost use Rattle.dictionary_leaves.specs.Entries.{CannotEnter, HasEntries};
ghost use Rattle.read_leaf.specs.Fixed.{stored_fixed};
ghost use Rattle.read_leaf.specs.FixedBytes.{loaded_bytes};
ghost use Rattle.read_leaf.specs.Numbers.{stored_numbers};
ghost use Rattle.read_types.specs.Arrays.{makes_fixed, makes_numbers};
ghost use Rattle.read_types.specs.LeafTypes.{reads_chunks};
ghost use Rattle.read_types.specs.Reads.{limit_of, stored_of, types_of};

use crate::entries::entry_array;
use columns_array::ArrayBox;
use columns_base::Result;
use columns_core::{DataType, DaysMs};
use read_leaf::{Bytes, FixedValue, FromStored, StoredNumber, Text};
use read_types::{Fixed, FixedBytes, LeafKind, Nulls, NumberBox, Numbers, Strings, Truths};
use std::alloc::Global;
use std::marker::PhantomData;

// Entries that are numbers of `T`, stored as numbers of `P`.
fn number_entries<T: FromStored<P> + NumberBox, P: StoredNumber>(
    alloc: Global,
    body: &[u8],
    count: usize,
    data_type: DataType,
) -> Result<ArrayBox>
    requires { makes_numbers T.stores (base (type_view data_type)) ≡ true }
    ensures ok { IfOk result (λ a. HasEntries (stored_numbers T.loaded P.spelled P.byte_count) count body.now
        (type_view data_type) (boxed a)) }
    ensures err { IfErr result (λ e. (e ≡ Memory)
        ⊎ CannotEnter (stored_numbers T.loaded P.spelled P.byte_count) 1 count body.now e) }
{
    entry_array(alloc, &Numbers::<T, P>::new(), body, count, data_type)
}

// Entries that are stored as so many bytes each.
fn fixed_entries<T: FixedValue + NumberBox>(
    alloc: Global,
    size: usize,
    body: &[u8],
    count: usize,
    data_type: DataType,
) -> Result<ArrayBox>
    requires { makes_fixed T.stores (base (type_view data_type)) ≡ true }
    ensures ok { IfOk result (λ a. HasEntries (stored_fixed T.loaded size) count body.now (type_view data_type)
        (boxed a)) }
    ensures err { IfErr result (λ e. (e ≡ Memory) ⊎ CannotEnter (stored_fixed T.loaded size) 0 count body.now e) }
{
    let leaf = Fixed::<T> {
        size,
        value: PhantomData,
    };
    entry_array(alloc, &leaf, body, count, data_type)
}

// Entries that are byte strings of so many bytes each.
fn chunk_entries(
    alloc: Global,
    size: usize,
    body: &[u8],
    count: usize,
    data_type: DataType,
) -> Result<ArrayBox>
    requires { reads_chunks size (base (type_view data_type)) ≡ true }
    ensures ok { IfOk result (λ a. HasEntries (stored_fixed loaded_bytes size) count body.now (type_view data_type)
        (boxed a)) }
    ensures err { IfErr result (λ e. (e ≡ Memory) ⊎ CannotEnter (stored_fixed loaded_bytes size) 0 count body.now e) }
{
    entry_array(alloc, &FixedBytes { size }, body, count, data_type)
}

/// So many entries at the front of a dictionary page's body, plain and read so, as an array of a type (Parquet format, "Dictionary Page").
///
/// # Errors
///
/// S6 where the body is cut, S7 where an entry is no value of the type, used or not; V1 where all are there and have more bytes than the type's
/// offsets count; `Memory`.
pub fn entries_of(
    kind: LeafKind,
    alloc: Global,
    body: &[u8],
    count: usize,
    data_type: DataType,
) -> Result<ArrayBox>
    requires { types_of kind (base (type_view data_type)) ≡ true }
    ensures ok { IfOk result (λ a. HasEntries (stored_of kind) count body.now (type_view data_type) (boxed a)) }
    ensures err { IfErr result (λ e. (e ≡ Memory) ⊎ CannotEnter (stored_of kind) (limit_of kind) count body.now e) }
{
    match kind {
        LeafKind::Boolean => entry_array(alloc, &Truths, body, count, data_type),
        LeafKind::Null => entry_array(alloc, &Nulls, body, count, data_type),
        LeafKind::Int8 => number_entries::<i8, i32>(alloc, body, count, data_type),
        LeafKind::Int16 => number_entries::<i16, i32>(alloc, body, count, data_type),
        LeafKind::Int32 => number_entries::<i32, i32>(alloc, body, count, data_type),
        LeafKind::UInt8 => number_entries::<u8, i32>(alloc, body, count, data_type),
        LeafKind::UInt16 => number_entries::<u16, i32>(alloc, body, count, data_type),
        LeafKind::UInt32 => number_entries::<u32, i32>(alloc, body, count, data_type),
        LeafKind::Int64 => number_entries::<i64, i64>(alloc, body, count, data_type),
        LeafKind::Decimal => number_entries::<i128, i32>(alloc, body, count, data_type),
        LeafKind::WideDecimal => number_entries::<i128, i64>(alloc, body, count, data_type),
        LeafKind::WideUInt32 => number_entries::<u32, i64>(alloc, body, count, data_type),
        LeafKind::UInt64 => number_entries::<u64, i64>(alloc, body, count, data_type),
        LeafKind::Utf8 => {
            entry_array(alloc, &Strings::<i32, Text>::new(), body, count, data_type)
        }
        LeafKind::LargeUtf8 => {
            entry_array(alloc, &Strings::<i64, Text>::new(), body, count, data_type)
        }
        LeafKind::Binary => {
            entry_array(alloc, &Strings::<i32, Bytes>::new(), body, count, data_type)
        }
        LeafKind::LargeBinary => {
            entry_array(alloc, &Strings::<i64, Bytes>::new(), body, count, data_type)
        }
        LeafKind::FixedDecimal(size) => {
            fixed_entries::<i128>(alloc, size, body, count, data_type)
        }
        LeafKind::Months => fixed_entries::<i32>(alloc, 12, body, count, data_type),
        LeafKind::Days => fixed_entries::<DaysMs>(alloc, 12, body, count, data_type),
        LeafKind::FixedSizeBinary(size) => chunk_entries(alloc, size, body, count, data_type),
    }
}
