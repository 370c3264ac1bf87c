//! A field is opened beneath parts.
ghost use Rattle.std.specs.Prelude.{◌≡◌, ◌≤◌, ◌↔◌, ◌⊎◌, List, Some, length, map, IfErr, IfOk, IsErrOf};
ghost use Rattle.columns_base.specs.declared.error.Error.TheVariants.{InvalidArgumentError, Memory};
ghost use Rattle.columns_base.specs.declared.error.A.TheVariants.{A1};
ghost use Rattle.columns_core.specs.Measures.{field_nesting};
ghost use Rattle.columns_core.specs.View.{field_view, type_view};
ghost use Rattle.assembly.specs.Lanes.{Lane};
ghost use Rattle.assembly.specs.Opened.{physical_in};
ghost use Rattle.read_nested.specs.Above.{Above};
ghost use Rattle.struct_iters.specs.Items.{IsGivingItems};
ghost use Rattle.struct_iters.specs.Opens.{CannotOpen, OpenBeneath, begun};
ghost use Rattle.struct_iters.specs.Readings.{items_in};

use crate::columns_iter::ColumnsIter;
use crate::nested::NestedArrayIter;
use assembly::{open_columns, paths_beneath};
use columns_base::{A, Error, Result};
use columns_core::Field;
use pq_pages::Pages;
use pq_tree::PrimitiveType;
use read_columns::Column;
use read_state::InitNested;
use std::alloc::Global;

// Columns that have not ended.
fn open_all<I: Pages + Drop>(
    alloc: Global,
    readers: Vec<Column<I>>,
) -> Result<Vec<Option<Column<I>>>>
    ensures ok { IfOk result (λ columns. columns.items ≡ map Some readers.items) }
    ensures err { IfErr result (λ e. e ≡ Memory) }
{
    let mut columns = Vec::with_capacity(alloc, readers.len())?;
    let mut left = readers.into_iter();
    'readers: while let Some(reader) = left.next() {
        columns.push(Some(reader))?;
    }
    Ok(columns)
}

/// The arrays of a field beneath parts, from the pages of its columns: of lists and structs alone, the outermost first, or of none. Each item has the
/// state of the parts and the field's array. The field nests to at most 128.
///
/// # Errors
///
/// - `InvalidArgumentError(A1)`: exactly for a chunk size of no rows.
/// - `InvalidArgumentError(A8)`: columns, types and the field's leaves differ in number, or a struct has no field.
/// - `NotYetImplemented(N5)`: a leaf's type is not read, not under its physical type, not beneath lists and structs (decimals, intervals and byte
///   strings of one size), or not where it may not be null (nulls alone); the entries of a dictionary are not read, or not beneath lists and
///   structs (`UInt64` and timestamps); a list of fixed size or a union.
/// - `Memory`.
pub fn columns_to_iter_recursive<I: Pages + Drop>(
    alloc: Global,
    columns: Vec<I>,
    types: Vec<PrimitiveType>,
    field: Field,
    init: Vec<InitNested>,
    num_rows: usize,
    chunk_size: Option<usize>,
) -> Result<NestedArrayIter<I>>
    requires { field_nesting (field_view field) ≤ 128 }
    ensures ok { (above : List Above) (xs : List Lane) → OpenBeneath above (field_view field) xs init.items
        (map I.outcomes columns.items) (map physical_in types.items) num_rows chunk_size
        → IfOk result (λ it. IsGivingItems above field.is_nullable (type_view field.data_type) (map begun xs)
        (items_in it)) }
    ensures size { IsErrOf result (InvalidArgumentError A1) ↔ (chunk_size ≡ Some 0) }
    ensures err { IfErr result (CannotOpen (field_view field) init.items (length columns.items)
        (map physical_in types.items) chunk_size) }
{
    if chunk_size == Some(0) {
        return Err(Error::InvalidArgumentError(A::A1));
    }
    let paths = paths_beneath(alloc, &init, &field)?;
    if paths.len() != columns.len() {
        return Err(Error::InvalidArgumentError(A::A8));
    }
    if types.len() != columns.len() {
        return Err(Error::InvalidArgumentError(A::A8));
    }
    let readers = open_columns(alloc, &paths, columns, &types, chunk_size, num_rows)?;
    let columns = open_all(alloc, readers)?;
    Ok(NestedArrayIter::Columns(ColumnsIter {
        alloc,
        data_type: field.data_type,
        columns,
    }))
}
