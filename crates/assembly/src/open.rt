//! A field is opened.
ghost use Rattle.std.specs.Prelude.{◌≡◌, ◌≤◌, ◌⊎◌, List, [], map, length, IfOk, IfErr};
ghost use Rattle.columns_base.specs.declared.error.Error.{Error};
ghost use Rattle.columns_core.specs.Measures.{field_nesting};
ghost use Rattle.columns_core.specs.View.{field_view};
ghost use Rattle.pq_tree.specs.Views.{physical_view};
ghost use Rattle.pq_headline.specs.Openings.{Opening};
ghost use Rattle.assembly.specs.Giving.{IsGiving, Opens, RefusesOpening};
ghost use Rattle.assembly.specs.Lanes.{Lane, AreReading};
ghost use Rattle.assembly.specs.Opened.{IsOpen, AreOpen, IsNotRead, SomeIsNotRead, physical_in};
ghost use Rattle.read_columns.specs.Columns.{IsReadingColumn};
ghost use Rattle.assembly.specs.Paths.{path_view};

use crate::ArrayIter;
use crate::paths::{LeafPath, leaf_paths};
use columns_base::{A, Error, Result};
use columns_core::Field;
use pq_pages::Pages;
use pq_tree::{PhysicalType, PrimitiveType};
use read_columns::Column;
use std::alloc::Global;

// The reader of one column.
fn open_column<I: Pages + Drop>(
    alloc: Global,
    path: &LeafPath,
    pages: I,
    physical_type: PhysicalType,
    chunk_size: Option<usize>,
    num_rows: usize,
) -> Result<Column<I>>
    ensures ok { (x : Lane) → IsOpen chunk_size num_rows x (path_view path.now) (I.outcomes pages)
        (physical_view physical_type) → IfOk result (IsReadingColumn x.opening x.type []) }
    ensures err { IfErr result (λ e. (e ≡ Error.Memory) ⊎ IsNotRead (path_view path.now)
        (physical_view physical_type) e) }
{
    let data_type = path.data_type.clone(alloc)?;
    let nested = Vec::from_slice(alloc, &path.nested)?;
    match Column::try_new(
        alloc,
        pages,
        data_type,
        physical_type,
        nested,
        chunk_size,
        num_rows,
    ) {
        Ok(reader) => Ok(reader),
        Err(error) => Err(error),
    }
}

/// A reader of each column, by the ways to their leaves: as many ways and types as columns.
///
/// # Errors
///
/// - `NotYetImplemented(N5)`: a leaf's type is not read, or not under its physical type or at the end of its way.
/// - `Memory`.
pub fn open_columns<I: Pages + Drop>(
    alloc: Global,
    paths: &[LeafPath],
    mut columns: Vec<I>,
    types: &[PrimitiveType],
    chunk_size: Option<usize>,
    num_rows: usize,
) -> Result<Vec<Column<I>>>
    requires columns { length paths.now ≡ length columns.items }
    requires types { length types.now ≡ length columns.items }
    ensures ok { (xs : List Lane) → AreOpen chunk_size num_rows xs (map path_view paths.now)
        (map I.outcomes columns.items) (map physical_in types.now)
        → IfOk result (λ readers. AreReading 0 xs readers.items []) }
    ensures err { IfErr result (λ e. (e ≡ Error.Memory) ⊎ SomeIsNotRead (map path_view paths.now)
        (map physical_in types.now) e) }
{
    let mut readers = Vec::with_capacity(alloc, columns.len())?;
    'columns: while let Some(pages) = columns.pop() {
        let i = columns.len();
        let physical_type = types[i].physical_type;
        match open_column(alloc, &paths[i], pages, physical_type, chunk_size, num_rows) {
            Ok(reader) => readers.push(reader)?,
            Err(error) => return Err(error),
        }
    }
    readers.reverse();
    Ok(readers)
}

/// The arrays of a field, from the pages of its columns. The field nests to at most 128.
///
/// # Errors
///
/// - `InvalidArgumentError(A1)`: a chunk size of no rows.
/// - `InvalidArgumentError(A8)`: columns, types and the field's leaves differ in number, or a struct has no field.
/// - `NotYetImplemented(N5)`: a leaf's type is not read, not under its physical type, not beneath lists and structs (decimals, intervals and byte
///   strings of one size), or not where it may not be null (nulls alone); the entries of a dictionary are not read, or not beneath lists and
///   structs (`UInt64` and timestamps); a list of fixed size or a union.
/// - `Memory`.
pub fn column_iter_to_arrays<I: Pages + Drop>(
    alloc: Global,
    columns: Vec<I>,
    types: Vec<PrimitiveType>,
    field: Field,
    chunk_size: Option<usize>,
    num_rows: usize,
) -> Result<ArrayIter<I>>
    requires { field_nesting (field_view field) ≤ 128 }
    ensures ok { (o : Opening) → Opens o (field_view field) (map I.outcomes columns.items)
        (map (λ t. physical_view t.physical_type) types.items) chunk_size num_rows → IfOk result (IsGiving o []) }
    ensures refused { IfErr result (RefusesOpening (field_view field) (map I.outcomes columns.items)
        (map (λ t. physical_view t.physical_type) types.items) chunk_size num_rows) }
{
    if chunk_size == Some(0) {
        return Err(Error::InvalidArgumentError(A::A1));
    }
    let paths = match leaf_paths(alloc, &field) {
        Ok(paths) => paths,
        Err(error) => return Err(error),
    };
    if paths.len() != columns.len() {
        return Err(Error::InvalidArgumentError(A::A8));
    }
    if types.len() != columns.len() {
        return Err(Error::InvalidArgumentError(A::A8));
    }
    match open_columns(alloc, &paths, columns, &types, chunk_size, num_rows) {
        Ok(columns) => Ok(ArrayIter {
            alloc,
            field,
            columns,
            left: num_rows,
        }),
        Err(error) => Err(error),
    }
}
