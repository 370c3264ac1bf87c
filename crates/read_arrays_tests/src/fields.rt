//! Fields, and the arrays of a field from the pages of its columns.
ghost use Rattle.std.specs.Prelude.{◌≡◌, IfOk};

use assembly::{ArrayIter, column_iter_to_arrays};
use columns_base::{Error, N, Result};
use columns_core::{DataType, Field, Metadata};
use pq_pages::{Page, VecPages};
use pq_tree::PrimitiveType;
use std::alloc::Global;

/// A field of this name.
pub fn field(alloc: Global, name: &str, data_type: DataType, is_nullable: bool) -> Result<Field>
    ensures { IfOk result (λ f. f.data_type ≡ data_type) }
{
    Ok(Field {
        name: String::from_str(alloc, name)?,
        data_type,
        is_nullable,
        metadata: Metadata::new(alloc),
    })
}

/// A nullable one.
pub fn optional(alloc: Global, name: &str, data_type: DataType) -> Result<Field> {
    field(alloc, name, data_type, true)
}

/// A nullable field of the items of a list.
pub fn item(alloc: Global, data_type: DataType) -> Result<Box<Field>> {
    Ok(Box::new(alloc, optional(alloc, "item", data_type)?)?)
}

/// The arrays of a field of these columns.
pub fn open(
    alloc: Global,
    columns: Vec<VecPages>,
    leaves: Vec<PrimitiveType>,
    field: Field,
    chunk_size: Option<usize>,
    rows: usize,
) -> Result<ArrayIter<VecPages>> {
    if !field.nests_within(128) {
        return Err(Error::NotYetImplemented(N::N7));
    }
    column_iter_to_arrays(alloc, columns, leaves, field, chunk_size, rows)
}

/// The arrays of a field of one column.
pub fn open_one(
    alloc: Global,
    pages: Vec<Result<Page>>,
    leaf: PrimitiveType,
    field: Field,
    chunk_size: Option<usize>,
    rows: usize,
) -> Result<ArrayIter<VecPages>> {
    let columns = Vec::from_array(alloc, [VecPages::new(pages)])?;
    let leaves = Vec::from_array(alloc, [leaf])?;
    open(alloc, columns, leaves, field, chunk_size, rows)
}
