//! The pages of a field to an array.
ghost use Rattle.std.specs.Prelude.{◌≡◌, ◌≤◌, None, map, IfOk, IfErr};
ghost use Rattle.columns_core.specs.Measures.{field_nesting};
ghost use Rattle.columns_core.specs.View.{field_view};
ghost use Rattle.pq_headline.specs.FieldReasons.{Refuses};
ghost use Rattle.pq_headline.specs.Openings.{Opening, Assembled};
ghost use Rattle.pq_tree.specs.Views.{physical_view};
ghost use Rattle.assembly.specs.Giving.{Opens};
ghost use Rattle.uses.specs.Arrays.{arrays_in};

use parquet::arrays::{ArrayBox, Error, Field, Result, S};
use parquet::read::{Pages, column_iter_to_arrays};
use parquet::schema::PrimitiveType;
use std::alloc::Global;

/// The rows of one field of a row group as one array, from the pages of its columns, and none where there are no rows: they are all of the field's rows,
/// and the pages hold exactly these.
///
/// # Errors
///
/// Those of `column_iter_to_arrays` and of `ArrayIter::next`.
pub fn field_to_array<I: Pages + Drop>(
    alloc: Global,
    columns: Vec<I>,
    types: Vec<PrimitiveType>,
    field: Field,
    num_rows: usize,
) -> Result<Option<ArrayBox>>
    requires { field_nesting (field_view field) ≤ 128 }
    ensures ok { (o : Opening) → Opens o (field_view field) (map I.outcomes columns.items)
        (map (λ t. physical_view t.physical_type) types.items) None num_rows
        → IfOk result (λ array. Assembled o (arrays_in array)) }
    ensures err { (o : Opening) → Opens o (field_view field) (map I.outcomes columns.items)
        (map (λ t. physical_view t.physical_type) types.items) None num_rows → IfErr result (Refuses o) }
{
    let mut arrays = column_iter_to_arrays(alloc, columns, types, field, None, num_rows)?;
    let array = match arrays.next() {
        None => return Ok(None),
        Some(Err(error)) => return Err(error),
        Some(Ok(array)) => array,
    };
    match arrays.next() {
        None => Ok(Some(array)),
        Some(Err(error)) => Err(error),
        // All rows are in the first.
        Some(Ok(_)) => Err(Error::OutOfSpec(S::S9)),
    }
}
