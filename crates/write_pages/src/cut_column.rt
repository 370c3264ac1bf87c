//! Some rows of a column.
ghost use Rattle.std.specs.Prelude.{◌≡◌, ◌+◌, ◌≤◌, length, All, IfOk, IfErr};
ghost use Rattle.shredding.specs.Along.{IsAlong};
ghost use Rattle.shredding.specs.Parts.{path_way, slot_count};
ghost use Rattle.columns_base.specs.declared.error.Error.TheVariants.{Memory};
ghost use Rattle.columns_array.specs.Boxed.{boxed};
ghost use Rattle.columns_slots.specs.Slots.{cut, tree_len};
ghost use Rattle.nested_slice.specs.CutPath.{cut_parts, leaf_rows};
ghost use Rattle.levels.specs.InBounds.{IsInBounds};
ghost use Rattle.levels.specs.Nested.{parts_of};
ghost use Rattle.levels.specs.Ranges.{leaf_count_or};
ghost use Rattle.write_values.specs.Nulls.{TellsNulls};
ghost use Rattle.write_pages.specs.CutColumns.{IsCutColumn};
ghost use Rattle.write_pages.specs.Holds.{rows_of};

use crate::nulls::{is_null, seen_path};
use columns_array::ArrayBox;
use columns_core::Result;
use levels::Nested;
use nested_paths::cut_leaves_are_seen;
use nested_slice::slice_parquet_array;
use std::alloc::Global;

// A path and its leaf array.
#[derive(Drop)]
pub struct CutColumn {
    pub array: ArrayBox,
    pub nested: Vec<Nested>,
}

fn copy_part(part: &Nested) -> Result<Nested>
    ensures ok { IfOk result (λ p. p ≡ part.now) }
    ensures err { IfErr result (λ e. e ≡ Memory) }
{
    part.clone()
}

// The same path. Its masks and offsets are shared.
pub fn copy_path(alloc: Global, nested: &[Nested]) -> Result<Vec<Nested>>
    ensures ok { IfOk result (λ path. path.items ≡ nested.now) }
    ensures err { IfErr result (λ e. e ≡ Memory) }
{
    let mut path = Vec::with_capacity(alloc, nested.len())?;
    for part in nested {
        path.push(copy_part(part)?)?;
    }
    Ok(path)
}

// The path in bounds and its leaf array at some rows. Masks, offsets and values are shared.
pub fn cut_column(
    alloc: Global,
    array: &ArrayBox,
    nested: &[Nested],
    first: usize,
    count: usize,
) -> Result<CutColumn>
    requires in_bounds { IsInBounds (parts_of nested.now) }
    requires leaf { tree_len (boxed array.now) ≡ leaf_count_or 0 (parts_of nested.now) }
    requires rows { first + count ≤ slot_count (parts_of nested.now) }
    ensures ok { IfOk result (IsCutColumn (boxed array.now) (parts_of nested.now) first count) }
    ensures tree { IfOk result (λ c. boxed c.array ≡ cut (boxed array.now)
        (leaf_rows (parts_of nested.now) first count).0 (leaf_rows (parts_of nested.now) first count).1) }
    ensures path { IfOk result (λ c. parts_of c.nested.items ≡ cut_parts (parts_of nested.now) first count) }
    ensures err { IfErr result (λ e. e ≡ Memory) }
{
    cut_leaves_are_seen();
    let mut array = array.clone(alloc)?;
    let mut nested = copy_path(alloc, nested)?;
    slice_parquet_array(&mut array, &mut nested, first, count);
    Ok(CutColumn { array, nested })
}

// The same, and the masks of the path tell the nulls of an array of nulls alone.
pub fn seen_column(
    alloc: Global,
    array: &ArrayBox,
    nested: &[Nested],
    first: usize,
    count: usize,
) -> Result<CutColumn>
    requires in_bounds { IsInBounds (parts_of nested.now) }
    requires leaf { tree_len (boxed array.now) ≡ leaf_count_or 0 (parts_of nested.now) }
    requires reached { All (IsAlong (path_way (parts_of nested.now)))
        (rows_of (parts_of nested.now) (boxed array.now)) }
    requires rows { first + count ≤ slot_count (parts_of nested.now) }
    ensures ok { IfOk result (IsCutColumn (boxed array.now) (parts_of nested.now) first count) }
    ensures told { IfOk result (λ c. TellsNulls (boxed c.array) (parts_of c.nested.items)) }
    ensures err { IfErr result (λ e. e ≡ Memory) }
{
    let rows = cut_column(alloc, array, nested, first, count)?;
    rows.array.know();
    if !is_null(&rows.array) {
        return Ok(rows);
    }
    let nested = seen_path(alloc, &rows.array, &rows.nested)?;
    Ok(CutColumn {
        array: rows.array,
        nested,
    })
}
