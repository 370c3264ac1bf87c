//! Whether the rows of a chunk are rows of fields.
ghost use Rattle.std.specs.Prelude.{◌≡◌, ◌↔◌, IsTrue};
ghost use Rattle.columns_array.specs.Boxed.{all_boxed};
ghost use Rattle.columns_core.specs.View.{fields_view};
ghost use Rattle.columns_slots.specs.Slots.{AreTyped, first_len};
ghost use Rattle.typed_rows.specs.Own.{AreRowsOf};

use crate::own::fields_are_own;
use columns_array::{ArrayBox, Chunk};
use columns_core::{Field, is_same_type};

// Whether the arrays have the types of the fields.
fn have_types(fields: &[Field], arrays: &[ArrayBox]) -> bool
    ensures { IsTrue result ↔ AreTyped (fields_view fields.now) (all_boxed arrays.now) }
{
    if fields.len() != arrays.len() {
        return false;
    }
    'fields: for i in 0..fields.len() {
        if !is_same_type(&fields[i].data_type, arrays[i].data_type()) {
            return false;
        }
    }
    true
}

// The number of its rows.
fn rows_in(chunk: &Chunk) -> usize
    ensures { result ≡ first_len chunk.now }
{
    let arrays = chunk.arrays();
    if arrays.len() == 0 {
        return 0;
    }
    arrays[0].len()
}

/// Whether the rows of the chunk are rows of the fields: there are as many arrays as fields, they have the types of the fields, and each null
/// that is reached stands where it may. No memory is taken.
pub fn are_rows_of(fields: &[Field], chunk: &Chunk) -> bool
    ensures { IsTrue result ↔ AreRowsOf (fields_view fields.now) chunk.now }
{
    chunk.know();
    if !have_types(fields, chunk.arrays()) {
        return false;
    }
    fields_are_own(fields, chunk.arrays(), 0, rows_in(chunk))
}
