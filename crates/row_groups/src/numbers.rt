//! How many encodings fields want.
ghost use Rattle.std.specs.Prelude.{◌≡◌, ◌↔◌, ◌≤◌, IsTrue, map};
ghost use Rattle.columns_core.specs.Measures.{nesting, fields_nesting};
ghost use Rattle.columns_core.specs.View.{fields_view, type_view};
ghost use Rattle.row_groups.specs.Groups.{AreNumbered, IsNumbered};

use columns_core::{DataType, Field};
use pq_tree::Encoding;
use schema_to_tree::n_columns;

// Whether there is an encoding for each leaf of the type. Of a type with a union, which is not written, that is not asked.
fn is_numbered(data_type: &DataType, encodings: &[Encoding]) -> bool
    requires { nesting (type_view data_type.now) ≤ 128 }
    ensures { IsTrue result ↔ IsNumbered (type_view data_type.now) encodings.now }
{
    match n_columns(data_type) {
        Ok(count) => encodings.len() == count,
        Err(_) => true,
    }
}

// Whether there are as many lists of encodings as fields, each with as many as the field has leaves.
pub fn are_numbered(fields: &[Field], encodings: &[Vec<Encoding>]) -> bool
    requires { fields_nesting (fields_view fields.now) ≤ 128 }
    ensures { IsTrue result ↔ AreNumbered (fields_view fields.now) (map (λ es. es.items) encodings.now) }
{
    if fields.len() != encodings.len() {
        return false;
    }
    'fields: for i in 0..fields.len() {
        if !is_numbered(&fields[i].data_type, &encodings[i]) {
            return false;
        }
    }
    true
}
