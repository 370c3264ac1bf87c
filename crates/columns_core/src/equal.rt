//! `==` is true exactly where all parts are the same.
ghost use Rattle.std.specs.Prelude.{◌≡◌, IsTrue, ◌↔◌};
ghost use Rattle.columns_core.specs.View.{type_view, field_view, schema_view};

use crate::types::{DataType, Field, Schema};

/// Whether two types are the same in all parts, as `==` says.
pub fn is_same_type(a: &DataType, b: &DataType) -> bool
    ensures { IsTrue result ↔ type_view a.now ≡ type_view b.now }
{
    a == b
}

/// Whether two fields are the same in all parts, as `==` says.
pub fn is_same_field(a: &Field, b: &Field) -> bool
    ensures { IsTrue result ↔ field_view a.now ≡ field_view b.now }
{
    a == b
}

/// Whether two schemas are the same in all parts, as `==` says.
pub fn is_same_schema(a: &Schema, b: &Schema) -> bool
    ensures { IsTrue result ↔ schema_view a.now ≡ schema_view b.now }
{
    a == b
}
