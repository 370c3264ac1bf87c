//! What types say of their parts.
ghost use Rattle.std.specs.Prelude.{◌≡◌};
ghost use Rattle.columns_core.specs.Shapes.{base};
ghost use Rattle.columns_core.specs.View.{fields_view, type_view};
ghost use Rattle.columns_slots.specs.Types.{fixed_size, part_types};
ghost use Rattle.typed_rows.specs.Own.{item_nullable};

use columns_core::{DataType, Field};

// Whether the items of lists of the type may be null.
pub fn items_are_nullable(data_type: &DataType) -> bool
    ensures { result ≡ item_nullable (base (type_view data_type.now)) }
{
    match data_type.base() {
        DataType::List(item) => item.is_nullable,
        DataType::LargeList(item) => item.is_nullable,
        DataType::FixedSizeList(item, _) => item.is_nullable,
        DataType::Map(entry, _) => entry.is_nullable,
        _ => true,
    }
}

// The fields of structs of the type.
pub fn fields_of(data_type: &DataType) -> &[Field]
    ensures { fields_view result.now ≡ part_types (base (type_view data_type.now)) }
{
    match data_type.base() {
        DataType::Struct(fields) => fields,
        _ => &[],
    }
}

// The number of items of each list of the type, which has a fixed size.
pub fn width_of(data_type: &DataType) -> usize
    ensures { result ≡ fixed_size (base (type_view data_type.now)) }
{
    match data_type.base() {
        DataType::FixedSizeList(_, width) => *width,
        _ => 0,
    }
}
