//! Arrays that are dictionaries (Arrow columnar format, "Dictionary-encoded Layout").
ghost use Rattle.std.specs.Prelude.{◌≡◌, false, MatchOption};
ghost use Rattle.columns_array.specs.Boxed.{boxed};
ghost use Rattle.columns_core.specs.Shapes.{base};
ghost use Rattle.columns_core.specs.View.{type_view};
ghost use Rattle.columns_slots.specs.Slots.{type_of};
ghost use Rattle.schema_to_tree.specs.Encodes.{is_dictionary};

use columns_array::{ArrayBox, DictionaryArray};
use columns_core::DataType;

/// Whether the type is that of dictionaries.
pub fn is_dictionary(data_type: &DataType) -> bool
    ensures { result ≡ is_dictionary (base (type_view data_type.now)) }
{
    matches!(data_type.base(), DataType::Dictionary(_, _, _))
}

// The array as a dictionary, and none where it is of another type.
#[tactic(auto, using(crate::proofs::KeyedArrays::no_keys))]
pub fn as_dictionary(array: &ArrayBox) -> Option<&DictionaryArray>
    ensures { MatchOption result (is_dictionary (base (type_of (boxed array.now))) ≡ false) (λ keyed. keyed.now
        ≡ boxed array.now) }
{
    array.know();
    match array {
        ArrayBox::Dictionary(keyed) => Some(keyed),
        ArrayBox::List(lists) => {
            lists.know();
            None
        }
        ArrayBox::LargeList(lists) => {
            lists.know();
            None
        }
        ArrayBox::FixedSizeList(lists) => {
            lists.know();
            None
        }
        ArrayBox::Struct(structs) => {
            structs.know();
            None
        }
        ArrayBox::Map(maps) => {
            maps.know();
            None
        }
        _ => None,
    }
}
