//! Maps of the innermost part of a state.
ghost use Rattle.std.specs.Prelude.{IfOk, IfErr};
ghost use Rattle.columns_core.specs.View.{type_view};
ghost use Rattle.columns_array.specs.Boxed.{boxed};
ghost use Rattle.read_nested.specs.Made.{innermost, IsListOf, IsPopped, RefusesMap};

use crate::offsets::{list_parts, take_part};
use columns_array::{ArrayBox, MapArray};
use columns_base::Result;
use columns_core::DataType;
use read_state::NestedState;
use std::alloc::Global;

/// The map array of the innermost part of the state, which is taken, over these entries (Arrow columnar format, "Map Layout").
///
/// # Errors
///
/// - `Overflow(V1)`: there are more entries than an offset of 32 bits counts.
/// - `InvalidArgumentError(A8)`: the type is no map, the entries are not of its entry's type, no part is left or it is no list's, or its starts fall
///   or pass the entries.
/// - `Memory`.
///
/// The part is taken then too.
pub fn create_map(
    alloc: Global,
    data_type: DataType,
    nested: &mut NestedState,
    values: ArrayBox,
) -> Result<ArrayBox>
    ensures taken { IsPopped nested.old nested.new }
    ensures ok { IfOk result (λ a. IsListOf (type_view data_type) (innermost nested.old) (boxed values) (boxed a)) }
    ensures err { IfErr result (RefusesMap (type_view data_type) (innermost nested.old) (boxed values)) }
{
    let part = take_part(nested);
    let (offsets, mask) = list_parts::<i32>(alloc, part, values.len())?;
    MapArray::try_new(alloc, data_type, offsets, values, mask).map(ArrayBox::Map)
}
