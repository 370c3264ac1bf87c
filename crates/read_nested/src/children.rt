//! Structs of the innermost part of a state.
ghost use Rattle.std.specs.Prelude.{IfOk, IfErr};
ghost use Rattle.columns_core.specs.View.{type_view};
ghost use Rattle.columns_array.specs.Boxed.{boxed, all_boxed};
ghost use Rattle.read_nested.specs.Made.{innermost, IsPopped, IsStructOf, RefusesStruct};

use crate::offsets::{mask_of, struct_inner, take_part};
use columns_array::{ArrayBox, StructArray};
use columns_base::{A, Error, Result};
use columns_core::DataType;
use read_state::NestedState;
use std::alloc::Global;

// The struct array of the innermost part of the state, which is taken, over these children.
pub(crate) fn struct_of(
    alloc: Global,
    data_type: DataType,
    nested: &mut NestedState,
    children: Vec<ArrayBox>,
) -> Result<ArrayBox>
    ensures taken { IsPopped nested.old nested.new }
    ensures ok { IfOk result (λ a. IsStructOf (type_view data_type) (innermost nested.old) (all_boxed children.items)
        (boxed a)) }
    ensures err { IfErr result (RefusesStruct (type_view data_type) (innermost nested.old) (all_boxed children.items)) }
{
    let part = take_part(nested);
    let Some((_, validity)) = struct_inner(part) else {
        return Err(Error::InvalidArgumentError(A::A8));
    };
    let mask = mask_of(validity)?;
    StructArray::try_new(alloc, data_type, children, mask).map(ArrayBox::Struct)
}
