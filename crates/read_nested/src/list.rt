//! Lists of the innermost part of a state.
ghost use Rattle.std.specs.Prelude.{◌≡◌, ◌⊎◌, IfOk, IfErr, option_map};
ghost use Rattle.columns_base.specs.declared.error.Error.{Error};
ghost use Rattle.columns_core.specs.View.{type_view};
ghost use Rattle.columns_core.specs.Shapes.{base};
ghost use Rattle.columns_slots.specs.Types.{small_item, large_item};
ghost use Rattle.columns_array.specs.Boxed.{boxed};
ghost use Rattle.pq_headline.specs.Columns.{small_limit, large_limit};
ghost use Rattle.read_state.specs.Kinds.{kept_box};
ghost use Rattle.read_nested.specs.Made.{innermost, kind_of, FitsFixedPart, IsFixedListOf, IsListOf, IsPopped, MakesList, RefusesList, RefusesLists};

use crate::offsets::{list_inner, list_parts, mask_of, take_part};
use columns_array::{ArrayBox, FixedSizeListArray, LargeListArray, ListArray};
use columns_base::{A, Error, Result};
use columns_core::DataType;
use read_state::{NestedBox, NestedState};
use std::alloc::Global;

/// Which kind of list a type is.
#[derive(Clone, Copy, Debug, Drop)]
pub enum ListKind {
    /// Under offsets of 32 bits.
    Small,
    /// Under offsets of 64 bits.
    Large,
    /// Of a fixed size.
    Fixed,
    /// No list.
    Other,
}

fn list_kind(data_type: &DataType) -> ListKind
    ensures { result ≡ kind_of (base (type_view data_type.now)) }
{
    match data_type.base() {
        DataType::List(_) => ListKind::Small,
        DataType::LargeList(_) => ListKind::Large,
        DataType::FixedSizeList(_, _) => ListKind::Fixed,
        _ => ListKind::Other,
    }
}

fn small_list(
    alloc: Global,
    data_type: DataType,
    part: Option<NestedBox>,
    values: ArrayBox,
) -> Result<ListArray>
    ensures ok { IfOk result (λ a. IsListOf (type_view data_type) (option_map kept_box part) (boxed values) a) }
    ensures err { IfErr result (RefusesLists small_limit (small_item (base (type_view data_type)))
        (option_map kept_box part) (boxed values)) }
{
    let (offsets, mask) = list_parts::<i32>(alloc, part, values.len())?;
    ListArray::try_new(alloc, data_type, offsets, values, mask)
}

fn large_list(
    alloc: Global,
    data_type: DataType,
    part: Option<NestedBox>,
    values: ArrayBox,
) -> Result<LargeListArray>
    ensures ok { IfOk result (λ a. IsListOf (type_view data_type) (option_map kept_box part) (boxed values) a) }
    ensures err { IfErr result (RefusesLists large_limit (large_item (base (type_view data_type)))
        (option_map kept_box part) (boxed values)) }
{
    let (offsets, mask) = list_parts::<i64>(alloc, part, values.len())?;
    LargeListArray::try_new(alloc, data_type, offsets, values, mask)
}

fn fixed_list(
    alloc: Global,
    data_type: DataType,
    part: Option<NestedBox>,
    values: ArrayBox,
) -> Result<FixedSizeListArray>
    ensures ok { IfOk result (λ a. IsFixedListOf (type_view data_type) (option_map kept_box part) (boxed values) a) }
    ensures err { IfErr result (λ e. (e ≡ Error.Memory) ⊎ ((e ≡ Error.InvalidArgumentError A.A8)
        × ¬ (FitsFixedPart (base (type_view data_type)) (option_map kept_box part) (boxed values)))) }
{
    let Some((starts, validity)) = list_inner(part) else {
        return Err(Error::InvalidArgumentError(A::A8));
    };
    let mask = mask_of(validity)?;
    let array = FixedSizeListArray::try_new(alloc, data_type, values, mask)?;
    if array.len() != starts.len() {
        return Err(Error::InvalidArgumentError(A::A8));
    }
    Ok(array)
}

/// The list array of the innermost part of the state, which is taken, over these items: under offsets of 32 or 64 bits or of a fixed size, by the
/// type beneath its extensions (Arrow columnar format, "Variable-size List Layout" and "Fixed-Size List Layout").
///
/// # Errors
///
/// - `Overflow(V1)`: there are more items than the offsets count.
/// - `InvalidArgumentError(A8)`: the type is no list, the items are not of its item's type, no part is left or it is no list's, its starts fall or
///   pass the items, the fixed size is 0, or a fixed size times the rows is not the number of items.
/// - `Memory`.
///
/// The part is taken then too.
pub fn create_list(
    alloc: Global,
    data_type: DataType,
    nested: &mut NestedState,
    values: ArrayBox,
) -> Result<ArrayBox>
    ensures taken { IsPopped nested.old nested.new }
    ensures ok { IfOk result (λ a. MakesList (type_view data_type) (innermost nested.old) (boxed values) (boxed a)) }
    ensures err { IfErr result (RefusesList (type_view data_type) (innermost nested.old) (boxed values)) }
{
    let part = take_part(nested);
    match list_kind(&data_type) {
        ListKind::Small => small_list(alloc, data_type, part, values).map(ArrayBox::List),
        ListKind::Large => large_list(alloc, data_type, part, values).map(ArrayBox::LargeList),
        ListKind::Fixed => fixed_list(alloc, data_type, part, values).map(ArrayBox::FixedSizeList),
        ListKind::Other => Err(Error::InvalidArgumentError(A::A8)),
    }
}
