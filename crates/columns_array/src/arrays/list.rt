//! Lists under offsets of 32 bits.
ghost use Rattle.std.specs.Prelude.{◌≡◌, ◌↔◌, ◌+◌, ◌-◌, ◌≤◌, ◌<◌, ◌^◌, ◌⊎◌, IsTrue, Some, IfOk, IfErr, IsErrOf, option_map, length as list_length};
ghost use Rattle.columns_core.specs.View.{type_view};
ghost use Rattle.columns_core.specs.Shapes.{base};
ghost use Rattle.columns_slots.specs.Tree.{list_array};
ghost use Rattle.columns_slots.specs.Slots.{tree_len, type_of, mask_of, offsets_of, child_of, cut, null_slots, IsSound};
ghost use Rattle.columns_slots.specs.Types.{small_item};
ghost use Rattle.columns_array.specs.Boxed.{boxed};
ghost use Rattle.columns_array.specs.Fits.{FitsLists};

use super::{ArrayBox, ListArray};
use columns_base::{A, Error, Result, V};
use columns_core::{Bitmap, DataType, OffsetsBuffer, is_same_type};
use columns_leaf::validity::{count_unset, cut_validity, mask_fits};
use std::alloc::Global;

fn item_type(data_type: &DataType) -> Option<&DataType>
    ensures { option_map (λ t. type_view t.now) result ≡ small_item (base (type_view data_type.now)) }
{
    match data_type.base() {
        DataType::List(field) => Some(&field.data_type),
        _ => None,
    }
}

fn has_items(data_type: &DataType, item: &DataType) -> bool
    ensures { IsTrue result ↔ small_item (base (type_view data_type.now)) ≡ Some (type_view item.now) }
{
    match item_type(data_type) {
        Some(found) => is_same_type(found, item),
        None => false,
    }
}

impl ListArray {
    /// The array of these parts. V1 where there are more items than an offset of 32 bits holds, and else A8 where the type is no
    /// list of the items' type, the last offset passes the items, or the mask has another length.
    #[tactic(auto, using(columns_slots::proofs::Made::places_made, columns_slots::proofs::Made::places_last, crate::proofs::Know::small_list))]
    pub fn try_new(
        alloc: Global,
        data_type: DataType,
        offsets: OffsetsBuffer<i32>,
        values: ArrayBox,
        validity: Option<Bitmap>,
    ) -> Result<ListArray>
        ensures made { IfOk result (λ a. a ≡ list_array (type_view data_type) offsets (boxed values) validity) }
        ensures overflow { IsErrOf result (Error.Overflow V.V1) ↔ 2 ^ 31 ≤ tree_len (boxed values) }
        ensures refused { IsErrOf result (Error.InvalidArgumentError A.A8) ↔ (tree_len (boxed values) < 2 ^ 31)
            × ¬ (FitsLists (small_item (base (type_view data_type))) offsets (boxed values) validity) }
        ensures err { IfErr result (λ e. (e ≡ Error.Memory) ⊎ (e ≡ Error.Overflow V.V1)
            ⊎ (e ≡ Error.InvalidArgumentError A.A8)) }
    {
        values.know();
        offsets.know();
        let count = offsets.len_proxy();
        if values.len() >= 0x8000_0000 {
            return Err(Error::Overflow(V::V1));
        }
        if !has_items(&data_type, values.data_type())
            || offsets.place(count) > values.len()
            || !mask_fits(&validity, count)
        {
            return Err(Error::InvalidArgumentError(A::A8));
        }
        Ok(ListArray {
            data_type,
            offsets,
            values: Box::new(alloc, values)?,
            validity,
        })
    }

    /// Callers learn what holds of every such array.
    pub fn know(&self)
        ensures sound { IsSound self.now }
        ensures typed { small_item (base (type_of self.now)) ≡ Some (type_of (child_of self.now)) }
        ensures parts { self.now ≡ list_array (type_of self.now) (offsets_of self.now) (child_of self.now)
            (mask_of self.now) }
    {
        let _ = &self.data_type;
    }

    /// The number of positions.
    pub fn len(&self) -> usize
        ensures { result ≡ tree_len self.now }
    {
        self.offsets.len_proxy()
    }

    /// The type.
    pub fn data_type(&self) -> &DataType
        ensures { type_view result.now ≡ type_of self.now }
    {
        &self.data_type
    }

    /// Where the items of each position begin, and where those of the last end.
    pub fn offsets(&self) -> &OffsetsBuffer<i32>
        ensures { result.now ≡ offsets_of self.now }
    {
        &self.offsets
    }

    /// The items of all positions, and those that no position has.
    pub fn values(&self) -> &ArrayBox
        ensures { boxed result.now ≡ child_of self.now }
    {
        &self.values
    }

    /// The mask of the positions that are not null.
    pub fn validity(&self) -> Option<&Bitmap>
        ensures { option_map (λ m. m.now) result ≡ mask_of self.now }
    {
        self.validity.as_ref()
    }

    /// The number of null slots.
    #[tactic(auto, using(columns_slots::proofs::Nulls::nulls_masked))]
    pub fn null_count(&self) -> usize
        ensures { result ≡ null_slots self.now }
    {
        count_unset(&self.validity)
    }

    /// Keeps `length` positions from the position `offset` on. The items stay as they are.
    pub fn slice(&mut self, offset: usize, length: usize)
        requires { offset + length ≤ tree_len self.old }
        ensures { self.new ≡ cut self.old offset length }
    {
        self.offsets.slice_ranges(offset, length);
        cut_validity(&mut self.validity, offset, length);
    }
}
