//! Lists of a fixed size.
ghost use Rattle.std.specs.Prelude.{◌≡◌, ◌↔◌, ◌⊎◌, ◌+◌, ◌*◌, ◌/◌, ◌%◌, ◌≤◌, ◌<◌, IsTrue, Some, IfOk, IfErr, IsErrOf, option_map, length as list_length};
ghost use Rattle.columns_core.specs.View.{type_view};
ghost use Rattle.columns_core.specs.Shapes.{base};
ghost use Rattle.columns_slots.specs.Tree.{fixed_list_array};
ghost use Rattle.columns_slots.specs.Slots.{tree_len, type_of, mask_of, child_of, cut, null_slots, IsSound};
ghost use Rattle.columns_slots.specs.Types.{fixed_item, fixed_size};
ghost use Rattle.columns_array.specs.Boxed.{boxed};
ghost use Rattle.columns_array.specs.Fits.{FitsFixedLists};

use super::{ArrayBox, FixedSizeListArray};
use columns_base::{A, Error, Result};
use columns_core::{Bitmap, DataType, is_same_type};
use columns_leaf::validity::{count_unset, cut_validity, mask_fits};
use std::alloc::Global;

fn item_type(data_type: &DataType) -> Option<&DataType>
    ensures { option_map (λ t. type_view t.now) result ≡ fixed_item (base (type_view data_type.now)) }
{
    match data_type.base() {
        DataType::FixedSizeList(field, _) => Some(&field.data_type),
        _ => None,
    }
}

fn items_each(data_type: &DataType) -> usize
    ensures { result ≡ fixed_size (base (type_view data_type.now)) }
{
    match data_type.base() {
        DataType::FixedSizeList(_, size) => *size,
        _ => 0,
    }
}

fn has_items(data_type: &DataType, item: &DataType) -> bool
    ensures { IsTrue result ↔ fixed_item (base (type_view data_type.now)) ≡ Some (type_view item.now) }
{
    match item_type(data_type) {
        Some(found) => is_same_type(found, item),
        None => false,
    }
}

impl FixedSizeListArray {
    /// The array of these parts. A8 where the type is no list of fixed size of the items' type, the size is 0, the items are no whole
    /// number of lists, or the mask has another length.
    #[tactic(auto, using(crate::proofs::Know::fixed_made))]
    pub fn try_new(
        alloc: Global,
        data_type: DataType,
        values: ArrayBox,
        validity: Option<Bitmap>,
    ) -> Result<FixedSizeListArray>
        ensures made { IfOk result (λ a. a ≡ fixed_list_array (type_view data_type)
            (fixed_size (base (type_view data_type))) (tree_len (boxed values) / fixed_size
            (base (type_view data_type))) (boxed values) validity) }
        ensures refused { IsErrOf result (Error.InvalidArgumentError A.A8)
            ↔ ¬ (FitsFixedLists (base (type_view data_type)) (boxed values) validity) }
        ensures err { IfErr result (λ e. (e ≡ Error.Memory) ⊎ (e ≡ Error.InvalidArgumentError A.A8)) }
    {
        values.know();
        let width = items_each(&data_type);
        if width == 0 || !has_items(&data_type, values.data_type()) {
            return Err(Error::InvalidArgumentError(A::A8));
        }
        let size = values.len() / width;
        if values.len() % width != 0 || !mask_fits(&validity, size) {
            return Err(Error::InvalidArgumentError(A::A8));
        }
        Ok(FixedSizeListArray {
            data_type,
            width,
            size,
            values: Box::new(alloc, values)?,
            validity,
        })
    }

    /// Callers learn what holds of every such array.
    pub fn know(&self)
        ensures sound { IsSound self.now }
        ensures parts { self.now ≡ fixed_list_array (type_of self.now) (fixed_size (base (type_of self.now)))
            (tree_len self.now) (child_of self.now) (mask_of self.now) }
    {
        let _ = &self.data_type;
    }

    /// The number of positions.
    pub fn len(&self) -> usize
        ensures { result ≡ tree_len self.now }
    {
        self.size
    }

    /// The type.
    pub fn data_type(&self) -> &DataType
        ensures { type_view result.now ≡ type_of self.now }
    {
        &self.data_type
    }

    /// The items of all positions, and no others.
    pub fn values(&self) -> &ArrayBox
        ensures { boxed result.now ≡ child_of self.now }
    {
        &self.values
    }

    /// The mask of the positions that are not null.
    pub fn validity(&self) -> Option<&Bitmap>
        ensures { option_map (λ m. m.now) result ≡ mask_of self.now }
    {
        self.validity.as_ref()
    }

    /// The number of null slots.
    #[tactic(auto, using(columns_slots::proofs::Nulls::nulls_masked))]
    pub fn null_count(&self) -> usize
        ensures { result ≡ null_slots self.now }
    {
        count_unset(&self.validity)
    }

    /// Keeps `length` positions from the position `offset` on, and their items.
    #[cycle(cut)]
    pub fn slice(&mut self, offset: usize, length: usize)
        requires { offset + length ≤ tree_len self.old }
        ensures { self.new ≡ cut self.old offset length }
    {
        // there are no more items than a `usize` counts, so the products below are within it
        let _count = self.values.len();
        self.size = length;
        self.values.slice(offset * self.width, length * self.width);
        cut_validity(&mut self.validity, offset, length);
    }
}
