//! Structs.
ghost use Rattle.std.specs.Prelude.{◌≡◌, ◌↔◌, ◌+◌, ◌≤◌, IsTrue, IfOk, IfErr, IsErrOf, option_map};
ghost use Rattle.columns_core.specs.View.{type_view, fields_view};
ghost use Rattle.columns_core.specs.Shapes.{base};
ghost use Rattle.columns_slots.specs.Tree.{struct_array};
ghost use Rattle.columns_slots.specs.Types.{fields_in};
ghost use Rattle.columns_slots.specs.Slots.{tree_len, type_of, mask_of, children_of, cut, cut_all, null_slots, AreLong, AreSound, IsSound};
ghost use Rattle.columns_array.specs.Boxed.{all_boxed};
ghost use Rattle.columns_array.specs.Fits.{FitParts, FitsStruct};

use super::{ArrayBox, StructArray};
use columns_base::{A, Error, Result};
use columns_core::{Bitmap, DataType, Field, is_same_type};
use columns_leaf::validity::{count_unset, cut_validity, mask_fits};
use std::alloc::Global;

fn struct_fields(data_type: &DataType) -> Option<&Vec<Field>>
    ensures { option_map (λ v. fields_view v.now.items) result ≡ fields_in (base (type_view data_type.now)) }
{
    match data_type.base() {
        DataType::Struct(fields) => Some(fields),
        _ => None,
    }
}

fn are_parts(fields: &Vec<Field>, values: &Vec<ArrayBox>, size: usize) -> bool
    ensures fit { IsTrue result ↔ FitParts size (fields_view fields.now.items) (all_boxed values.now.items) }
    ensures sound { IsTrue result → AreSound size (all_boxed values.now.items) }
{
    if fields.len() != values.len() {
        return false;
    }
    for i in 0..values.len() {
        let field = &fields[i];
        let value = &values[i];
        value.know();
        if !is_same_type(&field.data_type, value.data_type()) {
            return false;
        }
        if value.len() != size {
            return false;
        }
    }
    true
}

#[cycle(cut)]
fn slice_all(values: &mut Vec<ArrayBox>, offset: usize, length: usize)
    requires { AreLong (offset + length) (all_boxed values.old.items) }
    ensures { all_boxed values.new.items ≡ cut_all (all_boxed values.old.items) offset length }
{
    for i in 0..values.len() {
        let child = &mut values[i];
        child.slice(offset, length);
    }
}

impl StructArray {
    /// The array of these parts. A8 where the type is no struct, there is no array, the arrays are not one for each field of its type, their
    /// lengths differ, or the mask has another length.
    pub fn try_new(
        _alloc: Global,
        data_type: DataType,
        values: Vec<ArrayBox>,
        validity: Option<Bitmap>,
    ) -> Result<StructArray>
        ensures made { IfOk result (λ a. a ≡ struct_array (type_view data_type) (all_boxed values.items) validity) }
        ensures refused { IsErrOf result (Error.InvalidArgumentError A.A8)
            ↔ ¬ (FitsStruct (base (type_view data_type)) (all_boxed values.items) validity) }
        ensures err { IfErr result (λ e. e ≡ Error.InvalidArgumentError A.A8) }
    {
        let size = match values.first() {
            Some(first) => first.len(),
            None => return Err(Error::InvalidArgumentError(A::A8)),
        };
        let Some(fields) = struct_fields(&data_type) else {
            return Err(Error::InvalidArgumentError(A::A8));
        };
        if !are_parts(fields, &values, size) || !mask_fits(&validity, size) {
            return Err(Error::InvalidArgumentError(A::A8));
        }
        Ok(StructArray {
            data_type,
            size,
            values,
            validity,
        })
    }

    /// Callers learn what holds of every such array.
    pub fn know(&self)
        ensures sound { IsSound self.now }
        ensures parts { self.now ≡ struct_array (type_of self.now) (children_of self.now) (mask_of self.now) }
    {
        let _ = &self.data_type;
    }

    /// The number of positions.
    pub fn len(&self) -> usize
        ensures { result ≡ tree_len self.now }
    {
        self.size
    }

    /// The type.
    pub fn data_type(&self) -> &DataType
        ensures { type_view result.now ≡ type_of self.now }
    {
        &self.data_type
    }

    /// The arrays of the fields, in order.
    pub fn values(&self) -> &[ArrayBox]
        ensures { all_boxed result.now ≡ children_of self.now }
    {
        &self.values
    }

    /// The mask of the positions that are not null.
    pub fn validity(&self) -> Option<&Bitmap>
        ensures { option_map (λ m. m.now) result ≡ mask_of self.now }
    {
        self.validity.as_ref()
    }

    /// The number of null slots.
    #[tactic(auto, using(columns_slots::proofs::Nulls::nulls_masked))]
    pub fn null_count(&self) -> usize
        ensures { result ≡ null_slots self.now }
    {
        count_unset(&self.validity)
    }

    /// Keeps `length` positions from the position `offset` on, of each field's array too.
    #[cycle(cut)]
    pub fn slice(&mut self, offset: usize, length: usize)
        requires { offset + length ≤ tree_len self.old }
        ensures { self.new ≡ cut self.old offset length }
    {
        self.size = length;
        slice_all(&mut self.values, offset, length);
        cut_validity(&mut self.validity, offset, length);
    }
}
