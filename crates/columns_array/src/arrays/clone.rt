//! Clones, which have the type and the slots of their source. Values, offsets and masks are shared.
ghost use Rattle.std.specs.Prelude.{◌≡◌, false, IfOk, IfErr};
ghost use Rattle.columns_slots.specs.Slots.{child_of, children_of};
ghost use Rattle.columns_array.specs.Boxed.{boxed, all_boxed, holds_arrays};

use super::{
    ArrayBox, DictionaryArray, FixedSizeListArray, LargeListArray, ListArray, MapArray, StructArray,
};
use columns_base::{Error, Result};
use columns_leaf::validity::copy_validity;
use std::alloc::Global;

impl ListArray {
    // The same over a copy of its values.
    fn over(&self, alloc: Global, values: ArrayBox) -> Result<ListArray>
        requires { boxed values ≡ child_of self.now }
        ensures ok { IfOk result (λ a. a ≡ self.now) }
        ensures err { IfErr result (λ e. e ≡ Error.Memory) }
    {
        Ok(ListArray {
            data_type: self.data_type.clone(alloc)?,
            offsets: self.offsets.clone()?,
            values: Box::new(alloc, values)?,
            validity: copy_validity(&self.validity)?,
        })
    }

    /// An array that stands for the same.
    #[cycle(copy)]
    pub fn clone(&self, alloc: Global) -> Result<ListArray>
        ensures ok { IfOk result (λ a. a ≡ self.now) }
        ensures err { IfErr result (λ e. e ≡ Error.Memory) }
    {
        match self.values.clone(alloc) {
            Ok(values) => self.over(alloc, values),
            Err(error) => Err(error),
        }
    }
}

impl LargeListArray {
    // The same over a copy of its values.
    fn over(&self, alloc: Global, values: ArrayBox) -> Result<LargeListArray>
        requires { boxed values ≡ child_of self.now }
        ensures ok { IfOk result (λ a. a ≡ self.now) }
        ensures err { IfErr result (λ e. e ≡ Error.Memory) }
    {
        Ok(LargeListArray {
            data_type: self.data_type.clone(alloc)?,
            offsets: self.offsets.clone()?,
            values: Box::new(alloc, values)?,
            validity: copy_validity(&self.validity)?,
        })
    }

    /// An array that stands for the same.
    #[cycle(copy)]
    pub fn clone(&self, alloc: Global) -> Result<LargeListArray>
        ensures ok { IfOk result (λ a. a ≡ self.now) }
        ensures err { IfErr result (λ e. e ≡ Error.Memory) }
    {
        match self.values.clone(alloc) {
            Ok(values) => self.over(alloc, values),
            Err(error) => Err(error),
        }
    }
}

impl FixedSizeListArray {
    // The same over a copy of its values.
    fn over(&self, alloc: Global, values: ArrayBox) -> Result<FixedSizeListArray>
        requires { boxed values ≡ child_of self.now }
        ensures ok { IfOk result (λ a. a ≡ self.now) }
        ensures err { IfErr result (λ e. e ≡ Error.Memory) }
    {
        Ok(FixedSizeListArray {
            data_type: self.data_type.clone(alloc)?,
            width: self.width,
            size: self.size,
            values: Box::new(alloc, values)?,
            validity: copy_validity(&self.validity)?,
        })
    }

    /// An array that stands for the same.
    #[cycle(copy)]
    pub fn clone(&self, alloc: Global) -> Result<FixedSizeListArray>
        ensures ok { IfOk result (λ a. a ≡ self.now) }
        ensures err { IfErr result (λ e. e ≡ Error.Memory) }
    {
        match self.values.clone(alloc) {
            Ok(values) => self.over(alloc, values),
            Err(error) => Err(error),
        }
    }
}

impl MapArray {
    // The same over a copy of its values.
    fn over(&self, alloc: Global, values: ArrayBox) -> Result<MapArray>
        requires { boxed values ≡ child_of self.now }
        ensures ok { IfOk result (λ a. a ≡ self.now) }
        ensures err { IfErr result (λ e. e ≡ Error.Memory) }
    {
        Ok(MapArray {
            data_type: self.data_type.clone(alloc)?,
            offsets: self.offsets.clone()?,
            values: Box::new(alloc, values)?,
            validity: copy_validity(&self.validity)?,
        })
    }

    /// An array that stands for the same.
    #[cycle(copy)]
    pub fn clone(&self, alloc: Global) -> Result<MapArray>
        ensures ok { IfOk result (λ a. a ≡ self.now) }
        ensures err { IfErr result (λ e. e ≡ Error.Memory) }
    {
        match self.values.clone(alloc) {
            Ok(values) => self.over(alloc, values),
            Err(error) => Err(error),
        }
    }
}

impl DictionaryArray {
    // The same over a copy of its values.
    fn over(&self, alloc: Global, values: ArrayBox) -> Result<DictionaryArray>
        requires { boxed values ≡ child_of self.now }
        ensures ok { IfOk result (λ a. a ≡ self.now) }
        ensures err { IfErr result (λ e. e ≡ Error.Memory) }
    {
        Ok(DictionaryArray {
            data_type: self.data_type.clone(alloc)?,
            keys: self.keys.clone(alloc)?,
            values: Box::new(alloc, values)?,
        })
    }

    /// An array that stands for the same.
    #[cycle(copy)]
    pub fn clone(&self, alloc: Global) -> Result<DictionaryArray>
        ensures ok { IfOk result (λ a. a ≡ self.now) }
        ensures err { IfErr result (λ e. e ≡ Error.Memory) }
    {
        match self.values.clone(alloc) {
            Ok(values) => self.over(alloc, values),
            Err(error) => Err(error),
        }
    }
}

impl StructArray {
    // The same over copies of its values.
    fn over(&self, alloc: Global, values: Vec<ArrayBox>) -> Result<StructArray>
        requires { all_boxed values.items ≡ children_of self.now }
        ensures ok { IfOk result (λ a. a ≡ self.now) }
        ensures err { IfErr result (λ e. e ≡ Error.Memory) }
    {
        Ok(StructArray {
            data_type: self.data_type.clone(alloc)?,
            size: self.size,
            values,
            validity: copy_validity(&self.validity)?,
        })
    }

    /// An array that stands for the same.
    #[cycle(copy)]
    pub fn clone(&self, alloc: Global) -> Result<StructArray>
        ensures ok { IfOk result (λ a. a ≡ self.now) }
        ensures err { IfErr result (λ e. e ≡ Error.Memory) }
    {
        match copy_all(&self.values, alloc) {
            Ok(values) => self.over(alloc, values),
            Err(error) => Err(error),
        }
    }
}

// A copy of an array that holds no others.
fn copy_leaf(array: &ArrayBox, alloc: Global) -> Result<ArrayBox>
    requires { holds_arrays array.now ≡ false }
    ensures ok { IfOk result (λ b. boxed b ≡ boxed array.now) }
    ensures err { IfErr result (λ e. e ≡ Error.Memory) }
{
    match array {
        ArrayBox::Null(a) => a.clone(alloc).map(ArrayBox::Null),
        ArrayBox::Boolean(a) => a.clone(alloc).map(ArrayBox::Boolean),
        ArrayBox::Int8(a) => a.clone(alloc).map(ArrayBox::Int8),
        ArrayBox::Int16(a) => a.clone(alloc).map(ArrayBox::Int16),
        ArrayBox::Int32(a) => a.clone(alloc).map(ArrayBox::Int32),
        ArrayBox::Int64(a) => a.clone(alloc).map(ArrayBox::Int64),
        ArrayBox::Int128(a) => a.clone(alloc).map(ArrayBox::Int128),
        ArrayBox::UInt8(a) => a.clone(alloc).map(ArrayBox::UInt8),
        ArrayBox::UInt16(a) => a.clone(alloc).map(ArrayBox::UInt16),
        ArrayBox::UInt32(a) => a.clone(alloc).map(ArrayBox::UInt32),
        ArrayBox::UInt64(a) => a.clone(alloc).map(ArrayBox::UInt64),
        ArrayBox::DaysMs(a) => a.clone(alloc).map(ArrayBox::DaysMs),
        ArrayBox::Utf8(a) => a.clone(alloc).map(ArrayBox::Utf8),
        ArrayBox::LargeUtf8(a) => a.clone(alloc).map(ArrayBox::LargeUtf8),
        ArrayBox::Binary(a) => a.clone(alloc).map(ArrayBox::Binary),
        ArrayBox::LargeBinary(a) => a.clone(alloc).map(ArrayBox::LargeBinary),
        ArrayBox::FixedSizeBinary(a) => a.clone(alloc).map(ArrayBox::FixedSizeBinary),
        ArrayBox::Dictionary(_) => unreachable!(),
        ArrayBox::List(_) => unreachable!(),
        ArrayBox::LargeList(_) => unreachable!(),
        ArrayBox::FixedSizeList(_) => unreachable!(),
        ArrayBox::Struct(_) => unreachable!(),
        ArrayBox::Map(_) => unreachable!(),
    }
}

impl ArrayBox {
    /// An array that stands for the same.
    #[cycle(copy)]
    pub fn clone(&self, alloc: Global) -> Result<ArrayBox>
        ensures ok { IfOk result (λ b. boxed b ≡ boxed self.now) }
        ensures err { IfErr result (λ e. e ≡ Error.Memory) }
    {
        match self {
            ArrayBox::Dictionary(a) => a.clone(alloc).map(ArrayBox::Dictionary),
            ArrayBox::List(a) => a.clone(alloc).map(ArrayBox::List),
            ArrayBox::LargeList(a) => a.clone(alloc).map(ArrayBox::LargeList),
            ArrayBox::FixedSizeList(a) => a.clone(alloc).map(ArrayBox::FixedSizeList),
            ArrayBox::Struct(a) => a.clone(alloc).map(ArrayBox::Struct),
            ArrayBox::Map(a) => a.clone(alloc).map(ArrayBox::Map),
            leaf => copy_leaf(leaf, alloc),
        }
    }
}

#[cycle(copy)]
#[tactic(auto, using(crate::proofs::Boxes::copy_step))]
pub(crate) fn copy_all(values: &Vec<ArrayBox>, alloc: Global) -> Result<Vec<ArrayBox>>
    ensures ok { IfOk result (λ v. all_boxed v.items ≡ all_boxed values.now.items) }
    ensures err { IfErr result (λ e. e ≡ Error.Memory) }
{
    let mut copies = Vec::with_capacity(alloc, values.len())?;
    for child in values {
        copies.push(child.clone(alloc)?)?;
    }
    Ok(copies)
}
