//! What every array has.
ghost use Rattle.std.specs.Prelude.{◌≡◌, ◌+◌, ◌≤◌, true, false, option_map, take, drop, All};
ghost use Rattle.shredding.specs.Parts.{keeps};
ghost use Rattle.shredding.specs.Shape.{IsOf};
ghost use Rattle.columns_core.specs.View.{type_view};
ghost use Rattle.columns_core.specs.Shapes.{type_shape};
ghost use Rattle.columns_slots.specs.Loose.{loose};
ghost use Rattle.columns_slots.specs.Slots.{slots, slot_at, tree_len, type_of, mask_of, cut, is_null, null_slots, IsSound};
ghost use Rattle.columns_array.specs.Boxed.{boxed, holds_arrays};

use super::ArrayBox;
use columns_core::{Bitmap, DataType};

// Keeps so many positions of an array that holds no others, from a position on.
#[tactic(auto, using(columns_slots::proofs::Cuts::map_cut, crate::proofs::Know::strings_cut, crate::proofs::Know::strings_fit, crate::proofs::Know::widths_cut, crate::proofs::Know::widths_fit))]
fn cut_leaf(array: &mut ArrayBox, offset: usize, length: usize)
    requires leaf { holds_arrays array.old ≡ false }
    requires within { offset + length ≤ tree_len (boxed array.old) }
    ensures { boxed array.new ≡ cut (boxed array.old) offset length }
{
    match array {
        ArrayBox::Null(a) => a.slice(offset, length),
        ArrayBox::Boolean(a) => a.slice(offset, length),
        ArrayBox::Int8(a) => a.slice(offset, length),
        ArrayBox::Int16(a) => a.slice(offset, length),
        ArrayBox::Int32(a) => a.slice(offset, length),
        ArrayBox::Int64(a) => a.slice(offset, length),
        ArrayBox::Int128(a) => a.slice(offset, length),
        ArrayBox::UInt8(a) => a.slice(offset, length),
        ArrayBox::UInt16(a) => a.slice(offset, length),
        ArrayBox::UInt32(a) => a.slice(offset, length),
        ArrayBox::UInt64(a) => a.slice(offset, length),
        ArrayBox::DaysMs(a) => a.slice(offset, length),
        ArrayBox::Utf8(a) => a.slice(offset, length),
        ArrayBox::LargeUtf8(a) => a.slice(offset, length),
        ArrayBox::Binary(a) => a.slice(offset, length),
        ArrayBox::LargeBinary(a) => a.slice(offset, length),
        ArrayBox::FixedSizeBinary(a) => {
            a.know();
            a.slice(offset, length)
        }
        ArrayBox::Dictionary(_) => unreachable!(),
        ArrayBox::List(_) => unreachable!(),
        ArrayBox::LargeList(_) => unreachable!(),
        ArrayBox::FixedSizeList(_) => unreachable!(),
        ArrayBox::Struct(_) => unreachable!(),
        ArrayBox::Map(_) => unreachable!(),
    }
}

impl ArrayBox {
    /// Callers learn what holds of every array.
    #[tactic(auto, using(crate::proofs::Know::numbers_sound, crate::proofs::Know::truths_sound, crate::proofs::Know::bytes_sound, crate::proofs::Know::leaf_i8, crate::proofs::Know::leaf_i16, crate::proofs::Know::leaf_i32, crate::proofs::Know::leaf_i64, crate::proofs::Know::leaf_i128, crate::proofs::Know::leaf_u8, crate::proofs::Know::leaf_u16, crate::proofs::Know::leaf_u32, crate::proofs::Know::leaf_u64, crate::proofs::Know::leaf_days))]
    pub fn know(&self)
        ensures { IsSound (boxed self.now) }
    {
        match self {
            ArrayBox::Null(a) => a.know(),
            ArrayBox::Boolean(a) => a.know(),
            ArrayBox::Int8(a) => a.know(),
            ArrayBox::Int16(a) => a.know(),
            ArrayBox::Int32(a) => a.know(),
            ArrayBox::Int64(a) => a.know(),
            ArrayBox::Int128(a) => a.know(),
            ArrayBox::UInt8(a) => a.know(),
            ArrayBox::UInt16(a) => a.know(),
            ArrayBox::UInt32(a) => a.know(),
            ArrayBox::UInt64(a) => a.know(),
            ArrayBox::DaysMs(a) => a.know(),
            ArrayBox::Utf8(a) => a.know(),
            ArrayBox::LargeUtf8(a) => a.know(),
            ArrayBox::Binary(a) => a.know(),
            ArrayBox::LargeBinary(a) => a.know(),
            ArrayBox::FixedSizeBinary(a) => a.know(),
            ArrayBox::Dictionary(a) => a.know(),
            ArrayBox::List(a) => a.know(),
            ArrayBox::LargeList(a) => a.know(),
            ArrayBox::FixedSizeList(a) => a.know(),
            ArrayBox::Struct(a) => a.know(),
            ArrayBox::Map(a) => a.know(),
        }
    }

    /// The number of positions.
    #[tactic(auto, using(crate::proofs::Know::strings_len, crate::proofs::Know::mapped_len, crate::proofs::Know::widths_len))]
    pub fn len(&self) -> usize
        ensures { result ≡ tree_len (boxed self.now) }
    {
        match self {
            ArrayBox::Null(a) => a.len(),
            ArrayBox::Boolean(a) => a.len(),
            ArrayBox::Int8(a) => a.len(),
            ArrayBox::Int16(a) => a.len(),
            ArrayBox::Int32(a) => a.len(),
            ArrayBox::Int64(a) => a.len(),
            ArrayBox::Int128(a) => a.len(),
            ArrayBox::UInt8(a) => a.len(),
            ArrayBox::UInt16(a) => a.len(),
            ArrayBox::UInt32(a) => a.len(),
            ArrayBox::UInt64(a) => a.len(),
            ArrayBox::DaysMs(a) => a.len(),
            ArrayBox::Utf8(a) => a.len(),
            ArrayBox::LargeUtf8(a) => a.len(),
            ArrayBox::Binary(a) => a.len(),
            ArrayBox::LargeBinary(a) => a.len(),
            ArrayBox::FixedSizeBinary(a) => a.len(),
            ArrayBox::Dictionary(a) => a.len(),
            ArrayBox::List(a) => a.len(),
            ArrayBox::LargeList(a) => a.len(),
            ArrayBox::FixedSizeList(a) => a.len(),
            ArrayBox::Struct(a) => a.len(),
            ArrayBox::Map(a) => a.len(),
        }
    }

    /// The type.
    pub fn data_type(&self) -> &DataType
        ensures { type_view result.now ≡ type_of (boxed self.now) }
    {
        match self {
            ArrayBox::Null(a) => a.data_type(),
            ArrayBox::Boolean(a) => a.data_type(),
            ArrayBox::Int8(a) => a.data_type(),
            ArrayBox::Int16(a) => a.data_type(),
            ArrayBox::Int32(a) => a.data_type(),
            ArrayBox::Int64(a) => a.data_type(),
            ArrayBox::Int128(a) => a.data_type(),
            ArrayBox::UInt8(a) => a.data_type(),
            ArrayBox::UInt16(a) => a.data_type(),
            ArrayBox::UInt32(a) => a.data_type(),
            ArrayBox::UInt64(a) => a.data_type(),
            ArrayBox::DaysMs(a) => a.data_type(),
            ArrayBox::Utf8(a) => a.data_type(),
            ArrayBox::LargeUtf8(a) => a.data_type(),
            ArrayBox::Binary(a) => a.data_type(),
            ArrayBox::LargeBinary(a) => a.data_type(),
            ArrayBox::FixedSizeBinary(a) => a.data_type(),
            ArrayBox::Dictionary(a) => a.data_type(),
            ArrayBox::List(a) => a.data_type(),
            ArrayBox::LargeList(a) => a.data_type(),
            ArrayBox::FixedSizeList(a) => a.data_type(),
            ArrayBox::Struct(a) => a.data_type(),
            ArrayBox::Map(a) => a.data_type(),
        }
    }

    /// The mask of the positions that are not null, if it has one. A null array has none, that of a dictionary is its keys' mask.
    pub fn validity(&self) -> Option<&Bitmap>
        ensures { option_map (λ m. m.now) result ≡ mask_of (boxed self.now) }
    {
        match self {
            ArrayBox::Null(_) => None,
            ArrayBox::Boolean(a) => a.validity(),
            ArrayBox::Int8(a) => a.validity(),
            ArrayBox::Int16(a) => a.validity(),
            ArrayBox::Int32(a) => a.validity(),
            ArrayBox::Int64(a) => a.validity(),
            ArrayBox::Int128(a) => a.validity(),
            ArrayBox::UInt8(a) => a.validity(),
            ArrayBox::UInt16(a) => a.validity(),
            ArrayBox::UInt32(a) => a.validity(),
            ArrayBox::UInt64(a) => a.validity(),
            ArrayBox::DaysMs(a) => a.validity(),
            ArrayBox::Utf8(a) => a.validity(),
            ArrayBox::LargeUtf8(a) => a.validity(),
            ArrayBox::Binary(a) => a.validity(),
            ArrayBox::LargeBinary(a) => a.validity(),
            ArrayBox::FixedSizeBinary(a) => a.validity(),
            ArrayBox::Dictionary(a) => a.validity(),
            ArrayBox::List(a) => a.validity(),
            ArrayBox::LargeList(a) => a.validity(),
            ArrayBox::FixedSizeList(a) => a.validity(),
            ArrayBox::Struct(a) => a.validity(),
            ArrayBox::Map(a) => a.validity(),
        }
    }

    /// Keeps `length` positions from the position `offset` on. Nothing is copied.
    #[cycle(cut)]
    pub fn slice(&mut self, offset: usize, length: usize)
        requires { offset + length ≤ tree_len (boxed self.old) }
        ensures { boxed self.new ≡ cut (boxed self.old) offset length }
    {
        match self {
            ArrayBox::Dictionary(a) => a.slice(offset, length),
            ArrayBox::List(a) => a.slice(offset, length),
            ArrayBox::LargeList(a) => a.slice(offset, length),
            ArrayBox::FixedSizeList(a) => a.slice(offset, length),
            ArrayBox::Struct(a) => a.slice(offset, length),
            ArrayBox::Map(a) => a.slice(offset, length),
            leaf => cut_leaf(leaf, offset, length),
        }
    }

    /// Callers learn that the slots are of the type, where each part counts as nullable.
    #[tactic(auto, using(columns_slots::proofs::OfType::slots_of_type))]
    pub fn know_slots(&self)
        ensures { All (IsOf (loose (type_shape true (type_of (boxed self.now))))) (slots (boxed self.now)) }
    {
        self.know();
    }
}
