//! The keys of a dictionary array.
ghost use Rattle.std.specs.Prelude.{◌≡◌, ◌+◌, ◌≤◌, IfOk, IfErr, option_map, take, drop, length as list_length};
ghost use Rattle.columns_leaf.specs.Keyed.{keys_of, key_mask, key_kind, key_data_type};
ghost use Rattle.columns_slots.specs.Slots.{cut_mask, nulls_in};
ghost use Rattle.shredding.specs.Parts.{MaskFits};

use crate::leaves::PrimitiveArray;
use columns_core::bitmap::Bitmap;
use columns_core::types::IntegerType;
use columns_core::{Error, Result};
use std::alloc::Global;

/// Keys of one type (Arrow columnar format, "Dictionary-encoded Layout").
#[derive(Debug, Drop)]
pub enum DictionaryKeys {
    Int8(PrimitiveArray<i8>),
    Int16(PrimitiveArray<i16>),
    Int32(PrimitiveArray<i32>),
    Int64(PrimitiveArray<i64>),
    UInt8(PrimitiveArray<u8>),
    UInt16(PrimitiveArray<u16>),
    UInt32(PrimitiveArray<u32>),
    UInt64(PrimitiveArray<u64>),
}

impl DictionaryKeys {
    /// How many positions there are.
    pub fn len(&self) -> usize
        ensures { result ≡ list_length (keys_of self.now) }
    {
        match self {
            DictionaryKeys::Int8(a) => a.len(),
            DictionaryKeys::Int16(a) => a.len(),
            DictionaryKeys::Int32(a) => a.len(),
            DictionaryKeys::Int64(a) => a.len(),
            DictionaryKeys::UInt8(a) => a.len(),
            DictionaryKeys::UInt16(a) => a.len(),
            DictionaryKeys::UInt32(a) => a.len(),
            DictionaryKeys::UInt64(a) => a.len(),
        }
    }

    /// Callers learn what holds of every such array.
    #[tactic(auto, using(crate::proofs::Lens::mask_mapped))]
    pub fn know(&self)
        ensures { MaskFits (key_mask self.now) (list_length (keys_of self.now)) }
    {
        match self {
            DictionaryKeys::Int8(a) => a.know(),
            DictionaryKeys::Int16(a) => a.know(),
            DictionaryKeys::Int32(a) => a.know(),
            DictionaryKeys::Int64(a) => a.know(),
            DictionaryKeys::UInt8(a) => a.know(),
            DictionaryKeys::UInt16(a) => a.know(),
            DictionaryKeys::UInt32(a) => a.know(),
            DictionaryKeys::UInt64(a) => a.know(),
        }
    }

    /// Which positions are not null; with no mask, all.
    pub fn validity(&self) -> Option<&Bitmap>
        ensures { option_map (λ m. m.now) result ≡ key_mask self.now }
    {
        match self {
            DictionaryKeys::Int8(a) => a.validity(),
            DictionaryKeys::Int16(a) => a.validity(),
            DictionaryKeys::Int32(a) => a.validity(),
            DictionaryKeys::Int64(a) => a.validity(),
            DictionaryKeys::UInt8(a) => a.validity(),
            DictionaryKeys::UInt16(a) => a.validity(),
            DictionaryKeys::UInt32(a) => a.validity(),
            DictionaryKeys::UInt64(a) => a.validity(),
        }
    }

    /// How many keys are null.
    pub fn null_count(&self) -> usize
        ensures { result ≡ nulls_in (key_mask self.now) }
    {
        match self {
            DictionaryKeys::Int8(a) => a.null_count(),
            DictionaryKeys::Int16(a) => a.null_count(),
            DictionaryKeys::Int32(a) => a.null_count(),
            DictionaryKeys::Int64(a) => a.null_count(),
            DictionaryKeys::UInt8(a) => a.null_count(),
            DictionaryKeys::UInt16(a) => a.null_count(),
            DictionaryKeys::UInt32(a) => a.null_count(),
            DictionaryKeys::UInt64(a) => a.null_count(),
        }
    }

    /// The type of the keys.
    pub fn integer_type(&self) -> IntegerType
        ensures { result ≡ key_kind self.now }
    {
        match self {
            DictionaryKeys::Int8(_) => IntegerType::Int8,
            DictionaryKeys::Int16(_) => IntegerType::Int16,
            DictionaryKeys::Int32(_) => IntegerType::Int32,
            DictionaryKeys::Int64(_) => IntegerType::Int64,
            DictionaryKeys::UInt8(_) => IntegerType::UInt8,
            DictionaryKeys::UInt16(_) => IntegerType::UInt16,
            DictionaryKeys::UInt32(_) => IntegerType::UInt32,
            DictionaryKeys::UInt64(_) => IntegerType::UInt64,
        }
    }

    /// Keeps `length` positions from the position `offset` on. Nothing is copied.
    #[tactic(auto, using(columns_slots::proofs::Cuts::map_cut))]
    pub fn slice(&mut self, offset: usize, length: usize)
        requires { offset + length ≤ list_length (keys_of self.old) }
        ensures keys { keys_of self.new ≡ take length (drop offset (keys_of self.old)) }
        ensures mask { key_mask self.new ≡ cut_mask (key_mask self.old) offset length }
        ensures kind { key_kind self.new ≡ key_kind self.old }
        ensures typed { key_data_type self.new ≡ key_data_type self.old }
    {
        match self {
            DictionaryKeys::Int8(a) => a.slice(offset, length),
            DictionaryKeys::Int16(a) => a.slice(offset, length),
            DictionaryKeys::Int32(a) => a.slice(offset, length),
            DictionaryKeys::Int64(a) => a.slice(offset, length),
            DictionaryKeys::UInt8(a) => a.slice(offset, length),
            DictionaryKeys::UInt16(a) => a.slice(offset, length),
            DictionaryKeys::UInt32(a) => a.slice(offset, length),
            DictionaryKeys::UInt64(a) => a.slice(offset, length),
        }
    }

    /// An equal array, which shares its values.
    ///
    /// # Errors
    ///
    /// `Memory`.
    pub fn clone(&self, alloc: Global) -> Result<DictionaryKeys>
        ensures keys { IfOk result (λ k. keys_of k ≡ keys_of self.now) }
        ensures mask { IfOk result (λ k. key_mask k ≡ key_mask self.now) }
        ensures kind { IfOk result (λ k. key_kind k ≡ key_kind self.now) }
        ensures typed { IfOk result (λ k. key_data_type k ≡ key_data_type self.now) }
        ensures err { IfErr result (λ e. e ≡ Error.Memory) }
    {
        match self {
            DictionaryKeys::Int8(a) => a.clone(alloc).map(DictionaryKeys::Int8),
            DictionaryKeys::Int16(a) => a.clone(alloc).map(DictionaryKeys::Int16),
            DictionaryKeys::Int32(a) => a.clone(alloc).map(DictionaryKeys::Int32),
            DictionaryKeys::Int64(a) => a.clone(alloc).map(DictionaryKeys::Int64),
            DictionaryKeys::UInt8(a) => a.clone(alloc).map(DictionaryKeys::UInt8),
            DictionaryKeys::UInt16(a) => a.clone(alloc).map(DictionaryKeys::UInt16),
            DictionaryKeys::UInt32(a) => a.clone(alloc).map(DictionaryKeys::UInt32),
            DictionaryKeys::UInt64(a) => a.clone(alloc).map(DictionaryKeys::UInt64),
        }
    }
}
