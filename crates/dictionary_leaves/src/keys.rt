//! The keys of a dictionary from the numbers that are read of them.
ghost use Rattle.std.specs.Prelude.{◌≡◌, ◌<◌, false, true, length, map, pos, slice_index_or, Some, IfErr, IfOk};
ghost use Rattle.columns_base.specs.declared.error.Error.TheVariants.{Memory};
ghost use Rattle.columns_core.specs.Shapes.{base};
ghost use Rattle.columns_core.specs.View.{type_view};
ghost use Rattle.columns_core.specs.declared.types.IntegerType.TheVariants as kinds;
ghost use Rattle.columns_leaf.specs.Keyed.{key_kind, key_mask, keys_of};
ghost use Rattle.dictionary_leaves.specs.KeySlots.{AreMaskedTo, IsMaskedBit, IsKeyBit, KeepKeys};
ghost use Rattle.read_leaf.specs.Numbers.{number_slots};

use columns_base::{Error, Result};
use columns_core::{Bitmap, DataType, DictionaryKey, MutableBitmap, NativeType};
use columns_leaf::PrimitiveArray;
use columns_leaf::keys::DictionaryKeys;
use read_leaf::NumberValues;
use std::alloc::Global;

/// A number that keys of a dictionary may be (Arrow columnar format, "Dictionary-encoded Layout").
pub trait KeyNumber: Copy + Drop {
    ghost use Rattle.std.specs.Prelude.{ℤ};
    ghost use Rattle.columns_core.specs.declared.types.IntegerType.{IntegerType};

    // the type of such keys
    ghost key: { IntegerType };

    // the number, as an array of keys has it
    ghost kept: { Self → ℤ };

    // the number, as it is loaded
    ghost loaded_key: { Self → ℤ };

    /// Whether it is the number of one of so many entries.
    fn is_entry(&self, count: usize) -> bool
        ensures { IsKeyBit count (kept self.now) (loaded_key self.now) result };

    /// The keys of these numbers, null where the mask is false.
    ///
    /// # Errors
    ///
    /// `Memory`.
    fn keys(alloc: Global, numbers: Vec<Self>, validity: Bitmap) -> Result<DictionaryKeys>
        requires { length validity ≡ length numbers.items }
        ensures kind { IfOk result (λ k. key_kind k ≡ key) }
        ensures keys { IfOk result (λ k. keys_of k ≡ map kept numbers.items) }
        ensures mask { IfOk result (λ k. key_mask k ≡ Some validity) }
        ensures err { IfErr result (λ e. e ≡ Memory) };
}

// Numbers of a type, null where the mask is false.
fn number_array<T: NativeType>(
    alloc: Global,
    data_type: DataType,
    numbers: Vec<T>,
    validity: Bitmap,
) -> Result<PrimitiveArray<T>>
    requires mask { length validity ≡ length numbers.items }
    requires typed { T.stores (base (type_view data_type)) ≡ true }
    ensures ok { IfOk result (λ a. a ≡ (type_view data_type, (numbers.items, Some validity))) }
    ensures err { IfErr result (λ e. e ≡ Memory) }
{
    match PrimitiveArray::try_new(alloc, data_type, numbers, Some(validity)) {
        Ok(array) => Ok(array),
        Err(error) => Err(error),
    }
}

impl KeyNumber for i8 {
    ghost use Rattle.std.specs.Prelude.{pos};
    ghost use Rattle.columns_core.specs.Natives.{within_signed};

    ghost key = { kinds.Int8 };

    ghost kept = { λ x. x };

    ghost loaded_key = { λ x. within_signed 8 x };

    fn is_entry(&self, count: usize) -> bool {
        let key = *self;
        key.is_below(count)
    }

    fn keys(alloc: Global, numbers: Vec<i8>, validity: Bitmap) -> Result<DictionaryKeys>
        requires { length validity ≡ length numbers.items }
        ensures kind { IfOk result (λ k. key_kind k ≡ kinds.Int8) }
        ensures keys { IfOk result (λ k. keys_of k ≡ map (λ x. x) numbers.items) }
        ensures mask { IfOk result (λ k. key_mask k ≡ Some validity) }
        ensures err { IfErr result (λ e. e ≡ Memory) }
    {
        match number_array(alloc, DataType::Int8, numbers, validity) {
            Ok(array) => Ok(DictionaryKeys::Int8(array)),
            Err(error) => Err(error),
        }
    }
}

impl KeyNumber for i16 {
    ghost use Rattle.std.specs.Prelude.{pos};
    ghost use Rattle.columns_core.specs.Natives.{within_signed};

    ghost key = { kinds.Int16 };

    ghost kept = { λ x. x };

    ghost loaded_key = { λ x. within_signed 16 x };

    fn is_entry(&self, count: usize) -> bool {
        let key = *self;
        key.is_below(count)
    }

    fn keys(alloc: Global, numbers: Vec<i16>, validity: Bitmap) -> Result<DictionaryKeys>
        requires { length validity ≡ length numbers.items }
        ensures kind { IfOk result (λ k. key_kind k ≡ kinds.Int16) }
        ensures keys { IfOk result (λ k. keys_of k ≡ map (λ x. x) numbers.items) }
        ensures mask { IfOk result (λ k. key_mask k ≡ Some validity) }
        ensures err { IfErr result (λ e. e ≡ Memory) }
    {
        match number_array(alloc, DataType::Int16, numbers, validity) {
            Ok(array) => Ok(DictionaryKeys::Int16(array)),
            Err(error) => Err(error),
        }
    }
}

impl KeyNumber for i32 {
    ghost use Rattle.std.specs.Prelude.{pos};
    ghost use Rattle.columns_core.specs.Natives.{within_signed};

    ghost key = { kinds.Int32 };

    ghost kept = { λ x. x };

    ghost loaded_key = { λ x. within_signed 32 x };

    fn is_entry(&self, count: usize) -> bool {
        let key = *self;
        key.is_below(count)
    }

    fn keys(alloc: Global, numbers: Vec<i32>, validity: Bitmap) -> Result<DictionaryKeys>
        requires { length validity ≡ length numbers.items }
        ensures kind { IfOk result (λ k. key_kind k ≡ kinds.Int32) }
        ensures keys { IfOk result (λ k. keys_of k ≡ map (λ x. x) numbers.items) }
        ensures mask { IfOk result (λ k. key_mask k ≡ Some validity) }
        ensures err { IfErr result (λ e. e ≡ Memory) }
    {
        match number_array(alloc, DataType::Int32, numbers, validity) {
            Ok(array) => Ok(DictionaryKeys::Int32(array)),
            Err(error) => Err(error),
        }
    }
}

impl KeyNumber for i64 {
    ghost use Rattle.std.specs.Prelude.{pos};
    ghost use Rattle.columns_core.specs.Natives.{within_signed};

    ghost key = { kinds.Int64 };

    ghost kept = { λ x. x };

    ghost loaded_key = { λ x. within_signed 64 x };

    fn is_entry(&self, count: usize) -> bool {
        let key = *self;
        key.is_below(count)
    }

    fn keys(alloc: Global, numbers: Vec<i64>, validity: Bitmap) -> Result<DictionaryKeys>
        requires { length validity ≡ length numbers.items }
        ensures kind { IfOk result (λ k. key_kind k ≡ kinds.Int64) }
        ensures keys { IfOk result (λ k. keys_of k ≡ map (λ x. x) numbers.items) }
        ensures mask { IfOk result (λ k. key_mask k ≡ Some validity) }
        ensures err { IfErr result (λ e. e ≡ Memory) }
    {
        match number_array(alloc, DataType::Int64, numbers, validity) {
            Ok(array) => Ok(DictionaryKeys::Int64(array)),
            Err(error) => Err(error),
        }
    }
}

impl KeyNumber for u8 {
    ghost use Rattle.std.specs.Prelude.{pos};
    ghost use Rattle.columns_core.specs.Natives.{within_unsigned};

    ghost key = { kinds.UInt8 };

    ghost kept = { λ x. pos x };

    ghost loaded_key = { λ x. pos (within_unsigned 8 x) };

    fn is_entry(&self, count: usize) -> bool {
        let key = *self;
        key.is_below(count)
    }

    fn keys(alloc: Global, numbers: Vec<u8>, validity: Bitmap) -> Result<DictionaryKeys>
        requires { length validity ≡ length numbers.items }
        ensures kind { IfOk result (λ k. key_kind k ≡ kinds.UInt8) }
        ensures keys { IfOk result (λ k. keys_of k ≡ map (λ x. pos x) numbers.items) }
        ensures mask { IfOk result (λ k. key_mask k ≡ Some validity) }
        ensures err { IfErr result (λ e. e ≡ Memory) }
    {
        match number_array(alloc, DataType::UInt8, numbers, validity) {
            Ok(array) => Ok(DictionaryKeys::UInt8(array)),
            Err(error) => Err(error),
        }
    }
}

impl KeyNumber for u16 {
    ghost use Rattle.std.specs.Prelude.{pos};
    ghost use Rattle.columns_core.specs.Natives.{within_unsigned};

    ghost key = { kinds.UInt16 };

    ghost kept = { λ x. pos x };

    ghost loaded_key = { λ x. pos (within_unsigned 16 x) };

    fn is_entry(&self, count: usize) -> bool {
        let key = *self;
        key.is_below(count)
    }

    fn keys(alloc: Global, numbers: Vec<u16>, validity: Bitmap) -> Result<DictionaryKeys>
        requires { length validity ≡ length numbers.items }
        ensures kind { IfOk result (λ k. key_kind k ≡ kinds.UInt16) }
        ensures keys { IfOk result (λ k. keys_of k ≡ map (λ x. pos x) numbers.items) }
        ensures mask { IfOk result (λ k. key_mask k ≡ Some validity) }
        ensures err { IfErr result (λ e. e ≡ Memory) }
    {
        match number_array(alloc, DataType::UInt16, numbers, validity) {
            Ok(array) => Ok(DictionaryKeys::UInt16(array)),
            Err(error) => Err(error),
        }
    }
}

impl KeyNumber for u32 {
    ghost use Rattle.std.specs.Prelude.{pos};
    ghost use Rattle.columns_core.specs.Natives.{within_unsigned};

    ghost key = { kinds.UInt32 };

    ghost kept = { λ x. pos x };

    ghost loaded_key = { λ x. pos (within_unsigned 32 x) };

    fn is_entry(&self, count: usize) -> bool {
        let key = *self;
        key.is_below(count)
    }

    fn keys(alloc: Global, numbers: Vec<u32>, validity: Bitmap) -> Result<DictionaryKeys>
        requires { length validity ≡ length numbers.items }
        ensures kind { IfOk result (λ k. key_kind k ≡ kinds.UInt32) }
        ensures keys { IfOk result (λ k. keys_of k ≡ map (λ x. pos x) numbers.items) }
        ensures mask { IfOk result (λ k. key_mask k ≡ Some validity) }
        ensures err { IfErr result (λ e. e ≡ Memory) }
    {
        match number_array(alloc, DataType::UInt32, numbers, validity) {
            Ok(array) => Ok(DictionaryKeys::UInt32(array)),
            Err(error) => Err(error),
        }
    }
}

impl KeyNumber for u64 {
    ghost use Rattle.std.specs.Prelude.{pos};
    ghost use Rattle.columns_core.specs.Natives.{within_unsigned};

    ghost key = { kinds.UInt64 };

    ghost kept = { λ x. pos x };

    ghost loaded_key = { λ x. pos (within_unsigned 64 x) };

    fn is_entry(&self, count: usize) -> bool {
        let key = *self;
        key.is_below(count)
    }

    fn keys(alloc: Global, numbers: Vec<u64>, validity: Bitmap) -> Result<DictionaryKeys>
        requires { length validity ≡ length numbers.items }
        ensures kind { IfOk result (λ k. key_kind k ≡ kinds.UInt64) }
        ensures keys { IfOk result (λ k. keys_of k ≡ map (λ x. pos x) numbers.items) }
        ensures mask { IfOk result (λ k. key_mask k ≡ Some validity) }
        ensures err { IfErr result (λ e. e ≡ Memory) }
    {
        match number_array(alloc, DataType::UInt64, numbers, validity) {
            Ok(array) => Ok(DictionaryKeys::UInt64(array)),
            Err(error) => Err(error),
        }
    }
}

// Whether the number at a place is kept as a key.
fn is_kept<K: KeyNumber>(numbers: &[K], validity: &Bitmap, i: usize, count: usize) -> bool
    requires number { i < length numbers.now }
    requires bit { i < length validity.now }
    ensures { IsMaskedBit count (slice_index_or validity.now i false)
        (slice_index_or (map K.kept numbers.now) i (pos 0))
        (slice_index_or (map K.loaded_key numbers.now) i (pos 0)) result }
{
    validity.get_bit(i) && numbers[i].is_entry(count)
}

// Which numbers are kept as keys.
fn kept_bits<K: KeyNumber>(
    alloc: Global,
    numbers: &[K],
    validity: &Bitmap,
    count: usize,
) -> Result<MutableBitmap>
    requires { length validity.now ≡ length numbers.now }
    ensures ok { IfOk result (λ bits. AreMaskedTo (length numbers.now) count validity.now (map K.kept numbers.now)
        (map K.loaded_key numbers.now) bits.0) }
    ensures err { IfErr result (λ e. e ≡ Memory) }
{
    let mut bits = MutableBitmap::with_capacity(alloc, numbers.len())?;
    for i in 0..numbers.len() {
        bits.push(is_kept(numbers, validity, i, count))?;
    }
    Ok(bits)
}

/// The keys of one of so many entries from the numbers of a column, null where there is none.
///
/// # Errors
///
/// `Memory`.
pub fn kept_keys<K: KeyNumber>(
    alloc: Global,
    values: NumberValues<K>,
    count: usize,
) -> Result<DictionaryKeys>
    ensures kind { IfOk result (λ k. key_kind k ≡ K.key) }
    ensures ok { IfOk result (λ k. KeepKeys count (number_slots (map K.loaded_key values.0) values.1) (key_mask k)
        (keys_of k)) }
    ensures err { IfErr result (λ e. e ≡ Memory) }
{
    let (numbers, validity) = values.into_parts();
    let validity = validity.into_bitmap()?;
    let bits = kept_bits(alloc, &numbers, &validity, count)?;
    K::keys(alloc, numbers, bits.into_bitmap()?)
}
