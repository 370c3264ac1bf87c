//! Dictionaries.
ghost use Rattle.std.specs.Prelude.{◌≡◌, ◌↔◌, ◌+◌, ◌≤◌, ◌⊎◌, IsTrue, Some, IfOk, IfErr, IsErrOf, option_map};
ghost use Rattle.columns_core.specs.View.{type_view};
ghost use Rattle.columns_core.specs.Shapes.{base};
ghost use Rattle.columns_slots.specs.Tree.{dictionary_array};
ghost use Rattle.columns_slots.specs.Types.{entry_type, key_type};
ghost use Rattle.columns_slots.specs.Slots.{tree_len, type_of, mask_of, keys_in, child_of, cut, IsSound};
ghost use Rattle.columns_leaf.specs.Keyed.{keys_of, key_mask, key_kind};
ghost use Rattle.columns_array.specs.Boxed.{boxed};
ghost use Rattle.columns_array.specs.Fits.{FitsKeys};

use super::keys::are_below;
use super::{ArrayBox, DictionaryArray};
use columns_base::{A, Error, Result};
use columns_core::{Bitmap, DataType, IntegerType, is_same_type};
use columns_leaf::keys::DictionaryKeys;
use std::alloc::Global;

fn entries_type(data_type: &DataType) -> Option<&DataType>
    ensures { option_map (λ t. type_view t.now) result ≡ entry_type (base (type_view data_type.now)) }
{
    match data_type.base() {
        DataType::Dictionary(_, value, _) => Some(value),
        _ => None,
    }
}

fn keys_type(data_type: &DataType) -> Option<IntegerType>
    ensures { result ≡ key_type (base (type_view data_type.now)) }
{
    match data_type.base() {
        DataType::Dictionary(key, _, _) => Some(*key),
        _ => None,
    }
}

fn has_entries(data_type: &DataType, entries: &DataType) -> bool
    ensures { IsTrue result ↔ entry_type (base (type_view data_type.now)) ≡ Some (type_view entries.now) }
{
    match entries_type(data_type) {
        Some(found) => is_same_type(found, entries),
        None => false,
    }
}

fn has_keys(data_type: &DataType, keys: &DictionaryKeys) -> bool
    ensures { IsTrue result ↔ key_type (base (type_view data_type.now)) ≡ Some (key_kind keys.now) }
{
    match keys_type(data_type) {
        Some(found) => found == keys.integer_type(),
        None => false,
    }
}

impl DictionaryArray {
    /// The array of these parts. A8 where the type is no dictionary of the keys' and the entries' types, or a key that is not null is
    /// negative or numbers no entry.
    pub fn try_new(
        alloc: Global,
        data_type: DataType,
        keys: DictionaryKeys,
        values: ArrayBox,
    ) -> Result<DictionaryArray>
        ensures made { IfOk result (λ a. a ≡ dictionary_array (type_view data_type) (keys_of keys) (boxed values)
            (key_mask keys)) }
        ensures refused { IsErrOf result (Error.InvalidArgumentError A.A8)
            ↔ ¬ (FitsKeys (base (type_view data_type)) keys (boxed values)) }
        ensures err { IfErr result (λ e. (e ≡ Error.Memory) ⊎ (e ≡ Error.InvalidArgumentError A.A8)) }
    {
        values.know();
        keys.know();
        if !has_entries(&data_type, values.data_type())
            || !has_keys(&data_type, &keys)
            || !are_below(&keys, values.len())
        {
            return Err(Error::InvalidArgumentError(A::A8));
        }
        Ok(DictionaryArray {
            data_type,
            keys,
            values: Box::new(alloc, values)?,
        })
    }

    /// Callers learn what holds of every such array.
    pub fn know(&self)
        ensures sound { IsSound self.now }
        ensures parts { self.now ≡ dictionary_array (type_of self.now) (keys_in self.now) (child_of self.now)
            (mask_of self.now) }
    {
        let _ = &self.data_type;
    }

    /// The number of positions.
    pub fn len(&self) -> usize
        ensures { result ≡ tree_len self.now }
    {
        self.keys.len()
    }

    /// The type.
    pub fn data_type(&self) -> &DataType
        ensures { type_view result.now ≡ type_of self.now }
    {
        &self.data_type
    }

    /// The keys, of the type that the dictionary's type has for them. Each that is not null numbers an entry.
    pub fn keys(&self) -> &DictionaryKeys
        ensures keys { keys_of result.now ≡ keys_in self.now }
        ensures mask { key_mask result.now ≡ mask_of self.now }
        ensures typed { key_type (base (type_of self.now)) ≡ Some (key_kind result.now) }
    {
        &self.keys
    }

    /// The entries.
    pub fn values(&self) -> &ArrayBox
        ensures { boxed result.now ≡ child_of self.now }
    {
        &self.values
    }

    /// The mask of the keys. A slot is null too where its entry is.
    pub fn validity(&self) -> Option<&Bitmap>
        ensures { option_map (λ m. m.now) result ≡ mask_of self.now }
    {
        self.keys.validity()
    }

    /// Keeps `length` positions from the position `offset` on. The entries stay as they are.
    pub fn slice(&mut self, offset: usize, length: usize)
        requires { offset + length ≤ tree_len self.old }
        ensures { self.new ≡ cut self.old offset length }
    {
        self.keys.slice(offset, length);
    }
}
