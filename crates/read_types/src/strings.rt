//! Texts and byte strings.
ghost use Rattle.std.specs.Prelude.{◌≡◌, ◌⊎◌, ◌*◌, ℕ, List, ◌-◌, ◌<◌, ◌≤◌, [], Some, true, false, length, map, take, drop, MatchOption, OnOk, IfOk, IfErr};
ghost use Rattle.std.specs.Str.{is_utf8};
ghost use Rattle.columns_base.specs.declared.error.Error.TheVariants.{Memory, OutOfSpec};
ghost use Rattle.columns_base.specs.declared.error.S.TheVariants.{S6, S7};
ghost use Rattle.pq_numbers.specs.Texts.{number_of};
ghost use Rattle.columns_core.specs.Shapes.{base};
ghost use Rattle.columns_core.specs.View.{type_view};
ghost use Rattle.columns_slots.specs.Bytes.{pieces, pieces_values};
ghost use Rattle.columns_slots.specs.Slots.{IsPlaces};
ghost use Rattle.columns_slots.specs.Tree.{leaf_array};
ghost use Rattle.columns_slots.specs.Types.{is_text, is_binary};
ghost use Rattle.columns_array.specs.Boxed.{boxed};
ghost use Rattle.read_laws.specs.State.{leaf_count, StateFits};
ghost use Rattle.read_leaf.specs.Strings.{string_slots, stored_strings, AreAllowed};
ghost use Rattle.read_pieces.specs.Leaves.{AreEights, BeginsOutside, BeginsWithValue, in_bytes};
ghost use Rattle.read_state.specs.Ticks.{TicksAtMost};
ghost use Rattle.read_walk.specs.Ticks.{TicksEach};
ghost use Rattle.read_walk.specs.Walk.{Extends, Refuses};
ghost use Rattle.read_types.specs.Arrays.{IsLeafArray, masked_leaf};

use crate::array::LeafArray;
use columns_array::ArrayBox;
use columns_base::{Error, Result, S};
use columns_core::{Bitmap, DataType, Offset, OffsetsBuffer};
use columns_leaf::{BinaryArray, Utf8Array};
use read_leaf::{Binary, Bytes, PlainStrings, StringDecoder, StringKind, StringValues, Text};
use read_pieces::{LeafReader, PlainBytes};
use read_state::{NestedState, Steps};
use read_walk::{NestedPage, extend_levels};
use std::alloc::Global;
use std::marker::PhantomData;
use std::sync::ledger::Ledger;

/// Reads byte strings of which `K` says which are values, for arrays with offsets of `O`.
#[derive(Drop)]
pub struct Strings<O, K> {
    offset: PhantomData<O>,
    kind: PhantomData<K>,
}

impl<O, K> Strings<O, K> {
    pub fn new() -> Self {
        Strings {
            offset: PhantomData,
            kind: PhantomData,
        }
    }
}

// The number in the first four bytes; none where they are cut.
fn first_length(bytes: &[u8]) -> Option<usize>
    ensures { MatchOption result (length bytes.now < 4) (λ n. (4 ≤ length bytes.now)
        × (n ≡ number_of (take 4 bytes.now))) }
{
    match bytes {
        [a, b, c, d, ..] => Some(u32::from_le_bytes([*a, *b, *c, *d]) as usize),
        _ => None,
    }
}

// The bytes from a place on.
fn skip(bytes: &[u8], count: usize) -> &[u8]
    requires { count ≤ length bytes.now }
    ensures { result.now ≡ drop count bytes.now }
{
    &bytes[count..]
}

// How many bytes the first string has, with those of its length.
fn string_size<K: StringKind>(bytes: &[u8]) -> Result<usize>
    ensures ok { IfOk result (λ n. BeginsWithValue (stored_strings K.allows) n bytes.now) }
    ensures err { IfErr result (λ e. ((e ≡ OutOfSpec S6) × (stored_strings K.allows bytes.now ≡ []))
        ⊎ ((e ≡ OutOfSpec S7) × BeginsOutside (stored_strings K.allows) bytes.now)) }
{
    let Some(count) = first_length(bytes) else {
        return Err(Error::OutOfSpec(S::S6));
    };
    let behind = skip(bytes, 4);
    if behind.len() < count {
        return Err(Error::OutOfSpec(S::S6));
    }
    if !K::is_value(&behind[..count]) {
        return Err(Error::OutOfSpec(S::S7));
    }
    Ok(4 + count)
}

// Strings stand in bytes of their own.
fn has_own_bytes<K: StringKind>() -> bool
    ensures is { result ≡ true }
    ensures own { in_bytes (stored_strings K.allows) ≡ true }
{
    true
}

impl<O: Offset, K: StringKind> LeafReader for Strings<O, K> {
    ghost use Rattle.read_leaf.specs.Strings.{stored_strings, string_slots};

    type Values = StringValues<O, K>;

    ghost stored = { λ r text bit. stored_strings K.allows text };

    ghost slots = { λ d. string_slots d.0 d.1 };

    ghost byte_limit = { O.limit };

    fn begin(&self, alloc: Global) -> Result<StringValues<O, K>>
        ensures ok { IfOk result (λ v. string_slots v.0 v.1 ≡ []) }
        ensures err { IfErr result (λ e. e ≡ Memory) }
    {
        StringValues::new(alloc)
    }

    fn begin_like(_values: &StringValues<O, K>, alloc: Global) -> Result<StringValues<O, K>>
        ensures ok { IfOk result (λ v. string_slots v.0 v.1 ≡ []) }
        ensures err { IfErr result (λ e. e ≡ Memory) }
    {
        StringValues::new(alloc)
    }

    fn stands_in_bytes(&self) -> bool
        ensures value { result ≡ in_bytes (λ text. stored_strings K.allows text) }
        ensures bits { result ≡ false → (text : List ℕ) → AreEights (λ text. stored_strings K.allows text) text }
    {
        has_own_bytes::<K>()
    }

    fn value_size(&self, bytes: &[u8]) -> Result<usize>
        ensures ok { in_bytes (λ text. stored_strings K.allows text) ≡ true
            → IfOk result (λ n. BeginsWithValue (λ text. stored_strings K.allows text) n bytes.now) }
        ensures err { IfErr result (λ e. ((e ≡ OutOfSpec S6) × (stored_strings K.allows bytes.now ≡ []))
            ⊎ ((e ≡ OutOfSpec S7) × BeginsOutside (λ text. stored_strings K.allows text) bytes.now)) }
    {
        string_size::<K>(bytes)
    }

    fn extend<'a, 'b, L: Ledger>(
        &self,
        page: &mut NestedPage<'a>,
        bytes: &mut PlainBytes<'b>,
        nested: &mut NestedState,
        values: &mut StringValues<O, K>,
        additional: usize,
        steps: &mut Steps<L>,
    ) -> Result<()>
        requires fits { StateFits nested.old }
        requires decoded { length (string_slots values.old.0 values.old.1) ≡ leaf_count nested.old }
        ensures ok { OnOk result (Extends additional page.old page.new (stored_strings K.allows bytes.old.values.now)
            (stored_strings K.allows bytes.new.values.now) nested.old nested.new
            (string_slots values.old.0 values.old.1) (string_slots values.new.0 values.new.1)) }
        ensures err { IfErr result (Refuses O.limit additional page.old
            (stored_strings K.allows bytes.old.values.now) nested.old (string_slots values.old.0 values.old.1)) }
        ensures ticked { OnOk result (TicksEach (length nested.old) page.old page.new steps.old steps.new) }
        ensures bounded { TicksAtMost (length nested.old * length page.old) steps.old steps.new }
    {
        let mut left = PlainStrings {
            values: bytes.values,
        };
        let decoder = StringDecoder::<O, K>::new();
        let result = extend_levels(page, &mut left, nested, values, &decoder, additional, steps);
        bytes.values = left.values;
        result
    }
}

// The offsets, in memory that can be shared, and the bytes.
fn laid_parts<O: Offset>(strings: Binary<O>) -> Result<(OffsetsBuffer<O>, Vec<u8>)>
    ensures strings { IfOk result (λ p. pieces p.0 p.1.items ≡ strings) }
    ensures places { IfOk result (λ p. IsPlaces p.0 (length p.1.items)) }
    ensures counted { IfOk result (λ p. length p.1.items < O.limit) }
    ensures err { IfErr result (λ e. e ≡ Memory) }
{
    let (offsets, content) = strings.into_parts();
    let _end = offsets.last().to_usize();
    match offsets.into_buffer() {
        Ok(offsets) => {
            offsets.know();
            Ok((offsets, content))
        }
        Err(error) => Err(error),
    }
}

// Texts between offsets as an array.
#[tactic(auto, using(crate::proofs::Slots::all_texts))]
fn laid_texts<O: Offset>(
    alloc: Global,
    data_type: DataType,
    offsets: OffsetsBuffer<O>,
    content: Vec<u8>,
    validity: Bitmap,
) -> Result<Utf8Array<O>>
    requires places { IsPlaces offsets (length content.items) }
    requires mask { length validity ≡ length offsets - 1 }
    requires typed { is_text O.large (base (type_view data_type)) ≡ true }
    requires texts { AreAllowed is_utf8 (pieces offsets content.items) }
    ensures ok { IfOk result (λ a. a ≡ (type_view data_type, (offsets, (content.items, Some validity)))) }
    ensures err { IfErr result (λ e. e ≡ Memory) }
{
    Utf8Array::from_parts(alloc, data_type, offsets, content, Some(validity))
}

// Texts as an array.
fn text_array<O: Offset>(
    alloc: Global,
    values: StringValues<O, Text>,
    data_type: DataType,
) -> Result<Utf8Array<O>>
    requires { is_text O.large (base (type_view data_type)) ≡ true }
    ensures ok { IfOk result (λ a. IsLeafArray (type_view data_type) (string_slots values.0 values.1)
        (leaf_array a.0 (pieces_values a.1.0 a.1.1.0) a.1.1.1)) }
    ensures err { IfErr result (λ e. e ≡ Memory) }
{
    let (strings, validity) = values.into_parts();
    let validity = match validity.into_bitmap() {
        Ok(validity) => validity,
        Err(error) => return Err(error),
    };
    match laid_parts(strings) {
        Ok((offsets, content)) => laid_texts(alloc, data_type, offsets, content, validity),
        Err(error) => Err(error),
    }
}

impl LeafArray for Strings<i32, Text> {
    ghost use Rattle.std.specs.Prelude.{false};
    ghost use Rattle.columns_slots.specs.Types.{is_text};

    ghost makes = { λ r. is_text false };

    fn into_array(
        &self,
        alloc: Global,
        values: StringValues<i32, Text>,
        data_type: DataType,
    ) -> Result<ArrayBox>
        requires { is_text false (base (type_view data_type)) ≡ true }
        ensures ok { IfOk result (λ a. IsLeafArray (type_view data_type) (string_slots values.0 values.1) (boxed a)) }
        ensures err { IfErr result (λ e. e ≡ Memory) }
    {
        match text_array(alloc, values, data_type) {
            Ok(array) => Ok(ArrayBox::Utf8(array)),
            Err(error) => Err(error),
        }
    }
}

impl LeafArray for Strings<i64, Text> {
    ghost use Rattle.std.specs.Prelude.{true};
    ghost use Rattle.columns_slots.specs.Types.{is_text};

    ghost makes = { λ r. is_text true };

    fn into_array(
        &self,
        alloc: Global,
        values: StringValues<i64, Text>,
        data_type: DataType,
    ) -> Result<ArrayBox>
        requires { is_text true (base (type_view data_type)) ≡ true }
        ensures ok { IfOk result (λ a. IsLeafArray (type_view data_type) (string_slots values.0 values.1) (boxed a)) }
        ensures err { IfErr result (λ e. e ≡ Memory) }
    {
        match text_array(alloc, values, data_type) {
            Ok(array) => Ok(ArrayBox::LargeUtf8(array)),
            Err(error) => Err(error),
        }
    }
}

// Byte strings between offsets as an array.
fn laid_strings<O: Offset>(
    alloc: Global,
    data_type: DataType,
    offsets: OffsetsBuffer<O>,
    content: Vec<u8>,
    validity: Bitmap,
) -> Result<BinaryArray<O>>
    requires places { IsPlaces offsets (length content.items) }
    requires counted { length content.items < O.limit }
    requires mask { length validity ≡ length offsets - 1 }
    requires typed { is_binary O.large (base (type_view data_type)) ≡ true }
    ensures ok { IfOk result (λ a. a ≡ (type_view data_type, (offsets, (content.items, Some validity)))) }
    ensures err { IfErr result (λ e. e ≡ Memory) }
{
    match BinaryArray::try_new(alloc, data_type, offsets, content, Some(validity)) {
        Ok(array) => Ok(array),
        Err(error) => Err(error),
    }
}

// Byte strings as an array.
fn string_array<O: Offset>(
    alloc: Global,
    values: StringValues<O, Bytes>,
    data_type: DataType,
) -> Result<BinaryArray<O>>
    requires { is_binary O.large (base (type_view data_type)) ≡ true }
    ensures ok { IfOk result (λ a. IsLeafArray (type_view data_type) (string_slots values.0 values.1)
        (leaf_array a.0 (pieces_values a.1.0 a.1.1.0) a.1.1.1)) }
    ensures err { IfErr result (λ e. e ≡ Memory) }
{
    let (strings, validity) = values.into_parts();
    let validity = match validity.into_bitmap() {
        Ok(validity) => validity,
        Err(error) => return Err(error),
    };
    match laid_parts(strings) {
        Ok((offsets, content)) => laid_strings(alloc, data_type, offsets, content, validity),
        Err(error) => Err(error),
    }
}

impl LeafArray for Strings<i32, Bytes> {
    ghost use Rattle.std.specs.Prelude.{false};
    ghost use Rattle.columns_slots.specs.Types.{is_binary};

    ghost makes = { λ r. is_binary false };

    fn into_array(
        &self,
        alloc: Global,
        values: StringValues<i32, Bytes>,
        data_type: DataType,
    ) -> Result<ArrayBox>
        requires { is_binary false (base (type_view data_type)) ≡ true }
        ensures ok { IfOk result (λ a. IsLeafArray (type_view data_type) (string_slots values.0 values.1) (boxed a)) }
        ensures err { IfErr result (λ e. e ≡ Memory) }
    {
        match string_array(alloc, values, data_type) {
            Ok(array) => Ok(ArrayBox::Binary(array)),
            Err(error) => Err(error),
        }
    }
}

impl LeafArray for Strings<i64, Bytes> {
    ghost use Rattle.std.specs.Prelude.{true};
    ghost use Rattle.columns_slots.specs.Types.{is_binary};

    ghost makes = { λ r. is_binary true };

    fn into_array(
        &self,
        alloc: Global,
        values: StringValues<i64, Bytes>,
        data_type: DataType,
    ) -> Result<ArrayBox>
        requires { is_binary true (base (type_view data_type)) ≡ true }
        ensures ok { IfOk result (λ a. IsLeafArray (type_view data_type) (string_slots values.0 values.1) (boxed a)) }
        ensures err { IfErr result (λ e. e ≡ Memory) }
    {
        match string_array(alloc, values, data_type) {
            Ok(array) => Ok(ArrayBox::LargeBinary(array)),
            Err(error) => Err(error),
        }
    }
}
