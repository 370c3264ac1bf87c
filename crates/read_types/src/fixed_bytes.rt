//! Byte strings of one size.
ghost use Rattle.std.specs.Prelude.{◌≡◌, ◌⊎◌, ◌*◌, ℕ, Bool, List, [], Ok, Some, true, false, length, OnOk, IfOk, IfErr};
ghost use Rattle.columns_base.specs.declared.error.Error.TheVariants.{Memory, OutOfSpec};
ghost use Rattle.columns_base.specs.declared.error.S.TheVariants.{S6, S7};
ghost use Rattle.columns_core.specs.Shapes.{base};
ghost use Rattle.columns_core.specs.View.{type_view};
ghost use Rattle.columns_leaf.specs.Fixed.{AreWhole, fixed_count};
ghost use Rattle.columns_array.specs.Boxed.{boxed};
ghost use Rattle.read_laws.specs.State.{leaf_count, StateFits};
ghost use Rattle.read_leaf.specs.Fixed.{stored_fixed};
ghost use Rattle.read_leaf.specs.FixedBytes.{chunk_slots, loaded_bytes};
ghost use Rattle.read_pieces.specs.Leaves.{AreEights, BeginsOutside, BeginsWithValue, in_bytes};
ghost use Rattle.read_state.specs.Ticks.{TicksAtMost};
ghost use Rattle.read_walk.specs.Ticks.{TicksEach};
ghost use Rattle.read_walk.specs.Walk.{Extends, Refuses};
ghost use Rattle.read_types.specs.Arrays.{IsLeafArray};
ghost use Rattle.read_types.specs.LeafTypes.{reads_chunks};

use crate::array::LeafArray;
use columns_array::ArrayBox;
use columns_base::{Error, Result, S};
use columns_core::{Bitmap, DataType};
use columns_leaf::FixedSizeBinaryArray;
use read_leaf::{FixedBytesDecoder, FixedBytesValues, PlainStrings};
use read_pieces::{LeafReader, PlainBytes};
use read_state::{NestedState, Steps};
use read_walk::{NestedPage, extend_levels};
use std::alloc::Global;
use std::sync::ledger::Ledger;

/// Reads byte strings of so many bytes each, which are stored as they are (Parquet format, Encodings, "Plain", FIXED_LEN_BYTE_ARRAY).
#[derive(Drop)]
pub struct FixedBytes {
    pub size: usize,
}

// How many bytes the first string has, where each has so many.
fn chunk_size(bytes: &[u8], size: usize) -> Result<usize>
    ensures ok { IfOk result (λ n. BeginsWithValue (stored_fixed loaded_bytes size) n bytes.now) }
    ensures err { IfErr result (λ e. (e ≡ OutOfSpec S6) × (stored_fixed loaded_bytes size bytes.now ≡ [])) }
{
    if size == 0 {
        return Err(Error::OutOfSpec(S::S6));
    }
    if bytes.len() < size {
        return Err(Error::OutOfSpec(S::S6));
    }
    Ok(size)
}

// Each string stands in bytes of its own.
#[tactic(auto, using(crate::proofs::FixedSizes::fixed_own))]
fn has_own_bytes(size: usize) -> bool
    ensures is { result ≡ true }
    ensures own { in_bytes (stored_fixed loaded_bytes size) ≡ true }
{
    let _size = size;
    true
}

impl LeafReader for FixedBytes {
    ghost use Rattle.std.specs.Prelude.{◌≡◌};
    ghost use Rattle.read_leaf.specs.Fixed.{stored_fixed};
    ghost use Rattle.read_leaf.specs.FixedBytes.{chunk_slots, loaded_bytes};

    type Values = FixedBytesValues;

    ghost stored = { λ r text bit. stored_fixed loaded_bytes r.size text };

    ghost slots = { λ d. chunk_slots d.0 d.1.0 d.1.1 };

    ghost byte_limit = { 0 };

    ghost width = { λ d. d.0 };

    ghost suits = { λ r n. n ≡ r.size };

    fn begin(&self, alloc: Global) -> Result<FixedBytesValues>
        ensures ok { IfOk result (λ v. chunk_slots v.0 v.1.0 v.1.1 ≡ []) }
        ensures suits { (v : ℕ × (List ℕ × List Bool)) → result ≡ Ok v → v.0 ≡ self.now.size }
        ensures err { IfErr result (λ e. e ≡ Memory) }
    {
        Ok(FixedBytesValues::new(alloc, self.size))
    }

    fn begin_like(values: &FixedBytesValues, alloc: Global) -> Result<FixedBytesValues>
        ensures ok { IfOk result (λ v. chunk_slots v.0 v.1.0 v.1.1 ≡ []) }
        ensures width { (v : ℕ × (List ℕ × List Bool)) → result ≡ Ok v → v.0 ≡ values.now.0 }
        ensures err { IfErr result (λ e. e ≡ Memory) }
    {
        Ok(FixedBytesValues::new(alloc, values.size()))
    }

    fn stands_in_bytes(&self) -> bool
        ensures value { result ≡ in_bytes (λ text. stored_fixed loaded_bytes self.now.size text) }
        ensures bits { result ≡ false → (text : List ℕ) → AreEights
            (λ text. stored_fixed loaded_bytes self.now.size text) text }
    {
        has_own_bytes(self.size)
    }

    fn value_size(&self, bytes: &[u8]) -> Result<usize>
        ensures ok { in_bytes (λ text. stored_fixed loaded_bytes self.now.size text) ≡ true
            → IfOk result (λ n. BeginsWithValue (λ text. stored_fixed loaded_bytes self.now.size text) n bytes.now) }
        ensures err { IfErr result (λ e. ((e ≡ OutOfSpec S6) × (stored_fixed loaded_bytes self.now.size bytes.now ≡ []))
            ⊎ ((e ≡ OutOfSpec S7) × BeginsOutside (λ text. stored_fixed loaded_bytes self.now.size text) bytes.now)) }
    {
        chunk_size(bytes, self.size)
    }

    fn extend<'a, 'b, L: Ledger>(
        &self,
        page: &mut NestedPage<'a>,
        bytes: &mut PlainBytes<'b>,
        nested: &mut NestedState,
        values: &mut FixedBytesValues,
        additional: usize,
        steps: &mut Steps<L>,
    ) -> Result<()>
        requires fits { StateFits nested.old }
        requires decoded { length (chunk_slots values.old.0 values.old.1.0 values.old.1.1) ≡ leaf_count nested.old }
        requires suits { values.old.0 ≡ self.now.size }
        ensures ok { OnOk result (Extends additional page.old page.new
            (stored_fixed loaded_bytes self.now.size bytes.old.values.now)
            (stored_fixed loaded_bytes self.now.size bytes.new.values.now) nested.old nested.new
            (chunk_slots values.old.0 values.old.1.0 values.old.1.1)
            (chunk_slots values.new.0 values.new.1.0 values.new.1.1)) }
        ensures err { IfErr result (Refuses 0 additional page.old
            (stored_fixed loaded_bytes self.now.size bytes.old.values.now) nested.old
            (chunk_slots values.old.0 values.old.1.0 values.old.1.1)) }
        ensures ticked { OnOk result (TicksEach (length nested.old) page.old page.new steps.old steps.new) }
        ensures bounded { TicksAtMost (length nested.old * length page.old) steps.old steps.new }
        ensures width { values.new.0 ≡ values.old.0 }
    {
        let mut left = PlainStrings {
            values: bytes.values,
        };
        let decoder = FixedBytesDecoder { size: self.size };
        let result = extend_levels(page, &mut left, nested, values, &decoder, additional, steps);
        bytes.values = left.values;
        result
    }
}

// Byte strings and which of them are there, as an array.
fn chunk_array(
    alloc: Global,
    data_type: DataType,
    content: Vec<u8>,
    validity: Bitmap,
) -> Result<FixedSizeBinaryArray>
    requires whole { AreWhole (base (type_view data_type)) content.items }
    requires mask { length validity ≡ fixed_count (base (type_view data_type)) content.items }
    ensures ok { IfOk result (λ a. a ≡ (type_view data_type, (content.items, Some validity))) }
    ensures err { IfErr result (λ e. e ≡ Memory) }
{
    match FixedSizeBinaryArray::try_new(alloc, data_type, content, Some(validity)) {
        Ok(array) => Ok(array),
        Err(error) => Err(error),
    }
}

impl LeafArray for FixedBytes {
    ghost use Rattle.read_types.specs.LeafTypes.{reads_chunks};

    ghost makes = { λ r t. reads_chunks r.size t };

    fn into_array(
        &self,
        alloc: Global,
        values: FixedBytesValues,
        data_type: DataType,
    ) -> Result<ArrayBox>
        requires makes { reads_chunks self.now.size (base (type_view data_type)) ≡ true }
        requires suits { values.0 ≡ self.now.size }
        ensures ok { IfOk result (λ a. IsLeafArray (type_view data_type) (chunk_slots values.0 values.1.0 values.1.1)
            (boxed a)) }
        ensures err { IfErr result (λ e. e ≡ Memory) }
    {
        let (content, validity) = values.into_parts();
        let validity = match validity.into_bitmap() {
            Ok(validity) => validity,
            Err(error) => return Err(error),
        };
        match chunk_array(alloc, data_type, content, validity) {
            Ok(array) => Ok(ArrayBox::FixedSizeBinary(array)),
            Err(error) => Err(error),
        }
    }
}
