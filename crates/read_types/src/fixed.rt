//! Intervals, and decimals over fixed bytes.
ghost use Rattle.std.specs.Prelude.{◌≡◌, ◌⊎◌, ◌*◌, ℕ, List, [], true, false, length, map, OnOk, IfOk, IfErr};
ghost use Rattle.columns_base.specs.declared.error.Error.TheVariants.{Memory, OutOfSpec};
ghost use Rattle.columns_base.specs.declared.error.S.TheVariants.{S6, S7};
ghost use Rattle.columns_core.specs.Shapes.{base};
ghost use Rattle.columns_core.specs.View.{type_view};
ghost use Rattle.columns_array.specs.Boxed.{boxed};
ghost use Rattle.read_laws.specs.State.{leaf_count, StateFits};
ghost use Rattle.read_leaf.specs.Fixed.{stored_fixed, value_slots};
ghost use Rattle.read_pieces.specs.Leaves.{AreEights, BeginsOutside, BeginsWithValue, in_bytes};
ghost use Rattle.read_state.specs.Ticks.{TicksAtMost};
ghost use Rattle.read_walk.specs.Ticks.{TicksEach};
ghost use Rattle.read_walk.specs.Walk.{Extends, Refuses};
ghost use Rattle.read_types.specs.Arrays.{IsLeafArray, makes_fixed};

use crate::array::LeafArray;
use crate::boxes::NumberBox;
use columns_array::ArrayBox;
use columns_base::{Error, Result, S};
use columns_core::DataType;
use read_leaf::{FixedDecoder, FixedValue, NumberValues, PlainNumbers};
use read_pieces::{LeafReader, PlainBytes};
use read_state::{NestedState, Steps};
use read_walk::{NestedPage, extend_levels};
use std::alloc::Global;
use std::marker::PhantomData;
use std::sync::ledger::Ledger;

/// Reads values of `T` that are stored as so many bytes each (Parquet format, LogicalTypes, "INTERVAL" and "DECIMAL").
#[derive(Drop)]
pub struct Fixed<T> {
    pub size: usize,
    pub value: PhantomData<T>,
}

// How many bytes the first value has, where each has so many.
fn first_size<T: FixedValue>(bytes: &[u8], size: usize) -> Result<usize>
    ensures ok { IfOk result (λ n. BeginsWithValue (stored_fixed T.loaded size) n bytes.now) }
    ensures err { IfErr result (λ e. ((e ≡ OutOfSpec S6) × (stored_fixed T.loaded size bytes.now ≡ []))
        ⊎ ((e ≡ OutOfSpec S7) × BeginsOutside (stored_fixed T.loaded size) bytes.now)) }
{
    if size == 0 {
        return Err(Error::OutOfSpec(S::S6));
    }
    if bytes.len() < size {
        return Err(Error::OutOfSpec(S::S6));
    }
    match T::from_bytes(&bytes[..size]) {
        Some(_) => Ok(size),
        None => Err(Error::OutOfSpec(S::S7)),
    }
}

// Each value stands in bytes of its own.
#[tactic(auto, using(crate::proofs::FixedSizes::fixed_own))]
fn has_own_bytes<T: FixedValue>(size: usize) -> bool
    ensures is { result ≡ true }
    ensures own { in_bytes (stored_fixed T.loaded size) ≡ true }
{
    let _size = size;
    true
}

impl<T: FixedValue> LeafReader for Fixed<T> {
    ghost use Rattle.std.specs.Prelude.{map};
    ghost use Rattle.read_leaf.specs.Fixed.{stored_fixed, value_slots};

    type Values = NumberValues<T>;

    ghost stored = { λ r text bit. stored_fixed T.loaded r.size text };

    ghost slots = { λ d. value_slots (map T.held d.0) d.1 };

    ghost byte_limit = { 0 };

    fn begin(&self, alloc: Global) -> Result<NumberValues<T>>
        ensures ok { IfOk result (λ v. value_slots (map T.held v.0) v.1 ≡ []) }
        ensures err { IfErr result (λ e. e ≡ Memory) }
    {
        Ok(NumberValues::new(alloc))
    }

    fn begin_like(_values: &NumberValues<T>, alloc: Global) -> Result<NumberValues<T>>
        ensures ok { IfOk result (λ v. value_slots (map T.held v.0) v.1 ≡ []) }
        ensures err { IfErr result (λ e. e ≡ Memory) }
    {
        Ok(NumberValues::new(alloc))
    }

    fn stands_in_bytes(&self) -> bool
        ensures value { result ≡ in_bytes (λ text. stored_fixed T.loaded self.now.size text) }
        ensures bits { result ≡ false → (text : List ℕ) → AreEights
            (λ text. stored_fixed T.loaded self.now.size text) text }
    {
        has_own_bytes::<T>(self.size)
    }

    fn value_size(&self, bytes: &[u8]) -> Result<usize>
        ensures ok { in_bytes (λ text. stored_fixed T.loaded self.now.size text) ≡ true
            → IfOk result (λ n. BeginsWithValue (λ text. stored_fixed T.loaded self.now.size text) n bytes.now) }
        ensures err { IfErr result (λ e. ((e ≡ OutOfSpec S6) × (stored_fixed T.loaded self.now.size bytes.now ≡ []))
            ⊎ ((e ≡ OutOfSpec S7) × BeginsOutside (λ text. stored_fixed T.loaded self.now.size text) bytes.now)) }
    {
        first_size::<T>(bytes, self.size)
    }

    fn extend<'a, 'b, L: Ledger>(
        &self,
        page: &mut NestedPage<'a>,
        bytes: &mut PlainBytes<'b>,
        nested: &mut NestedState,
        values: &mut NumberValues<T>,
        additional: usize,
        steps: &mut Steps<L>,
    ) -> Result<()>
        requires fits { StateFits nested.old }
        requires decoded { length (value_slots (map T.held values.old.0) values.old.1) ≡ leaf_count nested.old }
        ensures ok { OnOk result (Extends additional page.old page.new
            (stored_fixed T.loaded self.now.size bytes.old.values.now)
            (stored_fixed T.loaded self.now.size bytes.new.values.now) nested.old nested.new
            (value_slots (map T.held values.old.0) values.old.1)
            (value_slots (map T.held values.new.0) values.new.1)) }
        ensures err { IfErr result (Refuses 0 additional page.old
            (stored_fixed T.loaded self.now.size bytes.old.values.now) nested.old
            (value_slots (map T.held values.old.0) values.old.1)) }
        ensures ticked { OnOk result (TicksEach (length nested.old) page.old page.new steps.old steps.new) }
        ensures bounded { TicksAtMost (length nested.old * length page.old) steps.old steps.new }
    {
        let mut left = PlainNumbers {
            values: bytes.values,
        };
        let decoder = FixedDecoder::<T> {
            size: self.size,
            value: PhantomData,
        };
        let result = extend_levels(page, &mut left, nested, values, &decoder, additional, steps);
        bytes.values = left.values;
        result
    }
}

impl<T: FixedValue + NumberBox> LeafArray for Fixed<T> {
    ghost use Rattle.read_types.specs.Arrays.{makes_fixed};

    ghost makes = { λ r. makes_fixed T.stores };

    fn into_array(
        &self,
        alloc: Global,
        values: NumberValues<T>,
        data_type: DataType,
    ) -> Result<ArrayBox>
        requires { makes_fixed T.stores (base (type_view data_type)) ≡ true }
        ensures ok { IfOk result (λ a. IsLeafArray (type_view data_type) (value_slots (map T.held values.0) values.1)
            (boxed a)) }
        ensures err { IfErr result (λ e. e ≡ Memory) }
    {
        let (numbers, validity) = values.into_parts();
        match validity.into_bitmap() {
            Ok(validity) => T::array(alloc, data_type, numbers, validity),
            Err(error) => Err(error),
        }
    }
}
