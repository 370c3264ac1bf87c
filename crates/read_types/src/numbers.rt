//! Numbers.
ghost use Rattle.std.specs.Prelude.{◌≡◌, ◌⊎◌, ◌*◌, ◌≤◌, ℕ, List, [], ◌∷◌, Some, None, true, false, length, map, take, MatchOption, OnOk, IfOk, IfErr};
ghost use Rattle.columns_base.specs.declared.error.Error.TheVariants.{Memory, OutOfSpec};
ghost use Rattle.columns_base.specs.declared.error.S.TheVariants.{S6, S7};
ghost use Rattle.columns_core.specs.Shapes.{base};
ghost use Rattle.columns_core.specs.View.{type_view};
ghost use Rattle.columns_array.specs.Boxed.{boxed};
ghost use Rattle.read_laws.specs.State.{leaf_count, StateFits};
ghost use Rattle.read_leaf.specs.Numbers.{number_slots, stored_numbers};
ghost use Rattle.read_pieces.specs.Leaves.{AreEights, BeginsOutside, BeginsWithValue, in_bytes};
ghost use Rattle.read_state.specs.Ticks.{TicksAtMost};
ghost use Rattle.read_walk.specs.Ticks.{TicksEach};
ghost use Rattle.read_walk.specs.Walk.{Extends, Refuses};
ghost use Rattle.read_types.specs.Arrays.{IsLeafArray, makes_numbers};

use crate::array::LeafArray;
use crate::boxes::NumberBox;
use columns_array::ArrayBox;
use columns_base::{Error, Result, S};
use columns_core::DataType;
use read_leaf::{FromStored, NumberValues, PlainNumbers, PrimitiveDecoder, StoredNumber};
use read_pieces::{LeafReader, PlainBytes};
use read_state::{NestedState, Steps};
use read_walk::{NestedPage, extend_levels};
use std::alloc::Global;
use std::marker::PhantomData;
use std::sync::ledger::Ledger;

/// Reads numbers of `T` that are stored as numbers of `P`.
#[derive(Drop)]
pub struct Numbers<T, P> {
    number: PhantomData<T>,
    stored: PhantomData<P>,
}

impl<T, P> Numbers<T, P> {
    pub fn new() -> Self {
        Numbers {
            number: PhantomData,
            stored: PhantomData,
        }
    }
}

// The number of `T` at the front of the bytes, if it is one.
fn first_of<T: FromStored<P>, P: StoredNumber>(bytes: &[u8]) -> Option<T>
    requires { P.byte_count ≤ length bytes.now }
    ensures { MatchOption result (T.loaded (P.spelled (take P.byte_count bytes.now)) ≡ None)
        (λ x. T.loaded (P.spelled (take P.byte_count bytes.now)) ≡ Some (T.loaded_number x)) }
{
    T::from_stored(P::read(&bytes[..P::width()]))
}

// How many bytes the first number has.
fn number_size<T: FromStored<P>, P: StoredNumber>(bytes: &[u8]) -> Result<usize>
    ensures ok { IfOk result (λ n. BeginsWithValue (stored_numbers T.loaded P.spelled P.byte_count) n bytes.now) }
    ensures err { IfErr result (λ e. ((e ≡ OutOfSpec S6)
        × (stored_numbers T.loaded P.spelled P.byte_count bytes.now ≡ []))
        ⊎ ((e ≡ OutOfSpec S7) × BeginsOutside (stored_numbers T.loaded P.spelled P.byte_count) bytes.now)) }
{
    if bytes.len() < P::width() {
        return Err(Error::OutOfSpec(S::S6));
    }
    match first_of::<T, P>(bytes) {
        Some(_) => Ok(P::width()),
        None => Err(Error::OutOfSpec(S::S7)),
    }
}

// Numbers stand in bytes of their own.
fn has_own_bytes<T: FromStored<P>, P: StoredNumber>() -> bool
    ensures is { result ≡ true }
    ensures own { in_bytes (stored_numbers T.loaded P.spelled P.byte_count) ≡ true }
{
    true
}

impl<T: FromStored<P>, P: StoredNumber> LeafReader for Numbers<T, P> {
    ghost use Rattle.std.specs.Prelude.{map};
    ghost use Rattle.read_leaf.specs.Numbers.{number_slots, stored_numbers};

    type Values = NumberValues<T>;

    ghost stored = { λ r text bit. stored_numbers T.loaded P.spelled P.byte_count text };

    ghost slots = { λ d. number_slots (map T.loaded_number d.0) d.1 };

    ghost byte_limit = { 1 };

    fn begin(&self, alloc: Global) -> Result<NumberValues<T>>
        ensures ok { IfOk result (λ v. number_slots (map T.loaded_number v.0) v.1 ≡ []) }
        ensures err { IfErr result (λ e. e ≡ Memory) }
    {
        Ok(NumberValues::new(alloc))
    }

    fn begin_like(_values: &NumberValues<T>, alloc: Global) -> Result<NumberValues<T>>
        ensures ok { IfOk result (λ v. number_slots (map T.loaded_number v.0) v.1 ≡ []) }
        ensures err { IfErr result (λ e. e ≡ Memory) }
    {
        Ok(NumberValues::new(alloc))
    }

    fn stands_in_bytes(&self) -> bool
        ensures value { result ≡ in_bytes (λ text. stored_numbers T.loaded P.spelled P.byte_count text) }
        ensures bits { result ≡ false → (text : List ℕ) → AreEights
            (λ text. stored_numbers T.loaded P.spelled P.byte_count text) text }
    {
        has_own_bytes::<T, P>()
    }

    fn value_size(&self, bytes: &[u8]) -> Result<usize>
        ensures ok { in_bytes (λ text. stored_numbers T.loaded P.spelled P.byte_count text) ≡ true
            → IfOk result (λ n. BeginsWithValue
            (λ text. stored_numbers T.loaded P.spelled P.byte_count text) n bytes.now) }
        ensures err { IfErr result (λ e. ((e ≡ OutOfSpec S6)
            × (stored_numbers T.loaded P.spelled P.byte_count bytes.now ≡ []))
            ⊎
            ((e ≡ OutOfSpec S7) × BeginsOutside
            (λ text. stored_numbers T.loaded P.spelled P.byte_count text) bytes.now)) }
    {
        number_size::<T, P>(bytes)
    }

    fn extend<'a, 'b, L: Ledger>(
        &self,
        page: &mut NestedPage<'a>,
        bytes: &mut PlainBytes<'b>,
        nested: &mut NestedState,
        values: &mut NumberValues<T>,
        additional: usize,
        steps: &mut Steps<L>,
    ) -> Result<()>
        requires fits { StateFits nested.old }
        requires decoded { length (number_slots (map T.loaded_number values.old.0) values.old.1)
            ≡ leaf_count nested.old }
        ensures ok { OnOk result (Extends additional page.old page.new
            (stored_numbers T.loaded P.spelled P.byte_count bytes.old.values.now)
            (stored_numbers T.loaded P.spelled P.byte_count bytes.new.values.now) nested.old nested.new
            (number_slots (map T.loaded_number values.old.0) values.old.1)
            (number_slots (map T.loaded_number values.new.0) values.new.1)) }
        ensures err { IfErr result (Refuses 1 additional page.old
            (stored_numbers T.loaded P.spelled P.byte_count bytes.old.values.now) nested.old
            (number_slots (map T.loaded_number values.old.0) values.old.1)) }
        ensures ticked { OnOk result (TicksEach (length nested.old) page.old page.new steps.old steps.new) }
        ensures bounded { TicksAtMost (length nested.old * length page.old) steps.old steps.new }
    {
        let mut left = PlainNumbers {
            values: bytes.values,
        };
        let decoder = PrimitiveDecoder::<T, P>::new();
        let result = extend_levels(page, &mut left, nested, values, &decoder, additional, steps);
        bytes.values = left.values;
        result
    }
}

impl<T: FromStored<P> + NumberBox, P: StoredNumber> LeafArray for Numbers<T, P> {
    ghost use Rattle.read_types.specs.Arrays.{makes_numbers};

    ghost makes = { λ r. makes_numbers T.stores };

    fn into_array(
        &self,
        alloc: Global,
        values: NumberValues<T>,
        data_type: DataType,
    ) -> Result<ArrayBox>
        requires { makes_numbers T.stores (base (type_view data_type)) ≡ true }
        ensures ok { IfOk result (λ a. IsLeafArray (type_view data_type)
            (number_slots (map T.loaded_number values.0) values.1) (boxed a)) }
        ensures err { IfErr result (λ e. e ≡ Memory) }
    {
        let (numbers, validity) = values.into_parts();
        match validity.into_bitmap() {
            Ok(validity) => T::array(alloc, data_type, numbers, validity),
            Err(error) => Err(error),
        }
    }
}
