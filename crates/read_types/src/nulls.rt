//! Nulls alone.
ghost use Rattle.std.specs.Prelude.{◌≡◌, ◌⊎◌, ◌*◌, ℕ, List, [], None, true, false, length, replicate, OnOk, IfOk, IfErr};
ghost use Rattle.columns_base.specs.declared.error.Error.TheVariants.{Memory, OutOfSpec};
ghost use Rattle.columns_base.specs.declared.error.S.TheVariants.{S6, S7};
ghost use Rattle.columns_core.specs.Shapes.{base};
ghost use Rattle.columns_core.specs.View.{type_view};
ghost use Rattle.columns_slots.specs.Types.{is_null_type};
ghost use Rattle.columns_array.specs.Boxed.{boxed};
ghost use Rattle.shredding.specs.Slot.{null};
ghost use Rattle.read_laws.specs.State.{leaf_count, StateFits};
ghost use Rattle.read_leaf.specs.Numbers.{stored_numbers};
ghost use Rattle.read_leaf.specs.PlainValues.{spelled_32};
ghost use Rattle.read_pieces.specs.Leaves.{AreEights, BeginsOutside, BeginsWithValue, in_bytes};
ghost use Rattle.read_state.specs.Ticks.{TicksAtMost};
ghost use Rattle.read_walk.specs.Ticks.{TicksEach};
ghost use Rattle.read_walk.specs.Walk.{Extends, Refuses};
ghost use Rattle.read_types.specs.Arrays.{IsLeafArray};

use crate::array::LeafArray;
use columns_array::ArrayBox;
use columns_base::{Error, Result, S};
use columns_core::DataType;
use columns_leaf::NullArray;
use read_leaf::{NullDecoder, NullValues, PlainNumbers};
use read_pieces::{LeafReader, PlainBytes};
use read_state::{NestedState, Steps};
use read_walk::{NestedPage, extend_levels};
use std::alloc::Global;
use std::sync::ledger::Ledger;

/// Reads a column that has nulls alone: no number that stands in its pages is a value.
#[derive(Drop)]
pub struct Nulls;

// Why no value begins here: the bytes are cut, or a number stands there.
#[tactic(auto, using(crate::proofs::NullsRead::nothing_whole, crate::proofs::NullsRead::nothing_there))]
fn reason_of(bytes: &[u8]) -> Error
    ensures { ((result ≡ OutOfSpec S6) × (stored_numbers (λ z. None) spelled_32 4 bytes.now ≡ []))
        ⊎ ((result ≡ OutOfSpec S7) × BeginsOutside (stored_numbers (λ z. None) spelled_32 4) bytes.now) }
{
    if bytes.len() < 4 {
        Error::OutOfSpec(S::S6)
    } else {
        Error::OutOfSpec(S::S7)
    }
}

// A number would stand in bytes of its own.
fn has_own_bytes() -> bool
    ensures is { result ≡ true }
    ensures own { in_bytes (stored_numbers (λ z. None) spelled_32 4) ≡ true }
{
    true
}

impl LeafReader for Nulls {
    ghost use Rattle.std.specs.Prelude.{None, replicate};
    ghost use Rattle.shredding.specs.Slot.{null};
    ghost use Rattle.read_leaf.specs.Numbers.{stored_numbers};
    ghost use Rattle.read_leaf.specs.PlainValues.{spelled_32};

    type Values = NullValues;

    ghost stored = { λ r text bit. stored_numbers (λ z. None) spelled_32 4 text };

    ghost slots = { λ d. replicate d.count null };

    ghost byte_limit = { 1 };

    fn begin(&self, _alloc: Global) -> Result<NullValues>
        ensures ok { IfOk result (λ v. replicate v.count null ≡ []) }
        ensures err { IfErr result (λ e. e ≡ Memory) }
    {
        Ok(NullValues { count: 0 })
    }

    fn begin_like(_values: &NullValues, _alloc: Global) -> Result<NullValues>
        ensures ok { IfOk result (λ v. replicate v.count null ≡ []) }
        ensures err { IfErr result (λ e. e ≡ Memory) }
    {
        Ok(NullValues { count: 0 })
    }

    fn stands_in_bytes(&self) -> bool
        ensures value { result ≡ in_bytes (λ text. stored_numbers (λ z. None) spelled_32 4 text) }
        ensures bits { result ≡ false → (text : List ℕ) → AreEights
            (λ text. stored_numbers (λ z. None) spelled_32 4 text) text }
    {
        has_own_bytes()
    }

    // No value stands anywhere.
    fn value_size(&self, bytes: &[u8]) -> Result<usize>
        ensures ok { in_bytes (λ text. stored_numbers (λ z. None) spelled_32 4 text) ≡ true
            → IfOk result (λ n. BeginsWithValue (λ text. stored_numbers (λ z. None) spelled_32 4 text) n bytes.now) }
        ensures err { IfErr result (λ e. ((e ≡ OutOfSpec S6) × (stored_numbers (λ z. None) spelled_32 4 bytes.now ≡ []))
            ⊎ ((e ≡ OutOfSpec S7) × BeginsOutside (λ text. stored_numbers (λ z. None) spelled_32 4 text) bytes.now)) }
    {
        Err(reason_of(bytes))
    }

    fn extend<'a, 'b, L: Ledger>(
        &self,
        page: &mut NestedPage<'a>,
        bytes: &mut PlainBytes<'b>,
        nested: &mut NestedState,
        values: &mut NullValues,
        additional: usize,
        steps: &mut Steps<L>,
    ) -> Result<()>
        requires fits { StateFits nested.old }
        requires decoded { length (replicate values.old.count null) ≡ leaf_count nested.old }
        ensures ok { OnOk result (Extends additional page.old page.new
            (stored_numbers (λ z. None) spelled_32 4 bytes.old.values.now)
            (stored_numbers (λ z. None) spelled_32 4 bytes.new.values.now) nested.old nested.new
            (replicate values.old.count null) (replicate values.new.count null)) }
        ensures err { IfErr result (Refuses 1 additional page.old
            (stored_numbers (λ z. None) spelled_32 4 bytes.old.values.now) nested.old
            (replicate values.old.count null)) }
        ensures ticked { OnOk result (TicksEach (length nested.old) page.old page.new steps.old steps.new) }
        ensures bounded { TicksAtMost (length nested.old * length page.old) steps.old steps.new }
    {
        let mut left = PlainNumbers {
            values: bytes.values,
        };
        let result = extend_levels(
            page,
            &mut left,
            nested,
            values,
            &NullDecoder,
            additional,
            steps,
        );
        bytes.values = left.values;
        result
    }
}

impl LeafArray for Nulls {
    ghost use Rattle.columns_slots.specs.Types.{is_null_type};

    ghost makes = { λ r. is_null_type };

    fn into_array(&self, alloc: Global, values: NullValues, data_type: DataType) -> Result<ArrayBox>
        requires { is_null_type (base (type_view data_type)) ≡ true }
        ensures ok { IfOk result (λ a. IsLeafArray (type_view data_type) (replicate values.count null) (boxed a)) }
        ensures err { IfErr result (λ e. e ≡ Memory) }
    {
        match NullArray::try_new(alloc, data_type, values.count) {
            Ok(array) => Ok(ArrayBox::Null(array)),
            Err(error) => Err(error),
        }
    }
}
