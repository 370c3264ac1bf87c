//! Truth values.
ghost use Rattle.std.specs.Prelude.{◌≡◌, ◌⊎◌, ◌*◌, ℕ, List, [], Some, true, false, length, map, OnOk, IfOk, IfErr};
ghost use Rattle.columns_base.specs.declared.error.Error.TheVariants.{Memory, OutOfSpec};
ghost use Rattle.columns_base.specs.declared.error.S.TheVariants.{S6, S7};
ghost use Rattle.columns_core.specs.Shapes.{base};
ghost use Rattle.columns_core.specs.View.{type_view};
ghost use Rattle.columns_slots.specs.Types.{is_boolean};
ghost use Rattle.columns_array.specs.Boxed.{boxed};
ghost use Rattle.shredding.specs.Slot.{truth};
ghost use Rattle.read_laws.specs.State.{leaf_count, StateFits};
ghost use Rattle.read_leaf.specs.Truths.{stored_truths, truth_slots};
ghost use Rattle.read_state.specs.Ticks.{TicksAtMost};
ghost use Rattle.read_walk.specs.Ticks.{TicksEach};
ghost use Rattle.read_walk.specs.Walk.{Extends, Refuses};
ghost use Rattle.read_pieces.specs.Leaves.{AreEights, BeginsOutside, BeginsWithValue, in_bytes};
ghost use Rattle.read_types.specs.Arrays.{IsLeafArray, masked_leaf};

use crate::array::LeafArray;
use columns_array::ArrayBox;
use columns_base::Result;
use columns_core::{Bitmap, DataType};
use columns_leaf::BooleanArray;
use read_leaf::{PlainTruths, TruthDecoder, TruthValues};
use read_pieces::{LeafReader, PlainBytes};
use read_state::{NestedState, Steps};
use read_walk::{NestedPage, extend_levels};
use std::alloc::Global;
use std::sync::ledger::Ledger;

/// Reads truth values.
#[derive(Drop)]
pub struct Truths;

// A truth value does not stand in bytes of its own.
#[tactic(auto, using(crate::proofs::TruthBytes::truths_share, crate::proofs::TruthBytes::truths_are_eights))]
fn is_in_bytes() -> bool
    ensures value { result ≡ in_bytes (λ text. stored_truths text 0) }
    ensures bits { (text : List ℕ) → AreEights (λ text. stored_truths text 0) text }
{
    false
}

// The byte of the first value, which seven more share.
#[tactic(auto, using(crate::proofs::TruthBytes::no_value_alone))]
fn eighth_of(bytes: &[u8]) -> Result<usize>
    ensures ok { IfOk result (λ n. in_bytes (λ text. stored_truths text 0) ≡ true
        → BeginsWithValue (λ text. stored_truths text 0) n bytes.now) }
    ensures none { IfErr result (λ e. ⊥) }
{
    Ok(bytes.len().min(1))
}

impl LeafReader for Truths {
    ghost use Rattle.read_leaf.specs.Truths.{stored_truths, truth_slots};

    type Values = TruthValues;

    ghost stored = { λ r text bit. stored_truths text bit };

    ghost slots = { λ d. truth_slots d.0 d.1 };

    ghost byte_limit = { 1 };

    fn begin(&self, alloc: Global) -> Result<TruthValues>
        ensures ok { IfOk result (λ v. truth_slots v.0 v.1 ≡ []) }
        ensures err { IfErr result (λ e. e ≡ Memory) }
    {
        Ok(TruthValues::new(alloc))
    }

    fn begin_like(_values: &TruthValues, alloc: Global) -> Result<TruthValues>
        ensures ok { IfOk result (λ v. truth_slots v.0 v.1 ≡ []) }
        ensures err { IfErr result (λ e. e ≡ Memory) }
    {
        Ok(TruthValues::new(alloc))
    }

    fn stands_in_bytes(&self) -> bool
        ensures value { result ≡ in_bytes (λ text. stored_truths text 0) }
        ensures bits { result ≡ false → (text : List ℕ) → AreEights (λ text. stored_truths text 0) text }
    {
        is_in_bytes()
    }

    // A byte has eight values.
    fn value_size(&self, bytes: &[u8]) -> Result<usize>
        ensures ok { in_bytes (λ text. stored_truths text 0) ≡ true
            → IfOk result (λ n. BeginsWithValue (λ text. stored_truths text 0) n bytes.now) }
        ensures err { IfErr result (λ e. ((e ≡ OutOfSpec S6) × (stored_truths bytes.now 0 ≡ []))
            ⊎ ((e ≡ OutOfSpec S7) × BeginsOutside (λ text. stored_truths text 0) bytes.now)) }
    {
        eighth_of(bytes)
    }

    fn extend<'a, 'b, L: Ledger>(
        &self,
        page: &mut NestedPage<'a>,
        bytes: &mut PlainBytes<'b>,
        nested: &mut NestedState,
        values: &mut TruthValues,
        additional: usize,
        steps: &mut Steps<L>,
    ) -> Result<()>
        requires fits { StateFits nested.old }
        requires decoded { length (truth_slots values.old.0 values.old.1) ≡ leaf_count nested.old }
        ensures ok { OnOk result (Extends additional page.old page.new
            (stored_truths bytes.old.values.now bytes.old.bit)
            (stored_truths bytes.new.values.now bytes.new.bit) nested.old nested.new
            (truth_slots values.old.0 values.old.1) (truth_slots values.new.0 values.new.1)) }
        ensures err { IfErr result (Refuses 1 additional page.old
            (stored_truths bytes.old.values.now bytes.old.bit) nested.old (truth_slots values.old.0 values.old.1)) }
        ensures ticked { OnOk result (TicksEach (length nested.old) page.old page.new steps.old steps.new) }
        ensures bounded { TicksAtMost (length nested.old * length page.old) steps.old steps.new }
    {
        let mut left = PlainTruths {
            values: bytes.values,
            bit: bytes.bit,
        };
        let result = extend_levels(
            page,
            &mut left,
            nested,
            values,
            &TruthDecoder,
            additional,
            steps,
        );
        bytes.values = left.values;
        bytes.bit = left.bit;
        result
    }
}

// Truth values and which of them are there, as an array.
fn truth_array(
    alloc: Global,
    data_type: DataType,
    truths: Bitmap,
    validity: Bitmap,
) -> Result<BooleanArray>
    requires mask { length validity ≡ length truths }
    requires typed { is_boolean (base (type_view data_type)) ≡ true }
    ensures ok { IfOk result (λ a. a ≡ (type_view data_type, (truths, Some validity))) }
    ensures err { IfErr result (λ e. e ≡ Memory) }
{
    match BooleanArray::try_new(alloc, data_type, truths, Some(validity)) {
        Ok(array) => Ok(array),
        Err(error) => Err(error),
    }
}

impl LeafArray for Truths {
    ghost use Rattle.columns_slots.specs.Types.{is_boolean};

    ghost makes = { λ r. is_boolean };

    fn into_array(
        &self,
        alloc: Global,
        values: TruthValues,
        data_type: DataType,
    ) -> Result<ArrayBox>
        requires { is_boolean (base (type_view data_type)) ≡ true }
        ensures ok { IfOk result (λ a. IsLeafArray (type_view data_type) (truth_slots values.0 values.1) (boxed a)) }
        ensures err { IfErr result (λ e. e ≡ Memory) }
    {
        let (truths, validity) = values.into_parts();
        let truths = match truths.into_bitmap() {
            Ok(truths) => truths,
            Err(error) => return Err(error),
        };
        let validity = match validity.into_bitmap() {
            Ok(validity) => validity,
            Err(error) => return Err(error),
        };
        match truth_array(alloc, data_type, truths, validity) {
            Ok(array) => Ok(ArrayBox::Boolean(array)),
            Err(error) => Err(error),
        }
    }
}
