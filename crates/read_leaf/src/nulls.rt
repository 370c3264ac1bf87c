//! Nulls alone.
ghost use Rattle.std.specs.Prelude.{◌≡◌, ◌+◌, ◌<◌, ◌≤◌, ◌++◌, List, [], None, OnOk, IfErr, replicate};
ghost use Rattle.columns_base.specs.declared.error.Error.{Error};
ghost use Rattle.columns_core.specs.Bits.{word_bits};
ghost use Rattle.shredding.specs.Slot.{Slot, null};
ghost use Rattle.read_walk.specs.Values.{Decodes, DecodesMixed, ones, CannotDecode};
ghost use Rattle.read_leaf.specs.Numbers.{stored_numbers};
ghost use Rattle.read_leaf.specs.PlainValues.{spelled_32};

use crate::primitive::PlainNumbers;
use crate::set_bits::count_set;
use columns_base::{Error, Result, S};
use read_walk::NestedDecoder;

/// How many nulls were decoded.
#[derive(Clone, Copy, Debug, Drop)]
pub struct NullValues {
    pub count: usize,
}

/// Decodes a column of a type without values, which a file stores as numbers of 32 bits: whatever stands in its pages is no value of the type.
#[derive(Drop)]
pub struct NullDecoder;

// Why so many values cannot be decoded: bytes are missing, or a number stands there.
fn reason_of(bytes: &[u8], count: usize) -> Error
    requires { 0 < count }
    ensures { (slots : List Slot) → CannotDecode 1 count
        (stored_numbers (λ z. None) spelled_32 4 bytes.now) slots result }
{
    if bytes.len() / 4 < count {
        Error::OutOfSpec(S::S6)
    } else {
        Error::OutOfSpec(S::S7)
    }
}

impl<'a> NestedDecoder<'a> for NullDecoder {
    ghost use Rattle.std.specs.Prelude.{None, replicate};
    ghost use Rattle.shredding.specs.Slot.{null};
    ghost use Rattle.read_leaf.specs.Numbers.{stored_numbers};
    ghost use Rattle.read_leaf.specs.PlainValues.{spelled_32};

    type State = PlainNumbers<'a>;

    type DecodedState = NullValues;

    ghost left = { λ d s. stored_numbers (λ z. None) spelled_32 4 s.values.now };

    ghost slots = { λ d. replicate d.count null };

    ghost byte_limit = { 1 };

    fn push_valid(
        &self,
        state: &mut PlainNumbers<'a>,
        _decoded: &mut NullValues,
        count: usize,
    ) -> Result<()>
        ensures ok { OnOk result (Decodes count (stored_numbers (λ z. None) spelled_32 4 state.old.values.now)
            (stored_numbers (λ z. None) spelled_32 4 state.new.values.now) (replicate _decoded.old.count null)
            (replicate _decoded.new.count null)) }
        ensures err { IfErr result (CannotDecode 1 count (stored_numbers (λ z. None) spelled_32 4 state.old.values.now)
            (replicate _decoded.old.count null)) }
    {
        if count == 0 {
            return Ok(());
        }
        Err(reason_of(state.values, count))
    }

    fn push_null(&self, decoded: &mut NullValues, count: usize) -> Result<()>
        ensures ok { OnOk result (replicate decoded.new.count null
            ≡ replicate decoded.old.count null ++ replicate count null) }
        ensures err { IfErr result (λ e. e ≡ Error.Memory) }
    {
        match decoded.count.checked_add(count) {
            Some(more) => {
                decoded.count = more;
                Ok(())
            }
            None => Err(Error::Memory),
        }
    }

    fn push_mixed(
        &self,
        state: &mut PlainNumbers<'a>,
        decoded: &mut NullValues,
        valid: u64,
        count: usize,
    ) -> Result<()>
        requires few { count ≤ 64 }
        ensures ok { OnOk result (DecodesMixed (word_bits valid count)
            (stored_numbers (λ z. None) spelled_32 4 state.old.values.now)
            (stored_numbers (λ z. None) spelled_32 4 state.new.values.now) (replicate decoded.old.count null)
            (replicate decoded.new.count null)) }
        ensures err { IfErr result (CannotDecode 1 (ones (word_bits valid count))
            (stored_numbers (λ z. None) spelled_32 4 state.old.values.now) (replicate decoded.old.count null)) }
    {
        let wanted = count_set(valid, count);
        if wanted == 0 {
            return self.push_null(decoded, count);
        }
        Err(reason_of(state.values, wanted))
    }
}
