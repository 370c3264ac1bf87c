//! Values of a fixed number of bytes.
ghost use Rattle.std.specs.Prelude.{◌≡◌, ℕ, List, ◌≤◌, ◌++◌, ◌∷◌, [], true, IfOk, OnOk, IfErr, map, replicate, length as list_length};
ghost use Rattle.columns_base.specs.declared.error.Error.{Error};
ghost use Rattle.columns_core.specs.Bits.{word_bits};
ghost use Rattle.shredding.specs.Slot.{Slot, null};
ghost use Rattle.read_walk.specs.Values.{Decodes, DecodesMixed, ones, CannotDecode};
ghost use Rattle.read_leaf.specs.Fixed.{TookValues, stored_fixed, value_slots};

use crate::cut::skip;
use crate::primitive::{NumberValues, PlainNumbers, push_copies, push_validities};
use columns_base::{Error, Result, S};
use columns_core::NativeType;
use read_walk::NestedDecoder;
use std::marker::PhantomData;

/// A value of a leaf that a column stores as bytes of one size.
pub trait FixedValue: NativeType {
    ghost use Rattle.std.specs.Prelude.{List, ℕ};
    ghost use Rattle.shredding.specs.Slot.{Value};
    ghost use Rattle.read_walk.specs.Values.{Stored};

    // the value of the leaf for the bytes that are stored; none where that is outside the leaf's type
    ghost loaded: { List ℕ → Stored };

    // the value
    ghost held: { Self → Value };

    ghost use Rattle.std.specs.Prelude.{◌≡◌, option_map};

    /// The value of the leaf that is stored so, or none.
    fn from_bytes(bytes: &[u8]) -> Option<Self>
        ensures { option_map held result ≡ loaded bytes.now };

    /// What stands in the place of a null.
    fn blank() -> Self;

    ghost use Rattle.std.specs.Prelude.{true};
    ghost use Rattle.columns_core.specs.Tree.{TypeTree};
    ghost use Rattle.read_leaf.specs.Fixed.{is_fixed};

    // in each type that is stored so, the value that arrays have
    ghost worth: { (t : TypeTree) (x : Self) → Self.stores t ≡ true → is_fixed t ≡ true → Self.value t x ≡ held x };
}

/// Decodes plain values of so many bytes each as values of `T`.
#[derive(Drop)]
pub struct FixedDecoder<T> {
    pub size: usize,
    pub value: PhantomData<T>,
}

// Appends the next value, and gives the bytes behind it.
fn take_value<'a, T: FixedValue>(
    values: &mut Vec<T>,
    bytes: &'a [u8],
    size: usize,
) -> Result<&'a [u8]>
    ensures ok { IfOk result (λ rest. TookValues (stored_fixed T.loaded size) (true ∷ []) bytes.now rest.now
        (map T.held values.old.items) (map T.held values.new.items)) }
    ensures err { IfErr result (λ e. (slots : List Slot) → CannotDecode 0 1
        (stored_fixed T.loaded size bytes.now) slots e) }
    ensures kept { list_length values.old.items ≤ list_length values.new.items }
{
    if size == 0 {
        return Err(Error::OutOfSpec(S::S6));
    }
    if bytes.len() < size {
        return Err(Error::OutOfSpec(S::S6));
    }
    match T::from_bytes(&bytes[..size]) {
        Some(value) => {
            values.push(value)?;
            Ok(skip(bytes, size))
        }
        None => Err(Error::OutOfSpec(S::S7)),
    }
}

// Appends the next value where one stands there, else a blank, and gives the bytes behind it.
fn take_slot<'a, T: FixedValue>(
    values: &mut Vec<T>,
    bytes: &'a [u8],
    size: usize,
    is_valid: bool,
) -> Result<&'a [u8]>
    ensures ok { IfOk result (λ rest. TookValues (stored_fixed T.loaded size) (is_valid ∷ []) bytes.now rest.now
        (map T.held values.old.items) (map T.held values.new.items)) }
    ensures err { IfErr result (λ e. (slots : List Slot) → CannotDecode 0 (ones (is_valid ∷ []))
        (stored_fixed T.loaded size bytes.now) slots e) }
    ensures kept { list_length values.old.items ≤ list_length values.new.items }
{
    if is_valid {
        take_value(values, bytes, size)
    } else {
        values.push(T::blank())?;
        Ok(bytes)
    }
}

// Appends a value for each of the low bits of a word: the next one where it is set, else a blank. Gives the bytes behind them.
fn take_slots<'a, T: FixedValue>(
    values: &mut Vec<T>,
    bytes: &'a [u8],
    size: usize,
    valid: u64,
    count: usize,
) -> Result<&'a [u8]>
    ensures ok { IfOk result (λ rest. TookValues (stored_fixed T.loaded size) (word_bits valid count) bytes.now rest.now
        (map T.held values.old.items) (map T.held values.new.items)) }
    ensures err { IfErr result (λ e. (slots : List Slot) → CannotDecode 0 (ones (word_bits valid count))
        (stored_fixed T.loaded size bytes.now) slots e) }
    ensures kept { list_length values.old.items ≤ list_length values.new.items }
{
    let mut rest = bytes;
    let mut bits = valid;
    for i in 0..count {
        match take_slot(values, rest, size, bits % 2 == 1) {
            Ok(behind) => rest = behind,
            Err(error) => return Err(error),
        }
        bits /= 2;
    }
    Ok(rest)
}

// The next values among nulls.
fn decode_slots<'a, T: FixedValue>(
    state: &mut PlainNumbers<'a>,
    decoded: &mut NumberValues<T>,
    size: usize,
    valid: u64,
    count: usize,
) -> Result<()>
    requires few { count ≤ 64 }
    ensures ok { OnOk result (DecodesMixed (word_bits valid count) (stored_fixed T.loaded size state.old.values.now)
        (stored_fixed T.loaded size state.new.values.now) (value_slots (map T.held decoded.old.0) decoded.old.1)
        (value_slots (map T.held decoded.new.0) decoded.new.1)) }
    ensures err { IfErr result (CannotDecode 0 (ones (word_bits valid count))
        (stored_fixed T.loaded size state.old.values.now) (value_slots (map T.held decoded.old.0) decoded.old.1)) }
{
    let before = decoded.validity.len();
    decoded.values.truncate(before);
    match take_slots(&mut decoded.values, state.values, size, valid, count) {
        Ok(rest) => state.values = rest,
        Err(error) => {
            decoded.values.truncate(before);
            return Err(error);
        }
    }
    match decoded.validity.extend_from_word(valid, count) {
        Ok(()) => Ok(()),
        Err(error) => {
            decoded.values.truncate(before);
            Err(error)
        }
    }
}

impl<'a, T: FixedValue> NestedDecoder<'a> for FixedDecoder<T> {
    ghost use Rattle.std.specs.Prelude.{map};
    ghost use Rattle.read_leaf.specs.Fixed.{stored_fixed, value_slots};

    type State = PlainNumbers<'a>;

    type DecodedState = NumberValues<T>;

    ghost left = { λ d s. stored_fixed T.loaded d.size s.values.now };

    ghost slots = { λ d. value_slots (map T.held d.0) d.1 };

    ghost byte_limit = { 0 };

    fn push_valid(
        &self,
        state: &mut PlainNumbers<'a>,
        decoded: &mut NumberValues<T>,
        count: usize,
    ) -> Result<()>
        ensures ok { OnOk result (Decodes count (stored_fixed T.loaded self.now.size state.old.values.now)
            (stored_fixed T.loaded self.now.size state.new.values.now)
            (value_slots (map T.held decoded.old.0) decoded.old.1)
            (value_slots (map T.held decoded.new.0) decoded.new.1)) }
        ensures err { IfErr result (CannotDecode 0 count (stored_fixed T.loaded self.now.size state.old.values.now)
            (value_slots (map T.held decoded.old.0) decoded.old.1)) }
    {
        let mut left = count;
        while left > 0 {
            let some = left.min(64);
            match decode_slots(state, decoded, self.size, u64::MAX, some) {
                Ok(()) => {}
                Err(error) => return Err(error),
            }
            left -= some;
        }
        Ok(())
    }

    fn push_null(&self, decoded: &mut NumberValues<T>, count: usize) -> Result<()>
        ensures ok { OnOk result (value_slots (map T.held decoded.new.0) decoded.new.1
            ≡ value_slots (map T.held decoded.old.0) decoded.old.1 ++ replicate count null) }
        ensures err { IfErr result (λ e. e ≡ Error.Memory) }
    {
        let before = decoded.validity.len();
        decoded.values.truncate(before);
        match push_copies(&mut decoded.values, T::blank(), count) {
            Ok(()) => {}
            Err(error) => {
                decoded.values.truncate(before);
                return Err(error);
            }
        }
        match push_validities(&mut decoded.validity, false, count) {
            Ok(()) => Ok(()),
            Err(error) => {
                decoded.values.truncate(before);
                Err(error)
            }
        }
    }

    fn push_mixed(
        &self,
        state: &mut PlainNumbers<'a>,
        decoded: &mut NumberValues<T>,
        valid: u64,
        count: usize,
    ) -> Result<()>
        requires few { count ≤ 64 }
        ensures ok { OnOk result (DecodesMixed (word_bits valid count)
            (stored_fixed T.loaded self.now.size state.old.values.now)
            (stored_fixed T.loaded self.now.size state.new.values.now)
            (value_slots (map T.held decoded.old.0) decoded.old.1)
            (value_slots (map T.held decoded.new.0) decoded.new.1)) }
        ensures err { IfErr result (CannotDecode 0 (ones (word_bits valid count))
            (stored_fixed T.loaded self.now.size state.old.values.now)
            (value_slots (map T.held decoded.old.0) decoded.old.1)) }
    {
        decode_slots(state, decoded, self.size, valid, count)
    }
}
