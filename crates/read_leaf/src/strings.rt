//! Texts and byte strings.
ghost use Rattle.std.specs.Prelude.{◌≡◌, ◌⊎◌, ◌↔◌, IsTrue, ℕ, List, Bool, ◌+◌, ◌<◌, ◌≤◌, ◌++◌, ◌∷◌, [], true, Some, None, OnOk, IfErr, IfOk, MatchOption, replicate, length as list_length, take, drop};
ghost use Rattle.columns_base.specs.declared.error.Error.{Error};
ghost use Rattle.columns_base.specs.declared.error.V.{V};
ghost use Rattle.columns_core.specs.Bits.{word_bits};
ghost use Rattle.shredding.specs.Slot.{bytes, null, value};
ghost use Rattle.pq_numbers.specs.Texts.{number_of};
ghost use Rattle.read_walk.specs.Values.{Decodes, DecodesMixed, ones, CannotDecode, bytes_in};
ghost use Rattle.read_leaf.specs.Strings.{string_at, stored_strings, string_slots, AreAllowed, IsText};

use crate::binary::Binary;
use crate::texts::{are_texts, is_text};
use columns_base::{Error, Result};
use columns_core::{MutableBitmap, Offset};
use read_walk::NestedDecoder;
use std::alloc::Global;
use std::marker::{Model, PhantomData};

/// Which byte strings are values of the leaf.
pub trait StringKind {
    ghost use Rattle.std.specs.Prelude.{List, ℕ, Bool};

    // whether the string is a value of the leaf
    ghost allows: { List ℕ → Bool };

    /// Whether the string is a value of the leaf.
    fn is_value(bytes: &[u8]) -> bool
        ensures { result ≡ allows bytes.now };

    ghost use Rattle.std.specs.Prelude.{◌≤◌, length, sum};
    ghost use Rattle.read_leaf.specs.Strings.{cut_off, is_each};

    /// Whether all strings of these lengths, cut one after another off the front of the bytes, are.
    fn are_values(bytes: &[u8], lengths: &[usize]) -> bool
        requires { sum lengths.now ≤ length bytes.now }
        ensures { result ≡ is_each allows (cut_off lengths.now bytes.now) };

    ghost use Rattle.std.specs.Prelude.{◌≡◌, [], true};

    // the empty string, which stands in the place of a null, is one
    ghost empty: { allows [] ≡ true };
}

/// Byte strings: all are values.
#[derive(Clone, Copy, Debug, Drop)]
pub struct Bytes;

impl StringKind for Bytes {
    ghost use Rattle.std.specs.Prelude.{true, refl};

    ghost allows = { λ s. true };

    ghost empty = { refl };

    fn is_value(_bytes: &[u8]) -> bool {
        true
    }

    fn are_values(_bytes: &[u8], _lengths: &[usize]) -> bool {
        true
    }
}

/// Texts: those in UTF-8 are values.
#[derive(Clone, Copy, Debug, Drop)]
pub struct Text;

impl StringKind for Text {
    ghost use Rattle.std.specs.Prelude.{[]};
    ghost use Rattle.std.specs.Str.{is_utf8};
    ghost use Rattle.std.proofs.lemmas.Str.{is_utf8-from_IsUtf8, IsUtf8-nil};

    ghost allows = { is_utf8 };

    ghost empty = { is_utf8-from_IsUtf8 [] IsUtf8-nil };

    fn is_value(bytes: &[u8]) -> bool {
        is_text(bytes)
    }

    fn are_values(bytes: &[u8], lengths: &[usize]) -> bool {
        are_texts(bytes, lengths)
    }
}

/// The plain bytes of a page's values that are left.
#[derive(Debug, Drop)]
pub struct PlainStrings<'a> {
    pub values: &'a [u8],
}

/// How many strings there is room for at the start.
const FEW: usize = 1_024;

/// Strings, each a value of the leaf by `K`, and which of them are there.
#[derive(Debug, Drop)]
pub struct StringValues<O: Offset, K: StringKind> {
    strings: Binary<O>,
    validity: MutableBitmap,
    kind: PhantomData<K>,
}

impl<O: Offset, K: StringKind> Model for StringValues<O, K> {
    ghost use Rattle.std.specs.Prelude.{List, Bool, ℕ};
    ghost use Rattle.read_leaf.specs.Strings.{AreStrings, AreAllowed};

    ghost Value = { List (List ℕ) × List Bool };

    ghost view = { λ d. (d.strings, d.validity.0) };

    ghost invariant = { λ d. AreStrings d.strings d.validity.0 × AreAllowed K.allows d.strings };
}

impl<O: Offset, K: StringKind> StringValues<O, K> {
    /// No string.
    ///
    /// # Errors
    ///
    /// `Memory`.
    pub fn new(alloc: Global) -> Result<Self>
        ensures strings { IfOk result (λ d. d.0 ≡ []) }
        ensures validity { IfOk result (λ d. d.1 ≡ []) }
        ensures err { IfErr result (λ e. e ≡ Error.Memory) }
    {
        Ok(StringValues {
            strings: Binary::with_capacity(alloc, FEW)?,
            validity: MutableBitmap::with_capacity(alloc, FEW)?,
            kind: PhantomData,
        })
    }

    /// How many slots there are.
    pub fn len(&self) -> usize
        ensures { result ≡ list_length self.now.1 }
    {
        self.validity.len()
    }

    /// The strings, empty in the place of nulls, and which are there.
    pub fn into_parts(self) -> (Binary<O>, MutableBitmap)
        ensures strings { result.0 ≡ self.0 }
        ensures validity { result.1.0 ≡ self.1 }
        ensures even { list_length self.0 ≡ list_length self.1 }
        ensures allowed { AreAllowed K.allows result.0 }
    {
        (self.strings, self.validity)
    }

    // A slot for each of the low bits of a word: the next string where it is set.
    fn push_word<'a>(
        &mut self,
        state: &mut PlainStrings<'a>,
        valid: u64,
        count: usize,
    ) -> Result<()>
        requires few { count ≤ 64 }
        ensures ok { OnOk result (DecodesMixed (word_bits valid count) (stored_strings K.allows state.old.values.now)
            (stored_strings K.allows state.new.values.now) (string_slots self.old.0 self.old.1)
            (string_slots self.new.0 self.new.1)) }
        ensures err { IfErr result (CannotDecode O.limit (ones (word_bits valid count))
            (stored_strings K.allows state.old.values.now) (string_slots self.old.0 self.old.1)) }
    {
        self.validity.reserve(count)?;
        match self.strings.push_plain::<K>(state.values, valid, count) {
            Ok(rest) => state.values = rest,
            Err(error) => return Err(error),
        }
        self.validity.extend_from_word(valid, count).unwrap();
        Ok(())
    }

    // As many nulls.
    fn push_nulls(&mut self, count: usize) -> Result<()>
        ensures ok { OnOk result (string_slots self.new.0 self.new.1
            ≡ string_slots self.old.0 self.old.1 ++ replicate count null) }
        ensures err { IfErr result (λ e. e ≡ Error.Memory) }
    {
        self.validity.reserve(count)?;
        match self.strings.extend_constant(count) {
            Ok(()) => {}
            Err(error) => return Err(error),
        }
        self.validity.extend_constant(count, false).unwrap();
        Ok(())
    }
}

/// Decodes plain byte strings, of which `K` says which are values of the leaf.
#[derive(Drop)]
pub struct StringDecoder<O, K> {
    offset: PhantomData<O>,
    kind: PhantomData<K>,
}

impl<O, K> StringDecoder<O, K> {
    pub fn new() -> Self {
        StringDecoder {
            offset: PhantomData,
            kind: PhantomData,
        }
    }
}

impl<'a, O: Offset, K: StringKind> NestedDecoder<'a> for StringDecoder<O, K> {
    ghost use Rattle.read_leaf.specs.Strings.{stored_strings, string_slots};

    type State = PlainStrings<'a>;

    type DecodedState = StringValues<O, K>;

    ghost left = { λ d s. stored_strings K.allows s.values.now };

    ghost slots = { λ d. string_slots d.0 d.1 };

    ghost byte_limit = { O.limit };

    fn push_valid(
        &self,
        state: &mut PlainStrings<'a>,
        decoded: &mut StringValues<O, K>,
        count: usize,
    ) -> Result<()>
        ensures ok { OnOk result (Decodes count (stored_strings K.allows state.old.values.now)
            (stored_strings K.allows state.new.values.now) (string_slots decoded.old.0 decoded.old.1)
            (string_slots decoded.new.0 decoded.new.1)) }
        ensures err { IfErr result (CannotDecode O.limit count (stored_strings K.allows state.old.values.now)
            (string_slots decoded.old.0 decoded.old.1)) }
    {
        let mut left = count;
        while left > 0 {
            let some = left.min(64);
            match decoded.push_word(state, u64::MAX, some) {
                Ok(()) => {}
                Err(error) => return Err(error),
            }
            left -= some;
        }
        Ok(())
    }

    fn push_null(&self, decoded: &mut StringValues<O, K>, count: usize) -> Result<()>
        ensures ok { OnOk result (string_slots decoded.new.0 decoded.new.1
            ≡ string_slots decoded.old.0 decoded.old.1 ++ replicate count null) }
        ensures err { IfErr result (λ e. e ≡ Error.Memory) }
    {
        decoded.push_nulls(count)
    }

    fn push_mixed(
        &self,
        state: &mut PlainStrings<'a>,
        decoded: &mut StringValues<O, K>,
        valid: u64,
        count: usize,
    ) -> Result<()>
        requires few { count ≤ 64 }
        ensures ok { OnOk result (DecodesMixed (word_bits valid count) (stored_strings K.allows state.old.values.now)
            (stored_strings K.allows state.new.values.now) (string_slots decoded.old.0 decoded.old.1)
            (string_slots decoded.new.0 decoded.new.1)) }
        ensures err { IfErr result (CannotDecode O.limit (ones (word_bits valid count))
            (stored_strings K.allows state.old.values.now) (string_slots decoded.old.0 decoded.old.1)) }
    {
        decoded.push_word(state, valid, count)
    }
}
