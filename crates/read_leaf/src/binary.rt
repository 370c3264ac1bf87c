//! Byte strings that grow.
ghost use Rattle.std.specs.Prelude.{◌≡◌, ◌⊎◌, ◌+◌, ◌<◌, ◌≤◌, ◌++◌, ◌∷◌, [], List, ℕ, true, None, IfOk, OnOk, IfErr, OnErr, take, drop, replicate, sum, length as list_length};
ghost use Rattle.columns_base.specs.declared.error.Error.{Error};
ghost use Rattle.columns_base.specs.declared.error.S.{S};
ghost use Rattle.columns_base.specs.declared.error.V.{V};
ghost use Rattle.columns_slots.specs.Bytes.{pieces};
ghost use Rattle.std.specs.Iterator.{IsFinite, Drains};
ghost use Rattle.columns_core.specs.Bits.{word_bits};
ghost use Rattle.columns_core.specs.Rising.{last_place, places_from};
ghost use Rattle.read_walk.specs.Values.{ones};
ghost use Rattle.read_leaf.specs.Strings.{IsLaid, cut_off, is_each, total_bytes, stored_strings, TookStrings, CannotTake, CannotLay};

use crate::cut::front;
use crate::lengths::{collect_lengths, sum_within};
use crate::plain::take_plain;
use crate::strings::StringKind;
use columns_base::{Error, Result, S, V};
use columns_core::{Offset, Offsets, OffsetsBuffer};
use std::alloc::Global;
use std::marker::Model;

/// Byte strings, one after another, and where each of them ends. Contracts see the list of them.
#[derive(Debug, Drop)]
pub struct Binary<O: Offset> {
    offsets: Offsets<O>,
    values: Vec<u8>,
}

impl<O: Offset> Model for Binary<O> {
    ghost use Rattle.std.specs.Prelude.{List, ℕ};
    ghost use Rattle.columns_slots.specs.Bytes.{pieces};
    ghost use Rattle.read_leaf.specs.Strings.{IsLaid};

    ghost Value = { List (List ℕ) };

    ghost view = { λ b. pieces b.offsets.0 b.values.items };

    ghost invariant = { λ b. IsLaid b.offsets.0 b.values.items };
}

// How many bytes a short string has at most.
const SHORT: usize = 32;

// The first bytes more. Behind short ones as many more are copied as a short string may have, and cut off again, which costs less than to
// copy so many bytes as are known only here.
pub fn push_first(values: &mut Vec<u8>, bytes: &[u8], count: usize) -> Result<()>
    requires { count ≤ list_length bytes.now }
    ensures ok { OnOk result (values.new.items ≡ values.old.items ++ take count bytes.now) }
    ensures err { IfErr result (λ e. (e ≡ Error.Memory) × (values.new.items ≡ values.old.items)) }
{
    if count <= SHORT && SHORT <= bytes.len() {
        values.extend_from_slice(front(bytes, SHORT))?;
        values.truncate(values.len() - (SHORT - count));
        return Ok(());
    }
    values.extend_from_slice(front(bytes, count))?;
    Ok(())
}

// A range for each of the strings of these lengths, which lie one after another, where all are values of `K` and nothing else is wrong.
fn lay_out<O: Offset, K: StringKind>(
    offsets: &mut Offsets<O>,
    strings: &[u8],
    lengths: &[usize],
    fault: Option<Error>,
) -> Result<()>
    requires whole { sum lengths.now ≡ list_length strings.now }
    ensures ok { OnOk result ((fault ≡ None) × (is_each K.allows (cut_off lengths.now strings.now) ≡ true)
        × (offsets.new.0 ≡ offsets.old.0 ++ places_from (last_place offsets.old.0) lengths.now)) }
    ensures err { IfErr result (λ e. CannotLay O.limit K.allows offsets.old.0 strings.now lengths.now fault e
        × (offsets.new.0 ≡ offsets.old.0)) }
{
    if !K::are_values(strings, lengths) {
        return Err(Error::OutOfSpec(S::S7));
    }
    if let Some(error) = fault {
        return Err(error);
    }
    if O::from_usize(offsets.last().to_usize() + strings.len()).is_none() {
        return Err(Error::Overflow(V::V1));
    }
    offsets.reserve(lengths.len())?;
    offsets.extend_lengths(lengths);
    Ok(())
}

impl<O: Offset> Binary<O> {
    /// No string, and room for as many.
    ///
    /// # Errors
    ///
    /// `Memory`.
    pub fn with_capacity(alloc: Global, capacity: usize) -> Result<Self>
        ensures ok { IfOk result (λ b. b ≡ []) }
        ensures err { IfErr result (λ e. e ≡ Error.Memory) }
    {
        Ok(Binary {
            offsets: Offsets::with_capacity(alloc, capacity)?,
            values: Vec::new(alloc),
        })
    }

    /// A string more.
    ///
    /// # Errors
    ///
    /// V1 where the bytes of all strings are more than the offset type counts; `Memory`. The strings are then as before.
    pub fn push(&mut self, string: &[u8]) -> Result<()>
        ensures ok { OnOk result (self.new ≡ self.old ++ string.now ∷ []) }
        ensures err { IfErr result (λ e. ((e ≡ Error.Memory)
            ⊎
            ((e ≡ Error.Overflow V.V1) × (0 < O.limit) × (O.limit ≤ total_bytes self.old + list_length string.now)))
            × (self.new ≡ self.old)) }
    {
        self.push_front(string, string.len())
    }

    /// A string more: the first of these bytes.
    ///
    /// # Errors
    ///
    /// Those of `push`.
    pub fn push_front(&mut self, bytes: &[u8], count: usize) -> Result<()>
        requires { count ≤ list_length bytes.now }
        ensures ok { OnOk result (self.new ≡ self.old ++ take count bytes.now ∷ []) }
        ensures err { IfErr result (λ e. ((e ≡ Error.Memory)
            ⊎ ((e ≡ Error.Overflow V.V1) × (0 < O.limit) × (O.limit ≤ total_bytes self.old + count)))
            × (self.new ≡ self.old)) }
    {
        // That the last offset fits says that some do.
        let _end = self.offsets.last().to_usize();
        let before = self.values.len();
        push_first(&mut self.values, bytes, count)?;
        match self.offsets.try_push_usize(count) {
            Ok(()) => Ok(()),
            Err(error) => {
                self.values.truncate(before);
                Err(error)
            }
        }
    }

    /// A plain string for each of the low bits of a word: the next one where it is set, else an empty one. Gives the bytes behind them.
    ///
    /// # Errors
    ///
    /// S6 where fewer are stored, S7 where one is no value of `K`, V1 where the bytes of all strings are more than the offset type counts, and
    /// `Memory`. The strings are then as before.
    pub(crate) fn push_plain<'a, K: StringKind>(
        &mut self,
        text: &'a [u8],
        valid: u64,
        count: usize,
    ) -> Result<&'a [u8]>
        requires few { count ≤ 64 }
        ensures ok { IfOk result (λ rest. TookStrings K.allows
            (word_bits valid count) text.now rest.now self.old self.new) }
        ensures err { IfErr result (λ e. CannotTake O.limit (ones (word_bits valid count))
            (stored_strings K.allows text.now) self.old e × (self.new ≡ self.old)) }
    {
        let mut lengths = [0; 64];
        self.push_stretch::<K>(&mut lengths[..count], text, valid)
    }

    // The same with memory for the lengths of the strings, one for each bit.
    fn push_stretch<'a, K: StringKind>(
        &mut self,
        lengths: &mut [usize],
        text: &'a [u8],
        valid: u64,
    ) -> Result<&'a [u8]>
        requires few { list_length lengths.old ≤ 64 }
        ensures ok { IfOk result (λ rest. TookStrings K.allows (word_bits valid
            (list_length lengths.old)) text.now rest.now self.old self.new) }
        ensures err { IfErr result (λ e. CannotTake O.limit (ones (word_bits valid (list_length lengths.old)))
            (stored_strings K.allows text.now) self.old e × (self.new ≡ self.old)) }
    {
        let before = self.values.len();
        let taken = take_plain(&mut self.values, lengths, text, valid);
        let strings = &self.values[before..];
        match lay_out::<O, K>(
            &mut self.offsets,
            strings,
            &lengths[..taken.count],
            taken.fault,
        ) {
            Ok(()) => Ok(taken.rest),
            Err(error) => {
                self.values.truncate(before);
                Err(error)
            }
        }
    }

    /// As many empty strings more.
    ///
    /// # Errors
    ///
    /// `Memory`; the strings are then as before.
    pub fn extend_constant(&mut self, additional: usize) -> Result<()>
        ensures ok { OnOk result (self.new ≡ self.old ++ replicate additional []) }
        ensures err { IfErr result (λ e. (e ≡ Error.Memory) × (self.new ≡ self.old)) }
    {
        self.offsets.extend_constant(additional)?;
        Ok(())
    }

    /// Strings of these lengths more, cut one after another off the front of the bytes.
    ///
    /// # Errors
    ///
    /// S6 where fewer bytes stand there; V1 where the bytes of all strings are more than the offset type counts; `Memory`. The strings and the
    /// bytes are then as before.
    pub fn extend_lengths<I: Iterator<Item = usize> + Drop>(
        &mut self,
        lengths: I,
        values: &mut &[u8],
    ) -> Result<()>
        requires can { I.can_next lengths }
        requires ends { IsFinite (I.remaining lengths) }
        ensures ok { OnOk result ((ns : List ℕ) × Drains I.next_gives lengths ns × (sum ns ≤ list_length values.old.now)
            × (self.new ≡ self.old ++ cut_off ns values.old.now) × (values.new.now ≡ drop (sum ns) values.old.now)) }
        ensures kept { OnErr result ((self.new ≡ self.old) × (values.new.now ≡ values.old.now)) }
        ensures err { IfErr result (λ e. (e ≡ Error.Memory) ⊎ ((e ≡ Error.OutOfSpec S.S6) × (ns : List ℕ)
            × Drains I.next_gives lengths ns × (list_length values.old.now < sum ns))
            ⊎ ((e ≡ Error.Overflow V.V1) × (ns : List ℕ) × Drains I.next_gives lengths ns
            × (O.limit ≤ total_bytes self.old + sum ns))) }
    {
        let lengths = collect_lengths(*self.values.allocator(), lengths)?;
        let Some(total) = sum_within(&lengths, values.len()) else {
            return Err(Error::OutOfSpec(S::S6));
        };
        if O::from_usize(self.offsets.last().to_usize() + total).is_none() {
            return Err(Error::Overflow(V::V1));
        }
        self.offsets.reserve(lengths.len())?;
        self.values.reserve(total)?;
        self.offsets.extend_lengths(&lengths);
        let (strings, rest) = values.split_at(total);
        self.values.extend_from_slice(strings).unwrap();
        *values = rest;
        Ok(())
    }

    /// How many strings there are.
    pub fn len(&self) -> usize
        ensures { result ≡ list_length self.now }
    {
        self.offsets.len_proxy()
    }

    /// The bytes of all strings.
    pub fn values(&self) -> &[u8]
        ensures { list_length result.now ≡ total_bytes self.now }
    {
        &self.values
    }

    /// The offsets and the bytes, as an array of texts or of byte strings has them.
    pub fn into_parts(self) -> (Offsets<O>, Vec<u8>)
        ensures strings { pieces result.0.0 result.1.items ≡ self }
        ensures laid { IsLaid result.0.0 result.1.items }
    {
        (self.offsets, self.values)
    }
}
