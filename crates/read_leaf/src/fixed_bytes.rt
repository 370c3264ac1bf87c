//! Byte strings of one size.
ghost use Rattle.std.specs.Prelude.{◌≡◌, ◌↔◌, ℕ, ◌+◌, ◌*◌, ◌/◌, ◌%◌, ◌^◌, ◌==◌, ◌<◌, ◌≤◌, ◌++◌, [], IsTrue, IfOk, OnOk, IfErr, MatchOption, Some, true, map, replicate, length as list_length};
ghost use Rattle.columns_base.specs.declared.error.Error.{Error};
ghost use Rattle.columns_core.specs.Bits.{word_bits};
ghost use Rattle.columns_slots.specs.Bytes.{chunks_values};
ghost use Rattle.shredding.specs.Slot.{null, value};
ghost use Rattle.read_walk.specs.Values.{Decodes, DecodesMixed, ones, CannotDecode};
ghost use Rattle.read_leaf.specs.Fixed.{stored_fixed};
ghost use Rattle.read_leaf.specs.FixedBytes.{chunk_slots, loaded_bytes};

use crate::set_bits::{bits_behind, first_run};
use crate::strings::PlainStrings;
use columns_base::{Error, Result, S};
use columns_core::MutableBitmap;
use read_walk::NestedDecoder;
use std::alloc::Global;
use std::marker::Model;

/// Byte strings of one size, one after another, and which of them are there. In the place of a null stand as many zero bytes.
#[derive(Debug, Drop)]
pub struct FixedBytesValues {
    // How many bytes each has.
    size: usize,
    content: Vec<u8>,
    validity: MutableBitmap,
}

impl Model for FixedBytesValues {
    ghost use Rattle.std.specs.Prelude.{List, Bool, ℕ, length, ◌≡◌, ◌*◌};

    ghost Value = { ℕ × (List ℕ × List Bool) };

    ghost view = { λ d. (d.size, (d.content.items, d.validity.0)) };

    ghost invariant = { λ d. length d.content.items ≡ d.size * length d.validity.0 };
}

// As many zero bytes more.
fn push_zeros(content: &mut Vec<u8>, count: usize) -> Result<()>
    ensures ok { OnOk result (content.new.items ≡ content.old.items ++ replicate count 0) }
    ensures err { IfErr result (λ e. (e ≡ Error.Memory) × (content.new.items ≡ content.old.items)) }
{
    let Some(size) = content.len().checked_add(count) else {
        return Err(Error::Memory);
    };
    content.resize(size, 0)?;
    Ok(())
}

impl FixedBytesValues {
    /// No string of so many bytes.
    pub fn new(alloc: Global, size: usize) -> Self
        ensures size { result.0 ≡ size }
        ensures content { result.1.0 ≡ [] }
        ensures validity { result.1.1 ≡ [] }
    {
        FixedBytesValues {
            size,
            content: Vec::new(alloc),
            validity: MutableBitmap::new(alloc),
        }
    }

    /// How many slots there are.
    pub fn len(&self) -> usize
        ensures { result ≡ list_length self.now.1.1 }
    {
        self.validity.len()
    }

    /// The bytes of all strings, those in the place of nulls too, and which are there: what an array of byte strings of one size is made of.
    pub fn into_parts(self) -> (Vec<u8>, MutableBitmap)
        ensures content { result.0.items ≡ self.1.0 }
        ensures validity { result.1.0 ≡ self.1.1 }
        ensures even { list_length self.1.0 ≡ self.0 * list_length self.1.1 }
    {
        (self.content, self.validity)
    }

    /// How many bytes each string has.
    pub fn size(&self) -> usize
        ensures { result ≡ self.now.0 }
    {
        self.size
    }

    // So many strings more.
    fn push_strings(&mut self, strings: &[u8], count: usize) -> Result<()>
        requires { list_length strings.now ≡ self.old.0 * count }
        ensures ok { OnOk result (chunk_slots self.new.0 self.new.1.0 self.new.1.1
            ≡ chunk_slots self.old.0 self.old.1.0 self.old.1.1
            ++ map value (chunks_values self.old.0 count strings.now)) }
        ensures err { IfErr result (λ e. e ≡ Error.Memory) }
        ensures size { self.new.0 ≡ self.old.0 }
    {
        self.validity.reserve(count)?;
        self.content.extend_from_slice(strings)?;
        self.validity.extend_constant(count, true)
    }

    // So many nulls more.
    fn push_blanks(&mut self, count: usize) -> Result<()>
        ensures ok { OnOk result (chunk_slots self.new.0 self.new.1.0 self.new.1.1
            ≡ chunk_slots self.old.0 self.old.1.0 self.old.1.1 ++ replicate count null) }
        ensures err { IfErr result (λ e. e ≡ Error.Memory) }
        ensures size { self.new.0 ≡ self.old.0 }
    {
        let Some(more) = self.size.checked_mul(count) else {
            return Err(Error::Memory);
        };
        self.validity.reserve(count)?;
        push_zeros(&mut self.content, more)?;
        self.validity.extend_constant(count, false)
    }
}

// Whether so many strings stand in the bytes, of so many bytes each.
fn are_there(bytes: &[u8], size: usize, count: usize) -> bool
    ensures { IsTrue result ↔ (count ≤ list_length bytes.now / size) }
{
    if size == 0 {
        return count == 0;
    }
    count <= bytes.len() / size
}

// So many strings at the front, and the bytes behind them; none where fewer stand there.
fn split_strings(bytes: &[u8], size: usize, count: usize) -> Option<(&[u8], &[u8])>
    ensures { MatchOption result (list_length (stored_fixed loaded_bytes size bytes.now) < count)
        (λ s. (list_length s.0.now ≡ size * count) × (stored_fixed loaded_bytes size bytes.now
        ≡ map Some (chunks_values size count s.0.now) ++ stored_fixed loaded_bytes size s.1.now)) }
{
    if !are_there(bytes, size, count) {
        return None;
    }
    Some(bytes.split_at(size * count))
}

/// Decodes plain byte strings of so many bytes each.
#[derive(Drop)]
pub struct FixedBytesDecoder {
    pub size: usize,
}

// As many slots: all with the next strings, or all null.
fn push_run<'a>(
    decoder: &FixedBytesDecoder,
    state: &mut PlainStrings<'a>,
    decoded: &mut FixedBytesValues,
    is_valid: bool,
    count: usize,
) -> Result<()>
    requires { decoded.old.0 ≡ decoder.now.size }
    ensures ok { OnOk result (DecodesMixed (replicate count is_valid)
        (stored_fixed loaded_bytes decoder.now.size state.old.values.now)
        (stored_fixed loaded_bytes decoder.now.size state.new.values.now)
        (chunk_slots decoded.old.0 decoded.old.1.0 decoded.old.1.1)
        (chunk_slots decoded.new.0 decoded.new.1.0 decoded.new.1.1)) }
    ensures err { IfErr result (CannotDecode 0 (ones (replicate count is_valid))
        (stored_fixed loaded_bytes decoder.now.size state.old.values.now)
        (chunk_slots decoded.old.0 decoded.old.1.0 decoded.old.1.1)) }
    ensures suits { decoded.new.0 ≡ decoder.now.size }
{
    if is_valid {
        decoder.push_valid(state, decoded, count)
    } else {
        decoder.push_null(decoded, count)
    }
}

impl<'a> NestedDecoder<'a> for FixedBytesDecoder {
    ghost use Rattle.std.specs.Prelude.{◌≡◌};
    ghost use Rattle.read_leaf.specs.Fixed.{stored_fixed};
    ghost use Rattle.read_leaf.specs.FixedBytes.{chunk_slots, loaded_bytes};

    type State = PlainStrings<'a>;

    type DecodedState = FixedBytesValues;

    ghost left = { λ d s. stored_fixed loaded_bytes d.size s.values.now };

    ghost slots = { λ d. chunk_slots d.0 d.1.0 d.1.1 };

    ghost byte_limit = { 0 };

    ghost suits = { λ d s. s.0 ≡ d.size };

    fn push_valid(
        &self,
        state: &mut PlainStrings<'a>,
        decoded: &mut FixedBytesValues,
        count: usize,
    ) -> Result<()>
        requires suits { decoded.old.0 ≡ self.now.size }
        ensures ok { OnOk result (Decodes count (stored_fixed loaded_bytes self.now.size state.old.values.now)
            (stored_fixed loaded_bytes self.now.size state.new.values.now)
            (chunk_slots decoded.old.0 decoded.old.1.0 decoded.old.1.1)
            (chunk_slots decoded.new.0 decoded.new.1.0 decoded.new.1.1)) }
        ensures err { IfErr result (CannotDecode 0 count (stored_fixed loaded_bytes self.now.size state.old.values.now)
            (chunk_slots decoded.old.0 decoded.old.1.0 decoded.old.1.1)) }
        ensures suits { decoded.new.0 ≡ self.now.size }
    {
        let Some((strings, rest)) = split_strings(state.values, self.size, count) else {
            return Err(Error::OutOfSpec(S::S6));
        };
        match decoded.push_strings(strings, count) {
            Ok(()) => {
                state.values = rest;
                Ok(())
            }
            Err(error) => Err(error),
        }
    }

    fn push_null(&self, decoded: &mut FixedBytesValues, count: usize) -> Result<()>
        requires suits { decoded.old.0 ≡ self.now.size }
        ensures ok { OnOk result (chunk_slots decoded.new.0 decoded.new.1.0 decoded.new.1.1
            ≡ chunk_slots decoded.old.0 decoded.old.1.0 decoded.old.1.1 ++ replicate count null) }
        ensures err { IfErr result (λ e. e ≡ Error.Memory) }
        ensures suits { decoded.new.0 ≡ self.now.size }
    {
        decoded.push_blanks(count)
    }

    fn push_mixed(
        &self,
        state: &mut PlainStrings<'a>,
        decoded: &mut FixedBytesValues,
        valid: u64,
        count: usize,
    ) -> Result<()>
        requires few { count ≤ 64 }
        requires suits { decoded.old.0 ≡ self.now.size }
        ensures ok { OnOk result (DecodesMixed (word_bits valid count)
            (stored_fixed loaded_bytes self.now.size state.old.values.now)
            (stored_fixed loaded_bytes self.now.size state.new.values.now)
            (chunk_slots decoded.old.0 decoded.old.1.0 decoded.old.1.1)
            (chunk_slots decoded.new.0 decoded.new.1.0 decoded.new.1.1)) }
        ensures err { IfErr result (CannotDecode 0 (ones (word_bits valid count))
            (stored_fixed loaded_bytes self.now.size state.old.values.now)
            (chunk_slots decoded.old.0 decoded.old.1.0 decoded.old.1.1)) }
        ensures suits { decoded.new.0 ≡ self.now.size }
    {
        let mut bits = valid;
        let mut left = count;
        while left > 0 {
            let run = first_run(bits, left);
            match push_run(self, state, decoded, bits % 2 == 1, run) {
                Ok(()) => {}
                Err(error) => return Err(error),
            }
            bits = bits_behind(bits, run);
            left -= run;
        }
        Ok(())
    }
}
