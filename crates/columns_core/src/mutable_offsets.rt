//! Offsets that grow.
ghost use Rattle.std.specs.Prelude.{◌≡◌, ◌↔◌, ◌⊎◌, ℕ, List, pos, MatchOption, ◌+◌, ◌-◌, ◌<◌, ◌≤◌, [], ◌∷◌, ◌++◌, IfOk, OnOk, IfErr, IsOk, IsErrOf, replicate, sum, take, map, vec_len, vec_capacity, length as list_length};
ghost use Rattle.columns_core.specs.Rising.{IsWhole, whole, AreFrom, last_place, places_from, GrewBy, Passes};
ghost use Rattle.std.specs.Iterator.{IsFinite, Drains};

use crate::offsets::{Offset, OffsetsBuffer};
use columns_base::{Error, Result, V};
use std::alloc::Global;
use std::marker::Model;

/// Offsets from 0 on that grow by the lengths of ranges, and the room that is left beside them.
#[derive(Debug, Drop)]
pub struct Offsets<O: Offset> {
    values: Vec<O>,
    end: usize,
}

impl<O: Offset> Model for Offsets<O> {
    ghost use Rattle.std.specs.Prelude.{◌≡◌, List, ℕ, ◌-◌, ◌<◌, map, vec_len, vec_capacity};
    ghost use Rattle.columns_core.specs.Rising.{whole, AreFrom, last_place};

    ghost Value = { List ℕ × ℕ };

    ghost view = { λ b. (map (λ o. whole (O.number o)) b.values.items, vec_capacity b.values - vec_len b.values) };

    ghost invariant = { λ b. (0 < vec_len b.values) × AreFrom 0 (map O.number b.values.items)
        × (b.end ≡ last_place (map (λ o. whole (O.number o)) b.values.items)) };
}

impl<O: Offset> Offsets<O> {
    /// The offset 0 alone, with room for as many ranges.
    ///
    /// # Errors
    ///
    /// `Memory`.
    pub fn with_capacity(alloc: Global, capacity: usize) -> Result<Self>
        ensures err { IfErr result (λ e. e ≡ Error.Memory) }
        ensures empty { IfOk result (λ b. b.0 ≡ 0 ∷ []) }
        ensures room { IfOk result (λ b. capacity ≤ b.1) }
    {
        let Some(count) = capacity.checked_add(1) else {
            return Err(Error::Memory);
        };
        let mut values = Vec::with_capacity(alloc, count)?;
        values.push(O::zero())?;
        Ok(Offsets { values, end: 0 })
    }

    /// Room for as many ranges more.
    ///
    /// # Errors
    ///
    /// `Memory`.
    pub fn reserve(&mut self, additional: usize) -> Result<()>
        ensures err { IfErr result (λ e. e ≡ Error.Memory) }
        ensures same { self.new.0 ≡ self.old.0 }
        ensures ok { IfOk result (λ _. additional ≤ self.new.1) }
        ensures room { self.old.1 ≤ self.new.1 }
    {
        self.values.reserve(additional)?;
        Ok(())
    }

    /// A range of this length more. It is not refused while room is left.
    ///
    /// # Errors
    ///
    /// `Memory`; the offsets are then as before.
    pub fn push(&mut self, length: O) -> Result<()>
        requires not_negative { IsWhole (O.number length) }
        requires fits { last_place self.old.0 + whole (O.number length) < O.limit }
        ensures ok { IfOk result (λ _. self.new.0 ≡ self.old.0 ++ (last_place self.old.0 + whole (O.number length))
            ∷ []) }
        ensures err { IfErr result (λ e. (e ≡ Error.Memory) × (self.new.0 ≡ self.old.0)) }
        ensures reserved { 0 < self.old.1 → IsOk result }
        ensures room { self.old.1 ≤ self.new.1 + 1 }
    {
        let end = self.end + length.to_usize();
        let place = O::from_usize(end).unwrap();
        self.values.push(place)?;
        self.end = end;
        Ok(())
    }

    /// A range of this length more. It is not refused while room is left and its end fits.
    ///
    /// # Errors
    ///
    /// V1 exactly where its end does not fit the offset type; `Memory`. The offsets are then as before.
    pub fn try_push_usize(&mut self, length: usize) -> Result<()>
        ensures ok { IfOk result (λ _. self.new.0 ≡ self.old.0 ++ (last_place self.old.0 + length) ∷ []) }
        ensures overflow { IsErrOf result (Error.Overflow V.V1) ↔ O.limit ≤ last_place self.old.0 + length }
        ensures err { IfErr result (λ e. ((e ≡ Error.Memory) ⊎ (e ≡ Error.Overflow V.V1)) × (self.new.0 ≡ self.old.0)) }
        ensures reserved { 0 < self.old.1 → last_place self.old.0 + length < O.limit → IsOk result }
        ensures room { list_length self.old.0 + self.old.1 ≤ list_length self.new.0 + self.new.1 }
    {
        let Some(place) = sum_place::<O>(self.end, length) else {
            return Err(Error::Overflow(V::V1));
        };
        self.values.push(place)?;
        self.end += length;
        Ok(())
    }

    /// A range of each length more.
    ///
    /// # Errors
    ///
    /// V1 where the lengths together pass the offset type; `Memory`. The offsets are then as before.
    pub fn try_extend_from_lengths<I: Iterator<Item = usize> + Drop>(
        &mut self,
        lengths: I,
    ) -> Result<()>
        requires can { I.can_next lengths }
        requires ends { IsFinite (I.remaining lengths) }
        ensures ok { OnOk result (GrewBy I.next_gives lengths O.limit self.old.0 self.new.0) }
        ensures overflow { IsErrOf result (Error.Overflow V.V1) → Passes I.next_gives lengths O.limit self.old.0 }
        ensures err { IfErr result (λ e. ((e ≡ Error.Memory) ⊎ (e ≡ Error.Overflow V.V1)) × (self.new.0 ≡ self.old.0)) }
        ensures room { list_length self.old.0 + self.old.1 ≤ list_length self.new.0 + self.new.1 }
    {
        let ranges = self.len_proxy();
        if let Err(error) = self.push_lengths(lengths) {
            self.shorten(ranges);
            return Err(error);
        }
        Ok(())
    }

    /// A range of each length more, for which there is room and whose ends fit.
    pub fn extend_lengths(&mut self, lengths: &[usize])
        requires room { list_length lengths.now ≤ self.old.1 }
        requires fits { last_place self.old.0 + sum lengths.now < O.limit }
        ensures { self.new.0 ≡ self.old.0 ++ places_from (last_place self.old.0) lengths.now }
    {
        self.end = push_ends(&mut self.values, self.end, lengths);
    }

    /// As many empty ranges more. They are not refused while there is room for them.
    ///
    /// # Errors
    ///
    /// `Memory`; the offsets are then as before.
    pub fn extend_constant(&mut self, additional: usize) -> Result<()>
        ensures ok { IfOk result (λ _. self.new.0 ≡ self.old.0 ++ replicate additional (last_place self.old.0)) }
        ensures err { IfErr result (λ e. (e ≡ Error.Memory) × (self.new.0 ≡ self.old.0)) }
        ensures reserved { additional ≤ self.old.1 → IsOk result }
        ensures room { list_length self.old.0 + self.old.1 ≤ list_length self.new.0 + self.new.1 }
    {
        let Some(count) = self.values.len().checked_add(additional) else {
            return Err(Error::Memory);
        };
        let place = *self.last();
        self.values.resize(count, place)?;
        Ok(())
    }

    /// The last offset.
    pub fn last(&self) -> &O
        ensures place { whole (O.number result.now) ≡ last_place self.now.0 }
        ensures not_negative { IsWhole (O.number result.now) }
    {
        &self.values[self.values.len() - 1]
    }

    /// How many ranges there are.
    pub fn len_proxy(&self) -> usize
        ensures { list_length self.now.0 ≡ result + 1 }
    {
        self.values.len() - 1
    }

    /// The offsets, in memory that can be shared.
    ///
    /// # Errors
    ///
    /// `Memory`.
    pub fn into_buffer(self) -> Result<OffsetsBuffer<O>>
        ensures ok { IfOk result (λ b. b ≡ self.0) }
        ensures err { IfErr result (λ e. e ≡ Error.Memory) }
    {
        OffsetsBuffer::from_rising(self.values)
    }

    // After an error some of the ranges may stand there.
    fn push_lengths<I: Iterator<Item = usize> + Drop>(&mut self, lengths: I) -> Result<()>
        requires can { I.can_next lengths }
        requires ends { IsFinite (I.remaining lengths) }
        ensures ok { OnOk result (GrewBy I.next_gives lengths O.limit self.old.0 self.new.0) }
        ensures overflow { IsErrOf result (Error.Overflow V.V1) → Passes I.next_gives lengths O.limit self.old.0 }
        ensures err { IfErr result (λ e. (e ≡ Error.Memory) ⊎ (e ≡ Error.Overflow V.V1)) }
        ensures kept { take (list_length self.old.0) self.new.0 ≡ self.old.0 }
        ensures room { list_length self.old.0 + self.old.1 ≤ list_length self.new.0 + self.new.1 }
    {
        self.know_last();
        for length in lengths {
            self.try_push_usize(length)?;
        }
        Ok(())
    }

    fn know_last(&self)
        ensures { last_place self.now.0 < O.limit }
    {
        let _last = self.last().to_usize();
    }

    // Keeps the first ranges.
    fn shorten(&mut self, ranges: usize)
        requires { ranges < list_length self.old.0 }
        ensures same { self.new.0 ≡ take (ranges + 1) self.old.0 }
        ensures room { list_length self.new.0 + self.new.1 ≡ list_length self.old.0 + self.old.1 }
    {
        self.values.truncate(ranges + 1);
        self.end = self.values[ranges].to_usize();
    }
}

// The ends of ranges of these lengths more, which lie one after another from the last place on, for which there is room: the last one.
fn push_ends<O: Offset>(values: &mut Vec<O>, from: usize, lengths: &[usize]) -> usize
    requires room { list_length lengths.now ≤ vec_capacity values.old - vec_len values.old }
    requires fits { from + sum lengths.now < O.limit }
    requires places { AreFrom 0 (map O.number values.old.items) }
    requires last { from ≡ last_place (map (λ o. whole (O.number o)) values.old.items) }
    ensures places { AreFrom 0 (map O.number values.new.items) }
    ensures last { result ≡ last_place (map (λ o. whole (O.number o)) values.new.items) }
    ensures some { vec_len values.old ≤ vec_len values.new }
    ensures grown { map (λ o. whole (O.number o)) values.new.items
        ≡ map (λ o. whole (O.number o)) values.old.items ++ places_from from lengths.now }
{
    let mut end = from;
    for length in lengths {
        end += *length;
        let place = O::from_usize(end).unwrap();
        values.push(place).unwrap();
    }
    end
}

// The offset at the end of a range of this length.
fn sum_place<O: Offset>(end: usize, length: usize) -> Option<O>
    ensures { MatchOption result (O.limit ≤ end + length) (λ o. (O.number o ≡ pos (end + length))
        × (end + length < O.limit)) }
{
    O::from_usize(end.checked_add(length)?)
}
