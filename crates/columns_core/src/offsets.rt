//! Places that never fall, in shared memory.
ghost use Rattle.std.specs.Prelude.{◌≡◌, ◌↔◌, ◌⊎◌, Bool, ◌+◌, ◌-◌, ◌<◌, ◌≤◌, ◌^◌, IsTrue, pos, ◌≤ℤ◌, List, ℕ, ℤ, [], ◌∷◌, ◌++◌, IfOk, IfErr, IsErrOf, MatchOption, map, length as list_length, take, drop, slice_index_or, Err};
ghost use Rattle.columns_core.specs.Rising.{AreFrom, IsRising, IsWhole, whole, ArePlaces};

use columns_base::{A, Error, Result};
use std::marker::Model;
use std::rc::Rc;

/// The number of an offset: `i32` or `i64`.
pub trait Offset: Copy + Drop {
    ghost number: { Self → ℤ };

    // one above the largest
    ghost limit: { ℕ };

    /// The number, which is not negative.
    fn to_usize(&self) -> usize
        requires { IsWhole (number self.now) }
        ensures value { result ≡ whole (number self.now) }
        ensures fits { result < limit };

    /// The offset of this number, if it fits.
    fn from_usize(n: usize) -> Option<Self>
        ensures { MatchOption result (limit ≤ n) (λ o. (number o ≡ pos n) × (n < limit)) };

    // larger than 32 bits
    ghost large: { Bool };

    /// Whether it has more than 32 bits.
    fn is_large() -> bool
        ensures { result ≡ large };

    /// Whether the number is below 0.
    fn is_negative(&self) -> bool
        ensures { IsTrue result ↔ ¬ (IsWhole (number self.now)) };

    /// The offset 0.
    fn zero() -> Self
        ensures { number result ≡ pos 0 };

    ghost use Rattle.std.specs.Prelude.{◌≤◌, ◌<◌, ◌^◌};

    ghost bounded: { limit ≤ 2 ^ 63 };
}

impl Offset for i32 {
    ghost use Rattle.std.specs.Prelude.{◌^◌, true, false};

    ghost number = { λ x. x };

    ghost limit = { 2 ^ 31 };

    ghost use Rattle.std.proofs.Common.{lit≤};

    ghost bounded = { lit≤ tt };

    ghost large = { false };

    fn is_large() -> bool {
        false
    }

    fn to_usize(&self) -> usize {
        *self as usize
    }

    fn from_usize(n: usize) -> Option<i32> {
        if n < 0x8000_0000 {
            Some(n as i32)
        } else {
            None
        }
    }

    fn zero() -> i32 {
        0
    }

    fn is_negative(&self) -> bool {
        *self < 0
    }
}

impl Offset for i64 {
    ghost use Rattle.std.specs.Prelude.{◌^◌, true, false};

    ghost number = { λ x. x };

    ghost limit = { 2 ^ 63 };

    ghost use Rattle.std.proofs.Common.{lit≤};

    ghost bounded = { lit≤ tt };

    ghost large = { true };

    fn is_large() -> bool {
        true
    }

    fn to_usize(&self) -> usize {
        *self as usize
    }

    fn from_usize(n: usize) -> Option<i64> {
        if n < 0x8000_0000_0000_0000 {
            Some(n as i64)
        } else {
            None
        }
    }

    fn zero() -> i64 {
        0
    }

    fn is_negative(&self) -> bool {
        *self < 0
    }
}

/// At least one place, and none below the one before it.
#[derive(Debug, Drop)]
pub struct OffsetsBuffer<O: Offset> {
    values: Rc<Vec<O>>,
    start: usize,
    size: usize,
}

impl<O: Offset> Model for OffsetsBuffer<O> {
    ghost use Rattle.std.specs.Prelude.{List, ℕ, ◌+◌, ◌<◌, length as list_length, take, drop, map};
    ghost use Rattle.columns_core.specs.Rising.{whole, AreFrom};

    ghost Value = { List ℕ };

    ghost view = { λ b. map (λ o. whole (O.number o)) (take (b.size + 1) (drop b.start b.values.value.items)) };

    ghost invariant = { λ b. (b.start + b.size < list_length b.values.value.items)
        × AreFrom 0 (map O.number b.values.value.items) };
}

impl<O: Offset> OffsetsBuffer<O> {
    /// The offsets of a list.
    ///
    /// # Errors
    ///
    /// A8 exactly where there is none, one is negative, or one is below the one before it; `Memory`.
    pub fn try_from_vec(v: Vec<O>) -> Result<Self>
        ensures ok { IfOk result (λ b. b ≡ map (λ o. whole (O.number o)) v.items) }
        ensures refused { IsErrOf result (Error.InvalidArgumentError A.A8) ↔ ¬ (ArePlaces (map O.number v.items)) }
        ensures err { IfErr result (λ e. (e ≡ Error.Memory) ⊎ (e ≡ Error.InvalidArgumentError A.A8)) }
    {
        if v.is_empty() || !never_falls(&v) {
            return Err(Error::InvalidArgumentError(A::A8));
        }
        let alloc = *v.allocator();
        let size = v.len() - 1;
        Ok(OffsetsBuffer {
            values: Rc::new(alloc, v)?,
            start: 0,
            size,
        })
    }

    /// Offsets that are known to rise.
    pub(crate) fn from_rising(v: Vec<O>) -> Result<Self>
        requires some { 0 < list_length v.items }
        requires rising { AreFrom 0 (map O.number v.items) }
        ensures ok { IfOk result (λ b. b ≡ map (λ o. whole (O.number o)) v.items) }
        ensures err { IfErr result (λ e. e ≡ Error.Memory) }
    {
        let alloc = *v.allocator();
        let size = v.len() - 1;
        Ok(OffsetsBuffer {
            values: Rc::new(alloc, v)?,
            start: 0,
            size,
        })
    }

    /// The offsets, of which there is at least one, none negative and none below the one before it.
    pub fn buffer(&self) -> &[O]
        ensures { map (λ o. whole (O.number o)) result.now ≡ self.now }
    {
        &self.values[self.start..self.start + self.size + 1]
    }

    /// The first offset.
    pub fn first(&self) -> &O
        ensures place { whole (O.number result.now) ≡ slice_index_or self.now 0 0 }
        ensures not_negative { IsWhole (O.number result.now) }
    {
        &self.values[self.start]
    }

    /// The last offset.
    pub fn last(&self) -> &O
        ensures place { whole (O.number result.now) ≡ slice_index_or self.now (list_length self.now - 1) 0 }
        ensures not_negative { IsWhole (O.number result.now) }
    {
        &self.values[self.start + self.size]
    }

    /// By how much the last offset is above the first.
    pub fn range(&self) -> O
        ensures { O.number result ≡ pos (slice_index_or self.now
            (list_length self.now - 1) 0 - slice_index_or self.now 0 0) }
    {
        self.know();
        let range = self.last().to_usize() - self.first().to_usize();
        O::from_usize(range).unwrap()
    }

    /// Callers learn that the offsets rise.
    pub fn know(&self)
        ensures { IsRising self.now }
    {
        let _ = &self.size;
    }

    /// How many ranges there are between the offsets.
    pub fn len_proxy(&self) -> usize
        ensures { list_length self.now ≡ result + 1 }
    {
        self.size
    }

    /// Keeps `length` offsets from the offset `offset` on, at least one. Nothing is copied.
    pub fn slice(&mut self, offset: usize, length: usize)
        requires some { 0 < length }
        requires within { offset + length ≤ list_length self.old }
        ensures { self.new ≡ take length (drop offset self.old) }
    {
        self.start += offset;
        self.size = length - 1;
    }

    /// Keeps `length` ranges from the range `offset` on, and so one offset more. Nothing is copied.
    pub fn slice_ranges(&mut self, offset: usize, length: usize)
        requires { offset + length ≤ list_length self.old - 1 }
        ensures { self.new ≡ take (length + 1) (drop offset self.old) }
    {
        self.start += offset;
        self.size = length;
    }

    /// The offset at a place, as a number.
    pub fn place(&self, i: usize) -> usize
        requires { i < list_length self.now }
        ensures { result ≡ slice_index_or self.now i 0 }
    {
        self.values[self.start + i].to_usize()
    }

    /// Shares the memory, and takes none.
    ///
    /// # Errors
    ///
    /// `Memory` where as many share the offsets as `usize` counts.
    pub fn clone(&self) -> Result<Self>
        ensures ok { IfOk result (λ b. b ≡ self.now) }
        ensures err { IfErr result (λ e. e ≡ Error.Memory) }
    {
        Ok(OffsetsBuffer {
            values: self.values.clone()?,
            start: self.start,
            size: self.size,
        })
    }
}

// Whether the second place is not below the first, and neither is negative: true only where it is so.
#[inline(always)]
fn is_step<O: Offset>(before: O, here: O) -> bool
    ensures { IsTrue result → IsWhole (O.number before) × IsWhole (O.number here)
        × (whole (O.number before) ≤ whole (O.number here)) }
{
    if before.is_negative() {
        return false;
    }
    if here.is_negative() {
        return false;
    }
    before.to_usize() <= here.to_usize()
}

// Whether no place is negative and none below the one before it: true only where it is so. No place ends the loop, so that several are compared by
// one instruction.
fn surely_rise<O: Offset>(places: &[O]) -> bool
    ensures { IsTrue result → AreFrom 0 (map O.number places.now) }
{
    if places.len() < 2 {
        return false;
    }
    let mut rise = true;
    for i in 1..places.len() {
        rise &= is_step(places[i - 1], places[i]);
    }
    rise
}

fn never_falls<O: Offset>(places: &[O]) -> bool
    ensures { IsTrue result ↔ AreFrom 0 (map O.number places.now) }
{
    if surely_rise(places) {
        return true;
    }
    let mut before = 0;
    for place in places {
        if place.is_negative() {
            return false;
        }
        let here = place.to_usize();
        if here < before {
            return false;
        }
        before = here;
    }
    true
}
